//! The weights of instances at a point of the copies' coordinates.

ghost use Rattle.std.specs.Prelude.{◌≡◌, ◌≤◌, ◌<◌, ◌^◌, ℕ, length, slice_index_or};
ghost use Rattle.field_ext.specs.Field.{k_ops, zero_k};
ghost use Rattle.field_ext.specs.Sums.{sum_below};
ghost use Rattle.batch_core.specs.CopiedValues.{instance_weight};

use field_ext::Ext;
use mle_table::fill_equality;

/// Fills a table of `2^k` places with the weights of `count` instances at a point of k coordinates, by instance: the equality
/// polynomial's values, with those of all copies past the last instance added to its own. What is behind them is of no use.
pub fn fill_weights(table: &mut [Ext], point: &[Ext], count: usize)
    requires room { length table.old ≡ 2 ^ length point.now }
    requires some { 1 ≤ count }
    requires copies { count ≤ 2 ^ length point.now }
    ensures { (m : ℕ) → m < count
        → slice_index_or table.new m zero_k ≡ instance_weight k_ops point.now count m }
{
    fill_equality(table, point);
    let last = sum_of(table.split_at(count - 1).1);
    table[count - 1] = last;
}

/// The sum of values.
fn sum_of(values: &[Ext]) -> Ext
    ensures { result ≡ sum_below k_ops (length values.now)
        (λ i. slice_index_or values.now i zero_k) }
{
    let mut sum = Ext::zero();
    for i in 0..values.len() {
        sum = sum + values[i];
    }
    sum
}
