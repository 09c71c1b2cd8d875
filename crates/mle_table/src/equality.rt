//! Tables of the equality polynomial at a point.

ghost use Rattle.std.specs.Prelude.{◌≡◌, ◌≤◌, ◌*◌, ◌^◌, ℕ, List, [], ◌∷◌, ◌++◌, length, slice_index_or};
ghost use Rattle.field_ext.specs.Field.{K, k_ops, zero_k};
ghost use Rattle.mle_table.specs.Equality.{IsEqTable};

use field_ext::Ext;

/// Fills the first `2^k` places of a table with the equality polynomial's values at a point of k coordinates. The places
/// after them stay as they are.
pub fn fill_equality(table: &mut [Ext], point: &[Ext])
    requires { 2 ^ length point.now ≤ length table.old }
    ensures filled { IsEqTable k_ops point.now table.new }
    ensures rest { (g : ℕ) → 2 ^ length point.now ≤ g →
        slice_index_or table.new g zero_k ≡ slice_index_or table.old g zero_k }
{
    table[0] = Ext::one();
    let mut size = 1;
    for u in point {
        extend_equality(table, size, *u);
        size *= 2;
    }
}

/// Doubles a table of `size` values by one more coordinate, after those that it has.
fn extend_equality(table: &mut [Ext], size: usize, u: Ext)
    requires { 2 * size ≤ length table.old }
    ensures filled { (us : List K) → size ≡ 2 ^ length us → IsEqTable k_ops us table.old →
        IsEqTable k_ops (us ++ u ∷ []) table.new }
    ensures rest { (g : ℕ) → 2 * size ≤ g →
        slice_index_or table.new g zero_k ≡ slice_index_or table.old g zero_k }
{
    for g in 0..size {
        let whole = table[g];
        let high = whole * u;
        table[size + g] = high;
        table[g] = whole - high;
    }
}
