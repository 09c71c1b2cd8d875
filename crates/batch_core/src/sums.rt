//! Sums of values by their weights.

ghost use Rattle.std.specs.Prelude.{◌≡◌, ◌≤◌, ◌*◌, length};
ghost use Rattle.batch_core.specs.ListedInstances.{weighted_sum, sum_of_blocks};

use field_ext::{Ext, Fp};

/// The sum of values, each by its weight.
pub(crate) fn weighted_sum(weights: &[Ext], values: &[Fp]) -> Ext
    requires { length values.now ≤ length weights.now }
    ensures { result ≡ weighted_sum weights.now values.now }
{
    let mut sum = Ext::zero();
    for i in 0..values.len() {
        sum = sum + Ext::embed(values[i]) * weights[i];
    }
    sum
}

/// The sum over blocks of as many values as there are `weights`, each block by its weight in `outer`.
pub(crate) fn sum_of_blocks(count: usize, outer: &[Ext], weights: &[Ext], values: &[Fp]) -> Ext
    requires outer { count ≤ length outer.now }
    requires values { length values.now ≡ count * length weights.now }
    ensures { result ≡ sum_of_blocks count outer.now weights.now values.now }
{
    let size = weights.len();
    let mut sum = Ext::zero();
    for m in 0..count {
        let block = values.split_at(m * size).1.split_at(size).0;
        sum = sum + outer[m] * weighted_sum(weights, block);
    }
    sum
}
