//! The extensions of the outputs' and of the inputs' table, which no table is made for.
//!
//! The tables of a point take 16 KB of the stack. So these functions aren't inlined, since within a caller they would take it for
//! as long as the caller runs.

ghost use Rattle.std.specs.Prelude.{◌≡◌, ◌≤◌, ◌<◌, ◌^◌, All, length, map};
ghost use Rattle.field_ext.specs.Field.{k_ops, embed_k};
ghost use Rattle.field_ext.specs.Multilinear.{extension_at};
ghost use Rattle.circuit_core.specs.Parts.{leaf_value, padded_values};
ghost use Rattle.circuit_core.specs.Faults.{IsLeafWithin};

use circuit_core::{Leaf, leaf_value};
use field_ext::{Ext, Fp};
use mle_table::SplitEquality;

/// The value at `point` of the multilinear extension of the table 0, `values`, zeros. No memory is taken.
#[inline(never)]
pub(crate) fn values_extension(values: &[Fp], point: &[Ext]) -> Ext
    requires few { length point.now ≤ 20 }
    requires fits { length values.now < 2 ^ length point.now }
    ensures { result ≡ extension_at k_ops k_ops
        (λ x. x) (map embed_k (padded_values (2 ^ length point.now) values.now)) point.now }
{
    let equality = SplitEquality::at(point);
    let mut sum = Ext::zero();
    for (i, value) in values.iter().enumerate() {
        sum = sum + Ext::embed(*value) * equality.value(i + 1);
    }
    sum
}

/// The value at `point` of the multilinear extension of the table 0, the leaves' values, zeros. No memory is taken.
#[inline(never)]
pub(crate) fn leaves_extension(leaves: &[Leaf], inputs: &[Fp], point: &[Ext]) -> Ext
    requires few { length point.now ≤ 20 }
    requires fits { length leaves.now < 2 ^ length point.now }
    requires within { All (IsLeafWithin (length inputs.now)) leaves.now }
    ensures { result ≡ extension_at k_ops k_ops
        (λ x. x) (map embed_k (padded_values (2 ^ length point.now)
        (map (leaf_value inputs.now) leaves.now))) point.now }
{
    let equality = SplitEquality::at(point);
    let mut sum = Ext::zero();
    for (i, leaf) in leaves.iter().enumerate() {
        let value = leaf_value(inputs, *leaf);
        sum = sum + Ext::embed(value) * equality.value(i + 1);
    }
    sum
}
