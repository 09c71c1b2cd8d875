//! What outputs and inputs weigh in the extensions of one circuit's tables at a point.
//!
//! The tables of a point take 16 KB of the stack. So these functions aren't inlined, since within a caller they would take it for
//! as long as the caller runs.

ghost use Rattle.std.specs.Prelude.{◌≡◌, ◌≤◌, ◌<◌, ◌^◌, ℕ, List, All, length, map, slice_index_or};
ghost use Rattle.field_ext.specs.Field.{F, k_ops, zero_k, embed_k, add_k, mul_k};
ghost use Rattle.field_ext.specs.Multilinear.{extension_at};
ghost use Rattle.circuit_core.specs.Parts.{leaf_value, padded_values};
ghost use Rattle.circuit_core.specs.Faults.{IsLeafWithin};
ghost use Rattle.batch_core.specs.ListedInstances.{weighted_sum};

use circuit_core::Leaf;
use field_ext::Ext;
use mle_table::SplitEquality;

/// Fills in what each output weighs in the extension, at this point, of the table 0, the outputs, zeros.
#[inline(never)]
pub(crate) fn fill_output_weights(weights: &mut [Ext], point: &[Ext])
    requires few { length point.now ≤ 20 }
    requires fits { length weights.old < 2 ^ length point.now }
    ensures { (outputs : List F) → length outputs ≡ length weights.old
        → weighted_sum weights.new outputs ≡ extension_at k_ops k_ops (λ x. x)
        (map embed_k (padded_values (2 ^ length point.now) outputs)) point.now }
{
    let equality = SplitEquality::at(point);
    for i in 0..weights.len() {
        weights[i] = equality.value(i + 1);
    }
}

/// Fills in what each input weighs in the extension, at this point, of the table 0, the leaves' values, zeros, and gives what its
/// constants add.
#[inline(never)]
pub(crate) fn fill_input_weights(weights: &mut [Ext], leaves: &[Leaf], point: &[Ext]) -> Ext
    requires few { length point.now ≤ 20 }
    requires fits { length leaves.now < 2 ^ length point.now }
    requires within { All (IsLeafWithin (length weights.old)) leaves.now }
    ensures { (inputs : List F) → length inputs ≡ length weights.old
        → add_k result (weighted_sum weights.new inputs) ≡ extension_at k_ops k_ops (λ x. x)
        (map embed_k (padded_values (2 ^ length point.now) (map (leaf_value inputs) leaves.now)))
        point.now }
{
    let equality = SplitEquality::at(point);
    clear(weights);
    let mut constants = Ext::zero();
    for (i, leaf) in leaves.iter().enumerate() {
        let share = add_leaf(weights, *leaf, equality.value(i + 1));
        constants = constants + share;
    }
    constants
}

/// Sets each weight to 0.
fn clear(weights: &mut [Ext])
    ensures { (i : ℕ) → slice_index_or weights.new i zero_k ≡ zero_k }
{
    for i in 0..weights.len() {
        weights[i] = Ext::zero();
    }
}

/// Adds the weight of a leaf to that of the input that it names, or gives what its constant adds.
fn add_leaf(weights: &mut [Ext], leaf: Leaf, weight: Ext) -> Ext
    requires { IsLeafWithin (length weights.old) leaf }
    ensures { (inputs : List F) → length inputs ≡ length weights.old
        → add_k result (weighted_sum weights.new inputs) ≡ add_k (weighted_sum weights.old inputs)
        (mul_k (embed_k (leaf_value inputs leaf)) weight) }
{
    match leaf {
        Leaf::Input(j) => {
            weights[j as usize] = weights[j as usize] + weight;
            Ext::zero()
        }
        Leaf::Const(value) => Ext::embed(value) * weight,
    }
}
