//! The tables of a batch at a point, from its instances' values.

ghost use Rattle.std.specs.Prelude.{◌≡◌, ◌≤◌, ◌+◌, ◌^◌, length};
ghost use Rattle.field_ext.specs.Field.{k_ops};
ghost use Rattle.field_ext.specs.Multilinear.{extension_at};
ghost use Rattle.circuit_core.specs.Parts.{height};
ghost use Rattle.circuit_core.specs.Sound.{exponent_at};
ghost use Rattle.proof_wire.specs.declared.form.ProofForm.{ProofForm};
ghost use Rattle.batch_core.specs.Copies.{copy_exponent};
ghost use Rattle.batch_core.specs.ListedInstances.{listed_claim, AreInstancesOf};

use crate::sums::{sum_of_blocks, weighted_sum};
use crate::value_weights::{fill_input_weights, fill_output_weights};
use crate::weights::fill_weights;
use circuit_core::Circuit;
use field_ext::{Ext, Fp};

/// The instances of a batch. Values are listed one instance after another, the same number of each.
#[derive(Clone, Copy)]
pub struct Instances<'a> {
    /// How many instances there are.
    pub count: usize,
    /// The inputs that all instances share, which are the first of the circuit's.
    pub shared: &'a [Fp],
    /// Each instance's own inputs, which are all the others.
    pub own: &'a [Fp],
    /// The outputs that are claimed for each instance.
    pub outputs: &'a [Fp],
}

/// The extension of the claimed table of all copies, at a point of a position's coordinates, then a copy's. `copy_weights` has a place
/// for each copy, `value_weights` one for each output of the circuit; what is in them is written over, and no memory is taken. The
/// values are gone over once, and each is multiplied once.
pub fn claimed_extension(
    instances: &Instances<'_>,
    circuit: &Circuit,
    point: &[Ext],
    copy_weights: &mut [Ext],
    value_weights: &mut [Ext],
) -> Ext
    requires instances { AreInstancesOf circuit.now.parts instances.now }
    requires point { length point.now
        ≡ exponent_at circuit.now.parts 0 + copy_exponent instances.now.count }
    requires copy_weights { length copy_weights.old ≡ 2 ^ copy_exponent instances.now.count }
    requires value_weights { circuit.now.parts.outputs ≤ length value_weights.old }
    ensures { (form : ProofForm) → result ≡ extension_at k_ops k_ops (λ x. x)
        (listed_claim form circuit.now.parts instances.now).claimed_table point.now }
{
    let (position, copy) = point.split_at(circuit.coordinates(0));
    fill_weights(copy_weights, copy, instances.count);
    let (value_weights, _) = value_weights.split_at_mut(circuit.outputs() as usize);
    fill_output_weights(value_weights, position);
    sum_of_blocks(
        instances.count,
        copy_weights,
        value_weights,
        instances.outputs,
    )
}

/// The extension of the input table of all copies, likewise: `value_weights` has one for each input of the circuit. Shared inputs and
/// constants are counted once, and not once for each copy. A claim at two points asks for a call at each: what is read twice costs
/// little beside a multiplication for each value and point.
pub fn input_extension(
    instances: &Instances<'_>,
    circuit: &Circuit,
    point: &[Ext],
    copy_weights: &mut [Ext],
    value_weights: &mut [Ext],
) -> Ext
    requires instances { AreInstancesOf circuit.now.parts instances.now }
    requires point { length point.now ≡ exponent_at circuit.now.parts (height circuit.now.parts)
        + copy_exponent instances.now.count }
    requires copy_weights { length copy_weights.old ≡ 2 ^ copy_exponent instances.now.count }
    requires value_weights { circuit.now.parts.inputs ≤ length value_weights.old }
    ensures { (form : ProofForm) → result ≡ extension_at k_ops k_ops (λ x. x)
        (listed_claim form circuit.now.parts instances.now).input_table point.now }
{
    let (position, copy) = point.split_at(circuit.coordinates(circuit.height()));
    fill_weights(copy_weights, copy, instances.count);
    let (value_weights, _) = value_weights.split_at_mut(circuit.inputs() as usize);
    let constants = fill_input_weights(value_weights, circuit.leaves(), position);
    let (shared, own) = value_weights.split_at(instances.shared.len());
    let once = constants + weighted_sum(shared, instances.shared);
    once + sum_of_blocks(instances.count, copy_weights, own, instances.own)
}
