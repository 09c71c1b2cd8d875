//! Inputs that the values of the input layer belong to.

ghost use Rattle.std.specs.Prelude.{◌≡◌, ◌<◌, ◌^◌, All, IfOk, List, length, vec_len};
ghost use Rattle.field_ext.specs.Field.{F};
ghost use Rattle.circuit_core.specs.declared.gate.Leaf.{Leaf};
ghost use Rattle.circuit_core.specs.Faults.{IsLeafWithin};
ghost use Rattle.circuit_core.specs.Parts.{input_table, leaf_value};
ghost use Rattle.circuit_eval.specs.Tables.{AreTables};
ghost use Rattle.audit_core.specs.Leaves.{AreLeafValues, GiveValues};

use circuit_core::{Circuit, Leaf};
use circuit_eval::Values;
use field_ext::Fp;
use mle_table::BaseTable;
use std::alloc::{AllocError, Global};

/// Inputs of the right count with which the circuit's leaves have these values: what its leaves don't read is 0.
pub(crate) fn inputs_of(
    alloc: Global,
    circuit: &Circuit,
    values: &Values,
) -> Result<Vec<Fp>, AllocError>
    requires { (inputs : List F) × AreTables circuit.now.parts inputs values.now }
    ensures count { IfOk result (λ read. vec_len read ≡ circuit.now.parts.inputs) }
    ensures values { IfOk result
        (λ read. (inputs : List F) → AreTables circuit.now.parts inputs values.now
        → input_table circuit.now.parts read.items ≡ input_table circuit.now.parts inputs) }
{
    let mut inputs = vec![in alloc; Fp::zero(); circuit.inputs() as usize]?;
    read_leaves(
        circuit.leaves(),
        values.table(circuit.height()),
        &mut inputs,
    );
    Ok(inputs)
}

/// Writes each input that a leaf reads, as it is found after position 0 of the table of the input layer.
fn read_leaves(leaves: &[Leaf], table: &BaseTable, inputs: &mut [Fp])
    requires within { All (IsLeafWithin (length inputs.old)) leaves.now }
    requires capacity { length leaves.now < 2 ^ table.now.k }
    ensures { (wanted : List F) → AreLeafValues wanted leaves.now table.now.items
        → GiveValues inputs.new wanted leaves.now (length leaves.now) }
{
    for i in 0..leaves.len() {
        read_leaf(leaves[i], table.at(i + 1).re(), inputs);
    }
}

/// Writes the input that a leaf reads, where it has this value.
fn read_leaf(leaf: Leaf, value: Fp, inputs: &mut [Fp])
    requires { IsLeafWithin (length inputs.old) leaf }
    ensures read { (wanted : List F) → value ≡ leaf_value wanted leaf
        → leaf_value inputs.new leaf ≡ leaf_value wanted leaf }
    ensures kept { (wanted : List F) (other : Leaf) → value ≡ leaf_value wanted leaf
        → leaf_value inputs.old other ≡ leaf_value wanted other
        → leaf_value inputs.new other ≡ leaf_value wanted other }
{
    match leaf {
        Leaf::Input(input) => inputs[input as usize] = value,
        Leaf::Const(_) => {}
    }
}
