//! The values of all layers.

ghost use Rattle.std.specs.Prelude.{◌≡◌, ◌<◌, length, slice_index_or, [], IfOk};
ghost use Rattle.circuit_eval.specs.Tables.{AreTables};

use crate::layer::{Alone, GateWork, SideBySide, gate_values, input_values};
use circuit_core::Circuit;
use field_ext::Fp;
use mle_table::BaseTable;
use std::alloc::{AllocError, Global};
use std::marker::{Model, Sync};
use std::thread::Threads;

/// The tables of a circuit's layers, that of the outputs first.
#[derive(Drop)]
pub struct Values {
    tables: Vec<BaseTable>,
}

impl Model for Values {
    ghost use Rattle.std.specs.Prelude.{List, map};
    ghost use Rattle.field_ext.specs.Field.{K};

    ghost Value = { List (List K) };

    ghost view = { λ v. map (λ t. t.items) v.tables.items };
}

impl Values {
    /// The table of a layer: its values by position.
    pub fn table(&self, layer: usize) -> &BaseTable
        requires { layer < length self.now }
        ensures { result.now.items ≡ slice_index_or self.now layer [] }
    {
        &self.tables[layer]
    }
}

/// The values of every layer, for inputs of the right count. Err only where no memory is found.
pub fn layer_values<R: Threads + Sync>(
    rt: &R,
    alloc: Global,
    circuit: &Circuit,
    inputs: &[Fp],
) -> Result<Values, AllocError>
    requires { length inputs.now ≡ circuit.now.parts.inputs }
    ensures { IfOk result (AreTables circuit.now.parts inputs.now) }
{
    layer_values_by(&SideBySide { rt }, alloc, circuit, inputs)
}

/// The values of every layer, as [`layer_values`] gives them, worked by the calling thread alone.
pub fn layer_values_alone(
    alloc: Global,
    circuit: &Circuit,
    inputs: &[Fp],
) -> Result<Values, AllocError>
    requires { length inputs.now ≡ circuit.now.parts.inputs }
    ensures { IfOk result (AreTables circuit.now.parts inputs.now) }
{
    layer_values_by(&Alone, alloc, circuit, inputs)
}

/// The values of every layer, each of which is worked so.
fn layer_values_by<W: GateWork>(
    work: &W,
    alloc: Global,
    circuit: &Circuit,
    inputs: &[Fp],
) -> Result<Values, AllocError>
    requires ready { W.ready work.now }
    requires counted { length inputs.now ≡ circuit.now.parts.inputs }
    ensures { IfOk result (AreTables circuit.now.parts inputs.now) }
{
    let mut below = input_values(alloc, circuit, inputs)?;
    let mut tables: Vec<BaseTable> = Vec::with_capacity(alloc, circuit.height() + 1)?;
    for layer in (0..circuit.height()).rev() {
        let values = gate_values(work, alloc, circuit.gates(layer), &below)?;
        tables.push(BaseTable::of(below))?;
        below = values;
    }
    tables.push(BaseTable::of(below))?;
    tables.reverse();
    Ok(Values { tables })
}
