//! How the wiring polynomials of each layer are evaluated.

ghost use Rattle.std.specs.Prelude.{◌≡◌, ◌<◌, ◌+◌, [], length, slice_index_or, IfOk};
ghost use Rattle.field_ext.specs.Field.{k_ops};
ghost use Rattle.circuit_core.specs.Parts.{height};
ghost use Rattle.circuit_core.specs.Sound.{exponent_at};
ghost use Rattle.wiring_poly.specs.Wiring.{wiring_add, wiring_mul};
ghost use Rattle.run_wiring.specs.Runs.{gates_of};
ghost use Rattle.run_wiring.specs.CircuitRuns.{IsWiringOf, AreWiringsOf};

use crate::layer_runs::{RunLayer, runs_within, wiring_runs};
use circuit_core::Circuit;
use field_ext::Ext;
use std::alloc::{AllocError, Global};
use std::marker::Brand;
use std::sync::ledger::{Blank, Ledger};
use step_count::Steps;
use wiring_poly::wiring_at;

/// How many gates' walk a run counts for, for each coordinate of the longest point and once more.
const GATES_A_COORDINATE: usize = 16;

/// How the wiring polynomials of a layer are evaluated.
#[derive(Drop)]
pub enum LayerWiring {
    /// By the layer's runs, where they are few.
    Runs(RunLayer),
    /// Gate by gate.
    Gates,
}

/// The wiring of each layer of a circuit, the output layer first: its runs exactly where they are so few that going over
/// them is quicker than going over the gates (`AreFew`). Err only where no memory is found.
pub fn wirings(alloc: Global, circuit: &Circuit) -> Result<Vec<LayerWiring>, AllocError>
    ensures { IfOk result (λ wirings. AreWiringsOf circuit.now.parts wirings.items) }
{
    let mut wirings = Vec::new(alloc);
    for layer in 0..circuit.height() {
        wirings.push(wiring_of(alloc, circuit, layer)?)?;
    }
    Ok(wirings)
}

/// The wiring of a layer.
fn wiring_of(alloc: Global, circuit: &Circuit, layer: usize) -> Result<LayerWiring, AllocError>
    requires { layer < height circuit.now.parts }
    ensures { IfOk result (IsWiringOf circuit.now.parts layer) }
{
    let longest = circuit
        .coordinates(layer)
        .max(circuit.coordinates(layer + 1));
    let most = circuit.width(layer) / (GATES_A_COORDINATE * (longest + 1));
    match runs_within(alloc, circuit, layer, most)? {
        Some(runs) => Ok(LayerWiring::Runs(runs)),
        None => Ok(LayerWiring::Gates),
    }
}

impl LayerWiring {
    /// The wiring polynomials of the layer of which this is the wiring, at the point `z` of its positions and the points
    /// `b` and `c` of the operands' positions in the layer below: that of the add gates and that of the multiply gates. No
    /// memory is taken.
    pub fn at(&self, circuit: &Circuit, layer: usize, z: &[Ext], b: &[Ext], c: &[Ext]) -> (Ext, Ext)
        requires layer { layer < height circuit.now.parts }
        requires of { IsWiringOf circuit.now.parts layer self.now }
        requires position { length z.now ≡ exponent_at circuit.now.parts layer }
        requires left { length b.now ≡ exponent_at circuit.now.parts (layer + 1) }
        requires right { length c.now ≡ exponent_at circuit.now.parts (layer + 1) }
        ensures add { result.0 ≡ wiring_add k_ops
            (slice_index_or circuit.now.parts.layers layer []) z.now b.now c.now }
        ensures mul { result.1 ≡ wiring_mul k_ops
            (slice_index_or circuit.now.parts.layers layer []) z.now b.now c.now }
    {
        match self {
            LayerWiring::Runs(runs) => wiring_from::<Brand>(runs, z, b, c, Blank::new(1)),
            LayerWiring::Gates => wiring_at(circuit, layer as u32, z, b, c),
        }
    }
}

/// The wiring polynomials by runs, whose steps nobody counts.
fn wiring_from<L: Ledger>(
    runs: &RunLayer,
    z: &[Ext],
    b: &[Ext],
    c: &[Ext],
    blank: Blank,
) -> (Ext, Ext)
    requires position { length z.now ≡ runs.now.k }
    requires left { length b.now ≡ runs.now.below }
    requires right { length c.now ≡ runs.now.below }
    requires name { blank.name ≡ L.name }
    requires parts { blank.parts ≡ L.parts }
    requires some { 0 < L.parts }
    ensures add { result.0 ≡ wiring_add k_ops (gates_of runs.now.runs) z.now b.now c.now }
    ensures mul { result.1 ≡ wiring_mul k_ops (gates_of runs.now.runs) z.now b.now c.now }
{
    let mut steps = Steps::<L>::start(blank);
    wiring_runs(runs, z, b, c, &mut steps)
}
