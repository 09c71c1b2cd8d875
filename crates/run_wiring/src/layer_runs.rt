//! The runs of a layer.

ghost use Rattle.std.specs.Prelude.{◌≡◌, ◌≤◌, ◌<◌, ◌+◌, ◌*◌, [], length, max, slice_index_or, IfNone, IfOk, IfSome, IsTrue};
ghost use Rattle.field_ext.specs.Field.{k_ops};
ghost use Rattle.circuit_core.specs.Parts.{height, width_of};
ghost use Rattle.circuit_core.specs.Sound.{exponent_at};
ghost use Rattle.wiring_poly.specs.Wiring.{wiring_add, wiring_mul};
ghost use Rattle.run_wiring.specs.Runs.{gates_of};
ghost use Rattle.run_wiring.specs.LayerRuns.{LayerRuns, are_of_layer};
ghost use Rattle.run_wiring.specs.CircuitRuns.{AreRunsOf};

use crate::greedy::greedy_runs;
use crate::run::Run;
use crate::wiring::wiring_sums;
use circuit_core::Circuit;
use field_ext::Ext;
use std::alloc::{AllocError, Global};
use std::marker::Model;
use std::sync::ledger::Ledger;
use step_count::Steps;

/// The runs that stand for the gates of a layer.
#[derive(Drop)]
pub struct RunLayer {
    runs: Vec<Run>,
    k: usize,
    below: usize,
    ghost stand: { IsTrue (are_of_layer k below runs.items) },
}

impl Model for RunLayer {
    ghost use Rattle.run_wiring.specs.LayerRuns.{LayerRuns};

    ghost Value = { LayerRuns };

    ghost view = { λ a. record {
      k = a.k;
      below = a.below;
      runs = a.runs.items;
      stand = a.stand;
    } };
}

impl RunLayer {
    /// The runs, by position.
    pub fn runs(&self) -> &[Run]
        ensures { result.now ≡ self.now.runs }
    {
        self.runs.as_slice()
    }
}

/// The runs of a layer of a circuit, each as long as it can be. Err only where no memory is found.
pub fn runs_of(alloc: Global, circuit: &Circuit, layer: usize) -> Result<RunLayer, AllocError>
    requires { layer < height circuit.now.parts }
    ensures { IfOk result (AreRunsOf circuit.now.parts layer) }
{
    match runs_within(alloc, circuit, layer, circuit.width(layer))? {
        Some(runs) => Ok(runs),
        None => unreachable!(),
    }
}

/// The same runs, where they are at most so many.
pub(crate) fn runs_within(
    alloc: Global,
    circuit: &Circuit,
    layer: usize,
    most: usize,
) -> Result<Option<RunLayer>, AllocError>
    requires { layer < height circuit.now.parts }
    ensures runs { IfOk result
        (λ found. IfSome found (λ runs. AreRunsOf circuit.now.parts layer runs)) }
    ensures few { IfOk result (λ found. IfSome found (λ runs. length runs.runs ≤ most)) }
    ensures many { IfOk result (λ found. IfNone found (most < width_of circuit.now.parts layer)) }
    ensures more { IfOk result (λ found. IfNone found
        ((runs : LayerRuns) → AreRunsOf circuit.now.parts layer runs → most < length runs.runs)) }
{
    let Some(runs) = greedy_runs(alloc, circuit.gates(layer), most)? else {
        return Ok(None);
    };
    let k = circuit.coordinates(layer);
    let below = circuit.coordinates(layer + 1);
    let layer_runs = RunLayer { runs, k, below };
    Ok(Some(layer_runs))
}

/// The wiring polynomials of a layer, that of the add gates and that of the multiply gates, at the point `z` of the
/// layer's positions and the points `b` and `c` of the operands' positions in the layer below. A run takes at most 72
/// steps, one for each of the two transitions of each of 36 entries, for each coordinate of the longest point. No memory
/// is taken.
pub fn wiring_runs<L: Ledger>(
    layer: &RunLayer,
    z: &[Ext],
    b: &[Ext],
    c: &[Ext],
    steps: &mut Steps<L>,
) -> (Ext, Ext)
    requires position { length z.now ≡ layer.now.k }
    requires left { length b.now ≡ layer.now.below }
    requires right { length c.now ≡ layer.now.below }
    ensures add { result.0 ≡ wiring_add k_ops (gates_of layer.now.runs) z.now b.now c.now }
    ensures mul { result.1 ≡ wiring_mul k_ops (gates_of layer.now.runs) z.now b.now c.now }
    ensures steps { steps.new
        ≤ steps.old + 72 * max layer.now.k layer.now.below * length layer.now.runs }
{
    let sums = wiring_sums(&layer.runs, z, b, c, steps);
    (sums.add, sums.mul)
}
