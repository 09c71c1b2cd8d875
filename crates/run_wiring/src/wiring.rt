//! The wiring polynomials of a layer, by its runs.

ghost use Rattle.std.specs.Prelude.{◌≡◌, ◌≤◌, ◌+◌, ◌*◌, ◌^◌, All, length, max};
ghost use Rattle.field_ext.specs.Field.{k_ops};
ghost use Rattle.circuit_core.specs.Parts.{IsOver};
ghost use Rattle.wiring_poly.specs.Wiring.{wiring_add, wiring_mul};
ghost use Rattle.run_wiring.specs.Runs.{gates_of, FollowOn, HasSmallSteps, HasGates};

use crate::digit_sum::run_share;
use crate::run::Run;
use field_ext::Ext;
use std::sync::ledger::Ledger;
use step_count::Steps;
use wiring_poly::WiringSums;

/// The wiring polynomials of the layer that the runs stand for, at the point `z` of its positions and the points `b` and
/// `c` of the operands' positions in the layer below. A run takes at most 72 steps for each coordinate of the longest
/// point, and no memory is taken.
pub(crate) fn wiring_sums<L: Ledger>(
    runs: &[Run],
    z: &[Ext],
    b: &[Ext],
    c: &[Ext],
    steps: &mut Steps<L>,
) -> WiringSums
    requires in_order { FollowOn 0 runs.now }
    requires some { All HasGates runs.now }
    requires small { All HasSmallSteps runs.now }
    requires positions { length (gates_of runs.now) ≡ 2 ^ length z.now }
    requires operands { All (IsOver (2 ^ length b.now)) (gates_of runs.now) }
    requires right { length c.now ≡ length b.now }
    ensures add { result.add ≡ wiring_add k_ops (gates_of runs.now) z.now b.now c.now }
    ensures mul { result.mul ≡ wiring_mul k_ops (gates_of runs.now) z.now b.now c.now }
    ensures steps { steps.new
        ≤ steps.old + 72 * max (length z.now) (length b.now) * length runs.now }
{
    let mut sums = WiringSums {
        add: Ext::zero(),
        mul: Ext::zero(),
    };
    for run in runs {
        sums = sums.with(run.kind, run_share(run, z, b, c, steps));
    }
    sums
}
