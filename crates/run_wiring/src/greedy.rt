//! The longest runs of a layer's gates.

ghost use Rattle.std.specs.Prelude.{◌≡◌, ◌≤◌, ◌<◌, ◌+◌, ◌↔◌, IsTrue, IfOk, IfNone, IfSome, List, length, slice_index_or};
ghost use Rattle.circuit_core.specs.Parts.{zero_gate};
ghost use Rattle.run_wiring.specs.Runs.{gate_in, HasSmallSteps};
ghost use Rattle.run_wiring.specs.declared.run.Run.{Run};
ghost use Rattle.run_wiring.specs.Greedy.{IsRunOf, IsLongest, AreGreedy, CanFollow};

use crate::run::Run;
use circuit_core::{CircuitGate, Kind};
use std::alloc::{AllocError, Global};

/// The runs of a list of at most 1,048,576 gates, where they are at most so many: each takes as many gates as it can. Err only
/// where no memory is found.
pub(crate) fn greedy_runs(
    alloc: Global,
    gates: &[CircuitGate],
    most: usize,
) -> Result<Option<Vec<Run>>, AllocError>
    requires { length gates.now ≤ 1048576 }
    ensures runs { IfOk result
        (λ found. IfSome found (λ runs. AreGreedy runs.items gates.now)) }
    ensures few { IfOk result (λ found. IfSome found (λ runs. length runs.items ≤ most)) }
    ensures many { IfOk result (λ found. IfNone found (most < length gates.now)) }
    ensures more { IfOk result (λ found. IfNone found
        ((runs : List Run) → AreGreedy runs gates.now → most < length runs)) }
{
    let mut runs = Vec::new(alloc);
    let mut done = 0;
    while done < gates.len() {
        if runs.len() == most {
            return Ok(None);
        }
        let run = longest_at(gates, done);
        runs.push(run)?;
        done += run.count as usize;
    }
    Ok(Some(runs))
}

/// The longest run from a position.
fn longest_at(gates: &[CircuitGate], first: usize) -> Run
    requires inside { first < length gates.now }
    requires few { length gates.now ≤ 1048576 }
    ensures first { result.first ≡ first }
    ensures longest { IsLongest gates.now result }
{
    let gate = gates[first];
    let single = Run {
        kind: gate.kind,
        first: first as u32,
        count: 1,
        left: gate.left,
        lstep: 0,
        right: gate.right,
        rstep: 0,
    };
    if first + 1 == gates.len() {
        return single;
    }
    let next = gates[first + 1];
    if !can_follow(gate, next) {
        return single;
    }
    let pair = Run {
        kind: gate.kind,
        first: first as u32,
        count: 2,
        left: gate.left,
        lstep: next.left - gate.left,
        right: gate.right,
        rstep: next.right - gate.right,
    };
    extended(gates, pair)
}

/// A run of two gates with those that follow.
fn extended(gates: &[CircuitGate], run: Run) -> Run
    requires few { length gates.now ≤ 1048576 }
    requires two { run.count ≡ 2 }
    requires run { IsRunOf gates.now run }
    ensures first { result.first ≡ run.first }
    ensures longest { IsLongest gates.now result }
{
    let first = run.first as usize;
    for t in 2..gates.len() - first {
        if !goes_on(&run, t as u32, gates[first + t]) {
            return of_count(&run, t as u32);
        }
    }
    of_count(&run, (gates.len() - first) as u32)
}

/// The run with as many gates.
fn of_count(run: &Run, count: u32) -> Run
    ensures { result ≡ record run.now { count = count } }
{
    Run {
        kind: run.kind,
        first: run.first,
        count,
        left: run.left,
        lstep: run.lstep,
        right: run.right,
        rstep: run.rstep,
    }
}

/// Whether a gate is the run's at place t.
fn goes_on(run: &Run, t: u32, gate: CircuitGate) -> bool
    requires few { t ≤ 1048576 }
    requires small { HasSmallSteps run.now }
    ensures { IsTrue result ↔ (gate ≡ gate_in run.now t) }
{
    if !same_kind(gate.kind, run.kind) {
        return false;
    }
    if gate.left as u64 != run.left as u64 + (t * run.lstep) as u64 {
        return false;
    }
    gate.right as u64 == run.right as u64 + (t * run.rstep) as u64
}

/// Whether a gate may be the second of a run.
fn can_follow(gate: CircuitGate, next: CircuitGate) -> bool
    ensures { IsTrue result ↔ CanFollow gate next }
{
    if !same_kind(next.kind, gate.kind) {
        return false;
    }
    if next.left < gate.left {
        return false;
    }
    if next.left - gate.left > 2 {
        return false;
    }
    if next.right < gate.right {
        return false;
    }
    next.right - gate.right <= 2
}

fn same_kind(some: Kind, other: Kind) -> bool
    ensures { IsTrue result ↔ (some ≡ other) }
{
    match some {
        Kind::Add => match other {
            Kind::Add => true,
            Kind::Mul => false,
        },
        Kind::Mul => match other {
            Kind::Add => false,
            Kind::Mul => true,
        },
    }
}
