//! The runs of a layer's gates, and the wiring polynomials by them.

ghost use Rattle.std.specs.Prelude.{◌≡◌, ◌<◌, length};
ghost use Rattle.circuit_core.specs.Parts.{height};
ghost use Rattle.circuit_core.specs.Sound.{exponent_at};
ghost use Rattle.run_wiring.specs.CircuitRuns.{AreWiringsOf};

use circuit_core::{Circuit, CircuitGate, CircuitRefused, Kind, Layer, Leaf};
use field_ext::{Ext, Fp};
use run_wiring::{LayerWiring, Run, RunLayer, runs_of, wiring_runs, wirings};
use std::alloc::{AllocError, Global};
use std::marker::Brand;
use std::process::Abort;
use std::sync::ledger::{Blank, Ledger};
use std::test::Fail;
use step_count::Steps;
use test_circuits::{gate, number};
use wiring_poly::wiring_at;

fn add(left: u32, right: u32) -> CircuitGate {
    gate(Kind::Add, left, right)
}

fn mul(left: u32, right: u32) -> CircuitGate {
    gate(Kind::Mul, left, right)
}

/// One layer of these gates over so many positions, each of them but gate 0 an output.
fn made(alloc: Global, gates: &[CircuitGate], width: u32) -> Result<Circuit, CircuitRefused> {
    let outputs = u32::try_from(gates.len()).unwrap_or(2).max(2) - 1;
    let gates = Vec::from_slice(alloc, gates)?;
    let layers = vec![in alloc; Layer::of(gates)].map_err(|_| CircuitRefused::Memory)?;
    let leaves = Vec::from_slice(alloc, &[Leaf::Input(0)])?;
    Circuit::of(alloc, layers, width, leaves, 1, outputs)
}

/// The gates from a position on, of one kind, with an operand and its step on each side.
fn run(kind: Kind, first: u32, count: u32, left: (u32, u32), right: (u32, u32)) -> Run {
    Run {
        kind,
        first,
        count,
        left: left.0,
        lstep: left.1,
        right: right.0,
        rstep: right.1,
    }
}

/// Compares runs with those wanted.
fn are_runs<R: Abort>(rt: &R, found: &[Run], want: &[Run]) {
    assert_eq!(rt; found.len(), want.len());
    for (found, want) in found.iter().zip(want) {
        assert_eq!(rt; *found, *want);
    }
}

/// Sees the runs of a circuit's one layer.
fn has_runs<R: Abort + AllocGlobal>(rt: &R, circuit: &Circuit, want: &[Run]) -> Result<(), Fail> {
    assert!(rt; circuit.height() == 1);
    let layer = runs_of(rt.alloc(), circuit, 0)?;
    are_runs(rt, layer.runs(), want);
    Ok(())
}

/// Sees the runs of the one layer of these gates.
fn splits<R: Abort + AllocGlobal>(
    rt: &R,
    gates: &[CircuitGate],
    width: u32,
    want: &[Run],
) -> Result<(), Fail> {
    let Ok(circuit) = made(rt.alloc(), gates, width) else {
        return Err(Fail::new("no circuit"));
    };
    has_runs(rt, &circuit, want)
}

/// The run of gate 0 alone.
fn zero_alone() -> Run {
    run(Kind::Add, 0, 1, (0, 0), (0, 0))
}

/// The layer of `input a; output a;`.
#[test]
fn splits_a_copy_into_one_run(rt: HostRuntime) -> Result<(), Fail> {
    let gates = [add(0, 0), add(1, 0)];
    splits(&rt, &gates, 4, &[run(Kind::Add, 0, 2, (0, 1), (0, 0))])
}

/// The layer above the inputs of `input a; input b; output a*b;`.
#[test]
fn splits_a_product_from_the_zero_gate(rt: HostRuntime) -> Result<(), Fail> {
    let gates = [add(0, 0), mul(1, 2)];
    let product = run(Kind::Mul, 1, 1, (1, 0), (2, 0));
    splits(&rt, &gates, 4, &[zero_alone(), product])
}

#[test]
fn ends_a_run_at_a_step_of_three_or_backwards(rt: HostRuntime) -> Result<(), Fail> {
    let gates = [add(0, 0), add(3, 0), add(1, 0), add(0, 0)];
    let first = run(Kind::Add, 1, 1, (3, 0), (0, 0));
    let second = run(Kind::Add, 2, 1, (1, 0), (0, 0));
    let third = run(Kind::Add, 3, 1, (0, 0), (0, 0));
    splits(&rt, &gates, 4, &[zero_alone(), first, second, third])
}

#[test]
fn ends_a_run_where_a_step_changes(rt: HostRuntime) -> Result<(), Fail> {
    let gates = [add(0, 0), add(1, 2), add(3, 4), add(5, 6)];
    let first = run(Kind::Add, 0, 2, (0, 1), (0, 2));
    let second = run(Kind::Add, 2, 2, (3, 2), (4, 2));
    splits(&rt, &gates, 8, &[first, second])
}

/// The twelfth layer of the sum of 64 by 64 inputs: 2,048 sums of neighbours.
fn neighbours(alloc: Global) -> Result<Vec<CircuitGate>, AllocError> {
    let mut gates = vec![in alloc; add(0, 0); 4096]?;
    for g in 1..2049 {
        let left = 2 * g as u32 - 1;
        gates[g] = add(left, left + 1);
    }
    Ok(gates)
}

#[test]
fn splits_a_wide_sum_into_three(rt: HostRuntime) -> Result<(), Fail> {
    let gates = neighbours(rt.alloc())?;
    splits(
        &rt,
        &gates,
        8192,
        &[
            run(Kind::Add, 0, 2, (0, 1), (0, 2)),
            run(Kind::Add, 2, 2047, (3, 2), (4, 2)),
            run(Kind::Add, 2049, 2047, (0, 0), (0, 0)),
        ],
    )
}

/// The wiring polynomials by runs, whose steps are counted by a ledger of their own.
fn counted<L: Ledger>(layer: &RunLayer, z: &[Ext], b: &[Ext], c: &[Ext], blank: Blank) -> (Ext, Ext)
    requires position { length z.now ≡ layer.now.k }
    requires left { length b.now ≡ layer.now.below }
    requires right { length c.now ≡ layer.now.below }
    requires name { blank.name ≡ L.name }
    requires parts { blank.parts ≡ L.parts }
    requires some { 0 < L.parts }
{
    let mut steps = Steps::<L>::start(blank);
    wiring_runs(layer, z, b, c, &mut steps)
}

/// Compares the wiring polynomials by runs with those wanted.
fn weighs<R: Abort>(rt: &R, layer: &RunLayer, z: &[Ext], b: &[Ext], c: &[Ext], want: (Ext, Ext))
    requires position { length z.now ≡ layer.now.k }
    requires left { length b.now ≡ layer.now.below }
    requires right { length c.now ≡ layer.now.below }
{
    let weights = counted::<Brand>(layer, z, b, c, Blank::new(1));
    assert_eq!(rt; weights, want);
}

/// Sees what the runs of a circuit's one layer weigh at 2, 3 and 4.
fn weighs_at_three<R: Abort + AllocGlobal>(
    rt: &R,
    circuit: &Circuit,
    want: (Ext, Ext),
) -> Result<(), Fail> {
    assert!(rt; circuit.height() == 1);
    assert!(rt; circuit.coordinates(0) == 1 && circuit.coordinates(1) == 1);
    let (z, b, c) = ([number(2)], [number(3)], [number(4)]);
    let layer = runs_of(rt.alloc(), circuit, 0)?;
    weighs(rt, &layer, &z, &b, &c, want);
    Ok(())
}

/// At 2, 3 and 4: (1 - 2)(1 - 3)(1 - 4) of gate 0, and (2)(3)(1 - 4) of gate 1.
#[test]
fn weighs_a_copy_by_its_run(rt: HostRuntime) -> Result<(), Fail> {
    let Ok(circuit) = made(rt.alloc(), &[add(0, 0), add(1, 0)], 2) else {
        return Err(Fail::new("no circuit"));
    };
    weighs_at_three(&rt, &circuit, (number(-24), Ext::zero()))
}

/// So many coordinates, each another.
fn point(alloc: Global, k: usize, first: u64) -> Result<Vec<Ext>, AllocError> {
    let mut coordinates = Vec::new(alloc);
    for j in 0..k {
        let re = Fp::reduce(first.wrapping_add((j as u64).wrapping_mul(2_654_435_761)));
        coordinates.push(Ext::of(re, Fp::reduce(j as u64)))?;
    }
    Ok(coordinates)
}

/// The wiring polynomials of layer 0, by its runs or gate by gate.
fn wired(circuit: &Circuit, wirings: &[LayerWiring], z: &[Ext], b: &[Ext], c: &[Ext]) -> (Ext, Ext)
    requires some { 0 < height circuit.now.parts }
    requires wirings { AreWiringsOf circuit.now.parts wirings.now }
    requires position { length z.now ≡ exponent_at circuit.now.parts 0 }
    requires left { length b.now ≡ exponent_at circuit.now.parts 1 }
    requires right { length c.now ≡ exponent_at circuit.now.parts 1 }
{
    let wiring = &wirings[0];
    wiring.at(circuit, 0, z, b, c)
}

/// Sees that the wiring of layer 0, by its runs or gate by gate, is the walk over its gates at these points.
fn agrees_at<R: Abort>(
    rt: &R,
    circuit: &Circuit,
    wirings: &[LayerWiring],
    z: &[Ext],
    b: &[Ext],
    c: &[Ext],
)
    requires some { 0 < height circuit.now.parts }
    requires wirings { AreWiringsOf circuit.now.parts wirings.now }
{
    assert!(rt; z.len() == circuit.coordinates(0));
    assert!(rt; b.len() == circuit.coordinates(1) && c.len() == circuit.coordinates(1));
    let found = wired(circuit, wirings, z, b, c);
    assert_eq!(rt; found, wiring_at(circuit, 0, z, b, c));
}

/// Sees the same at points of the layer's sizes.
fn agrees_at_points<R: Abort + AllocGlobal>(
    rt: &R,
    circuit: &Circuit,
    wirings: &[LayerWiring],
) -> Result<(), Fail>
    requires some { 0 < height circuit.now.parts }
    requires wirings { AreWiringsOf circuit.now.parts wirings.now }
{
    let z = point(rt.alloc(), circuit.coordinates(0), 5)?;
    let b = point(rt.alloc(), circuit.coordinates(1), 7)?;
    let c = point(rt.alloc(), circuit.coordinates(1), 11)?;
    agrees_at(rt, circuit, wirings, &z, &b, &c);
    Ok(())
}

/// Sees whether layer 0 is gone over by its runs.
fn is_by_runs<R: Abort>(rt: &R, wirings: &[LayerWiring], by_runs: bool)
    requires { 0 < length wirings.now }
{
    assert!(rt; matches!(&wirings[0], LayerWiring::Runs(_)) == by_runs);
}

/// Sees that the wiring of a circuit's one layer, by its runs or gate by gate, is the walk over its gates.
fn is_wired<R: Abort + AllocGlobal>(rt: &R, circuit: &Circuit, by_runs: bool) -> Result<(), Fail> {
    assert!(rt; circuit.height() == 1);
    let wirings = wirings(rt.alloc(), circuit)?;
    is_by_runs(rt, &wirings, by_runs);
    agrees_at_points(rt, circuit, &wirings)
}

/// Sees that the layer's wiring, by its runs or gate by gate, is the walk over its gates.
fn agrees<R: Abort + AllocGlobal>(
    rt: &R,
    gates: &[CircuitGate],
    width: u32,
    by_runs: bool,
) -> Result<(), Fail> {
    let Ok(circuit) = made(rt.alloc(), gates, width) else {
        return Err(Fail::new("no circuit"));
    };
    is_wired(rt, &circuit, by_runs)
}

/// Products of operands that stand still, move by one and move by two, sums of neighbours, and a gate among them that no run
/// goes through.
fn mixed(alloc: Global) -> Result<Vec<CircuitGate>, AllocError> {
    let mut gates = vec![in alloc; add(0, 0)]?;
    for g in 1..4096u32 {
        gates.push(if g == 1300 {
            add(8191, 8190)
        } else if g < 1024 {
            mul(17, g)
        } else if g < 2048 {
            mul(2 * g, 3)
        } else {
            add(g, g + 1)
        })?;
    }
    Ok(gates)
}

/// A run for each gate.
fn tangled(alloc: Global) -> Result<Vec<CircuitGate>, AllocError> {
    let mut gates = vec![in alloc; add(0, 0)]?;
    for g in 1..4096u32 {
        gates.push(mul(g * 5 % 8192, g * 3 % 8192))?;
    }
    Ok(gates)
}

#[test]
fn goes_over_runs_where_they_are_few(rt: HostRuntime) -> Result<(), Fail> {
    let gates = neighbours(rt.alloc())?;
    agrees(&rt, &gates, 8192, true)
}

#[test]
fn goes_over_runs_of_several_kinds(rt: HostRuntime) -> Result<(), Fail> {
    let gates = mixed(rt.alloc())?;
    agrees(&rt, &gates, 8192, true)
}

#[test]
fn goes_over_gates_where_runs_are_many(rt: HostRuntime) -> Result<(), Fail> {
    let gates = tangled(rt.alloc())?;
    agrees(&rt, &gates, 8192, false)
}
