//! Layers whose tables are in several parts, by hand.

ghost use Rattle.std.specs.Prelude.{◌≡◌, ◌≤◌, ◌<◌, ◌+◌, [], length, IfOk};
ghost use Rattle.circuit_eval.specs.Tables.{FitLayers};

use crate::messages::{message, values_of};
use circuit_core::{Circuit, CircuitGate, CircuitRefused, Kind, Layer, Leaf};
use circuit_eval::Values;
use field_ext::{Ext, Fp};
use io_edge::{Gate, OpenGate};
use round_tables::GateTables;
use std::alloc::{AllocError, Global};
use std::marker::Sync;
use std::process::Abort;
use std::test::Fail;
use std::thread::Threads;
use sumcheck_prove::{bind_round, round};
use test_circuits::{gate, numbers};
use test_gates::MeetingGate;

/// Gates that copy each of so many positions.
fn gates(alloc: Global, count: u32) -> Result<Vec<CircuitGate>, AllocError> {
    let mut gates = Vec::new(alloc);
    for g in 0..count {
        gates.push(gate(Kind::Add, g, 0))?;
    }
    Ok(gates)
}

/// So many inputs.
fn leaves(alloc: Global, count: u32) -> Result<Vec<Leaf>, AllocError> {
    let mut leaves = Vec::new(alloc);
    for j in 0..count {
        leaves.push(Leaf::Input(j))?;
    }
    Ok(leaves)
}

/// A layer that copies so many inputs, one less than a power of two.
fn copies(alloc: Global, count: u32) -> Result<Circuit, CircuitRefused>
    requires { (1 ≤ count) × (count < 1048576) }
{
    let gates = gates(alloc, count + 1)?;
    let layers = vec![in alloc; Layer::of(gates)].map_err(|_| CircuitRefused::Memory)?;
    Circuit::of(
        alloc,
        layers,
        count + 1,
        leaves(alloc, count)?,
        count,
        count,
    )
}

/// So many bits of a position, as coordinates.
fn bits(alloc: Global, count: u32, position: u32) -> Result<Vec<i32>, AllocError>
    requires { count ≤ 20 }
{
    let mut bits = Vec::new(alloc);
    for j in 0..count {
        bits.push((position >> j & 1) as i32)?;
    }
    Ok(bits)
}

/// A position as a point of so many coordinates.
fn point_of(alloc: Global, count: u32, position: u32) -> Result<Vec<Ext>, AllocError>
    requires { count ≤ 20 }
{
    let bits = bits(alloc, count, position)?;
    numbers(alloc, &bits)
}

/// The values of a circuit's layers where all inputs are 1.
fn values_of_ones<R: Threads + Sync + AllocGlobal>(
    rt: &R,
    circuit: &Circuit,
    count: u32,
) -> Result<Values, Fail>
    ensures { IfOk result (λ values. FitLayers circuit.now.parts values) }
{
    let inputs = vec![in rt.alloc(); Fp::one(); count as usize]?;
    values_of(rt, circuit, &inputs)
}

/// The sumcheck of the one layer of a circuit, at a point.
fn started<'a>(
    alloc: Global,
    circuit: &'a Circuit,
    values: &'a Values,
    point: &[Ext],
) -> Result<GateTables<'a>, Fail>
    requires { FitLayers circuit.now.parts values.now }
    ensures { IfOk result (λ sum. sum.lent ≡ []) }
{
    if circuit.height() != 1 {
        return Err(Fail::new("another circuit"));
    }
    if circuit.coordinates(0) != point.len() {
        return Err(Fail::new("another point"));
    }
    Ok(GateTables::start(alloc, circuit, 0, values, point)?)
}

/// Compares the message of the next round, which so many workers sum, with the one wanted.
fn sums_to<R: Threads + Sync + Abort>(
    rt: &R,
    alloc: Global,
    sum: &GateTables<'_>,
    workers: u32,
    want: [Ext; 3],
) -> Result<(), Fail>
    requires here { sum.now.lent ≡ [] }
    requires left { length sum.now.bound < sum.now.k + sum.now.k }
    requires workers { (1 ≤ workers) × (workers ≤ 64) }
{
    assert_eq!(rt; round(rt, alloc, sum, workers, &OpenGate)?, want);
    Ok(())
}

/// Compares the message of the next round, of four pieces, with the one wanted, whether one worker sums it, two or four.
fn sums_by_any_workers<R: Threads + Sync + Abort>(
    rt: &R,
    alloc: Global,
    sum: &GateTables<'_>,
    want: [Ext; 3],
) -> Result<(), Fail>
    requires { sum.now.lent ≡ [] }
{
    if sum.rounds_left() == 0 {
        return Err(Fail::new("no round"));
    }
    assert_eq!(rt; sum.pieces(), 4);
    sums_to(rt, alloc, sum, 1, want)?;
    sums_to(rt, alloc, sum, 2, want)?;
    sums_to(rt, alloc, sum, 4, want)
}

/// Sees the first message of a layer of 8,192 positions, with the claim at one of them.
fn adds_the_pieces_at<R: Threads + Sync + Abort + AllocGlobal>(
    rt: &R,
    circuit: &Circuit,
    values: &Values,
    position: u32,
    want: [i32; 3],
) -> Result<(), Fail>
    requires { FitLayers circuit.now.parts values.now }
{
    let point = point_of(rt.alloc(), 13, position)?;
    let sum = started(rt.alloc(), circuit, values, &point)?;
    sums_by_any_workers(rt, rt.alloc(), &sum, message(want))
}

/// Over 0 and ones, with the claim at a position: the first coordinate's bit is that of the position, and the copied value
/// is 0 at position 0 alone. So at 0 the message is (1 - X) X, at 1 it is X X, and at the last position, which is in the
/// last piece, X.
#[test]
fn adds_the_pieces_of_a_round(rt: HostRuntime) -> Result<(), Fail> {
    let Ok(circuit) = copies(rt.alloc(), 8191) else {
        return Err(Fail::new("no circuit"));
    };
    let values = values_of_ones(&rt, &circuit, 8191)?;
    adds_the_pieces_at(&rt, &circuit, &values, 0, [0, 1, -1])?;
    adds_the_pieces_at(&rt, &circuit, &values, 1, [0, 0, 1])?;
    adds_the_pieces_at(&rt, &circuit, &values, 8191, [0, 1, 0])
}

/// Binds the next coordinate, by two workers, and sees that its parts can be lent and taken back before.
fn lends_and_binds<R: Threads + Sync + Abort, G: Gate>(
    rt: &R,
    alloc: Global,
    sum: &mut GateTables<'_>,
    pieces: usize,
    r: Ext,
    gate: &G,
) -> Result<(), Fail>
    requires here { sum.old.lent ≡ [] }
    requires left { length sum.old.bound < sum.old.k + sum.old.k }
    ensures here { IfOk result (λ _. sum.new.lent ≡ []) }
{
    assert!(rt; !sum.lent());
    assert_eq!(rt; sum.pieces(), pieces);
    let parts = sum.parts_out();
    assert_eq!(rt; parts.len(), pieces);
    assert!(rt; sum.lent());
    sum.parts_back(parts);
    bind_round(rt, alloc, sum, r, 2, gate)?;
    Ok(())
}

/// Whether a round of a layer of `2^k` values, counted from 0, is one of the last of its phase: its parts are then in one.
fn is_merged(k: usize, round: usize) -> bool
    requires { (11 ≤ k) × (k ≤ 20) }
{
    round % k >= 11
}

/// Sees the message of a round of a layer of `2^k` values, counted from 0, and binds its coordinate. While the left operand's
/// coordinates are bound to 1 the message is X, and then those of the right operand are bound to 0 and it is 1 - X².
fn goes_on<R: Threads + Sync + Abort, G: Gate>(
    rt: &R,
    alloc: Global,
    sum: &mut GateTables<'_>,
    k: usize,
    round: usize,
    parts: usize,
    gate: &G,
) -> Result<(), Fail>
    requires here { sum.old.lent ≡ [] }
    requires coordinates { (11 ≤ k) × (k ≤ 20) }
    ensures here { IfOk result (λ _. sum.new.lent ≡ []) }
{
    if sum.rounds_left() == 0 {
        return Err(Fail::new("no round"));
    }
    let left = round < k;
    let want = if left { [0, 1, 0] } else { [1, 0, -1] };
    sums_to(rt, alloc, sum, 2, message(want))?;
    let pieces = if is_merged(k, round) { 1 } else { parts };
    let r = if left { Ext::one() } else { Ext::zero() };
    lends_and_binds(rt, alloc, sum, pieces, r, gate)
}

/// Goes through all rounds of a sumcheck.
fn goes_to_the_end<R: Threads + Sync + Abort, G: Gate>(
    rt: &R,
    alloc: Global,
    sum: &mut GateTables<'_>,
    k: usize,
    parts: usize,
    gate: &G,
) -> Result<(), Fail>
    requires here { sum.old.lent ≡ [] }
    requires coordinates { (11 ≤ k) × (k ≤ 20) }
{
    assert_eq!(rt; sum.rounds_left(), 2 * k);
    for number_of_round in 0..2 * k {
        goes_on(rt, alloc, sum, k, number_of_round, parts, gate)?;
    }
    assert_eq!(rt; sum.rounds_left(), 0);
    Ok(())
}

/// Goes through all rounds of the one layer of a circuit, with the claim at a point.
fn goes_from<R: Threads + Sync + Abort + AllocGlobal, G: Gate>(
    rt: &R,
    circuit: &Circuit,
    values: &Values,
    point: &[Ext],
    k: usize,
    parts: usize,
    gate: &G,
) -> Result<(), Fail>
    requires values { FitLayers circuit.now.parts values.now }
    requires coordinates { (11 ≤ k) × (k ≤ 20) }
{
    let mut sum = started(rt.alloc(), circuit, values, point)?;
    goes_to_the_end(rt, rt.alloc(), &mut sum, k, parts, gate)
}

/// All rounds of a layer of `2^k` positions that copies so many ones, with the claim at the last position. While the left
/// operand's coordinates are bound to 1 the message is X, since the weight of the position is the product of its coordinates
/// and the value there is 1. Then those of the right operand are bound to 0, where the value is 0, and the message is the
/// weight 1 - X times the left value 1 and the right one X, 1 - X².
fn goes_through<R: Threads + Sync + Abort + AllocGlobal, G: Gate>(
    rt: &R,
    k: usize,
    count: u32,
    parts: usize,
    gate: &G,
) -> Result<(), Fail>
    requires coordinates { (11 ≤ k) × (k ≤ 20) }
    requires inputs { (1 ≤ count) × (count < 1048576) }
{
    let Ok(circuit) = copies(rt.alloc(), count) else {
        return Err(Fail::new("no circuit"));
    };
    let values = values_of_ones(rt, &circuit, count)?;
    let point = point_of(rt.alloc(), k as u32, count)?;
    goes_from(rt, &circuit, &values, &point, k, parts, gate)
}

#[test]
fn has_four_parts_in_eleven_rounds_of_thirteen(rt: HostRuntime) -> Result<(), Fail> {
    goes_through(&rt, 13, 8191, 4, &OpenGate)
}

#[test]
fn has_one_part_of_2048_values(rt: HostRuntime) -> Result<(), Fail> {
    goes_through(&rt, 11, 2047, 1, &OpenGate)
}

/// The widest layer has 512 parts, which two workers fold side by side.
#[test]
fn folds_the_widest_layer_by_two_workers(rt: HostRuntime) -> Result<(), Fail> {
    let gate = MeetingGate::new(0);
    goes_through(&rt, 20, 1_048_575, 512, &gate)?;
    assert!(&rt; gate.entries() > 1);
    assert!(&rt; !gate.is_raised());
    Ok(())
}
