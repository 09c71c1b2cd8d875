//! What one layer of random gates takes: its rounds, beside plain loops with the same work, its line, and the verifier's
//! wiring polynomials.

ghost use Rattle.std.specs.Prelude.{◌≡◌, ◌<◌, ◌+◌, [], length, IfOk, IfSome};

use crate::plain_layer::{Plain, PlainBuffers, PlainTables, ZERO, prove_layer};
use bench_parts::{Random, Ratio, nanoseconds_since};
use circuit_core::{Circuit, CircuitGate, Layer, Leaf};
use field_ext::{Ext, Fp};
use io_edge::OpenGate;
use line_reduce::line_poly;
use mle_table::BaseTable;
use round_tables::{Buffers, GateTables};
use std::alloc::{AllocError, Global};
use std::io;
use std::marker::Sync;
use std::thread::Threads;
use std::time::Instant;
use sumcheck_prove::{bind_round, round};
use wiring_poly::wiring_at;

/// The output point of a layer, and the challenges of both phases.
#[derive(Drop)]
pub(crate) struct LayerPoints {
    pub(crate) output: Vec<Ext>,
    pub(crate) left: Vec<Ext>,
    pub(crate) right: Vec<Ext>,
}

/// A layer of `2^k` gates over as many values of the base field, and its points.
#[derive(Drop)]
pub(crate) struct LayerCase {
    pub(crate) circuit: Circuit,
    pub(crate) values: BaseTable,
    pub(crate) points: LayerPoints,
}

/// A circuit of one layer of these gates, over as many values.
fn layer_of(
    alloc: Global,
    gates: Vec<CircuitGate>,
    width: u32,
) -> Result<Option<Circuit>, AllocError> {
    let layers = vec![in alloc; Layer::of(gates)]?;
    let leaves = Vec::from_slice(alloc, &[Leaf::Input(0)])?;
    let outputs = width.saturating_sub(1).max(1);
    Ok(Circuit::of(alloc, layers, width, leaves, 1, outputs).ok())
}

/// A circuit of one layer of `2^k` random gates.
fn circuit_of(alloc: Global, random: &mut Random, k: u32) -> Result<Option<Circuit>, AllocError> {
    let gates = random.gates(alloc, k)?;
    layer_of(alloc, gates, 1u32 << k.clamp(1, 20))
}

fn table_of(alloc: Global, random: &mut Random, k: u32) -> Result<BaseTable, AllocError> {
    let mut values = vec![in alloc; Fp::zero(); 1usize << k.min(20)]?;
    for i in 0..values.len() {
        values[i] = Fp::reduce(random.next());
    }
    Ok(BaseTable::of(values))
}

/// Points of k random coordinates each.
fn points_of(alloc: Global, random: &mut Random, k: u32) -> Result<LayerPoints, AllocError> {
    let output = random.elements(alloc, k)?;
    let left = random.elements(alloc, k)?;
    let right = random.elements(alloc, k)?;
    Ok(LayerPoints {
        output,
        left,
        right,
    })
}

/// The case of this circuit.
fn case_over(
    alloc: Global,
    random: &mut Random,
    circuit: Circuit,
    k: u32,
) -> Result<LayerCase, AllocError> {
    let values = table_of(alloc, random, k)?;
    let points = points_of(alloc, random, k)?;
    Ok(LayerCase {
        circuit,
        values,
        points,
    })
}

pub(crate) fn case_of(alloc: Global, k: u32) -> Result<Option<LayerCase>, AllocError> {
    let mut random = Random::of(1);
    match circuit_of(alloc, &mut random, k)? {
        Some(circuit) => Ok(Some(case_over(alloc, &mut random, circuit, k)?)),
        None => Ok(None),
    }
}

/// The working tables of the layer in the buffers, where its sizes fit.
fn started<'a>(
    buffers: Buffers,
    circuit: &'a Circuit,
    values: &'a BaseTable,
    point: &'a [Ext],
) -> Result<Option<GateTables<'a>>, AllocError>
    ensures { IfOk result (λ found. IfSome found (λ tables. tables.lent ≡ [])) }
{
    if circuit.height() == 0 || circuit.coordinates(0) != point.len() {
        return Ok(None);
    }
    if circuit.coordinates(1) != values.k() as usize {
        return Ok(None);
    }
    let tables = GateTables::start_in(buffers, circuit.gates(0), values, point)?;
    Ok(Some(tables))
}

/// The working tables of the case in the buffers, where there are any and its sizes fit.
pub(crate) fn started_in<'a>(
    room: Option<Buffers>,
    case: &'a LayerCase,
) -> Result<Option<GateTables<'a>>, AllocError>
    ensures { IfOk result (λ found. IfSome found (λ tables. tables.lent ≡ [])) }
{
    match room {
        Some(buffers) => started(buffers, &case.circuit, &case.values, &case.points.output),
        None => Ok(None),
    }
}

/// The message of the next round by one worker, of which a digest is left, and the challenge bound.
fn prove_round<R: Threads + Sync>(
    rt: &R,
    alloc: Global,
    tables: &mut GateTables<'_>,
    r: Ext,
) -> Result<u32, AllocError>
    requires here { tables.old.lent ≡ [] }
    requires left { length tables.old.bound < tables.old.k + tables.old.k }
    ensures { IfOk result (λ _. tables.new.lent ≡ []) }
{
    let message = round(rt, alloc, tables, 1, &OpenGate)?;
    let digest = message[0].re().value() ^ message[1].im().value();
    bind_round(rt, alloc, tables, r, 1, &OpenGate)?;
    Ok(digest ^ message[2].re().value())
}

/// All rounds of a layer by one worker, of whose messages a digest is left.
fn prove_rounds<R: Threads + Sync>(
    rt: &R,
    alloc: Global,
    tables: &mut GateTables<'_>,
    case: &LayerCase,
) -> Result<u32, AllocError>
    requires { tables.old.lent ≡ [] }
    ensures { IfOk result (λ _. tables.new.lent ≡ []) }
{
    let mut seen = 0u32;
    for r in case.points.left.iter().chain(case.points.right.iter()) {
        if tables.rounds_left() > 0 {
            seen = seen.wrapping_add(prove_round(rt, alloc, tables, *r)?);
        }
    }
    Ok(seen)
}

/// How many nanoseconds the rounds of a layer took, and a digest of their messages.
#[derive(Clone, Copy)]
struct Proved {
    time: u64,
    seen: u32,
}

/// Proves all rounds of a layer that was begun then and is started, by one worker, keeps the lesser
/// time, and gives the buffers back.
fn prove_started<R: Threads + Sync>(
    rt: &HostRuntime,
    threads: &R,
    mut tables: GateTables<'_>,
    case: &LayerCase,
    begun: Instant,
    best: &mut Proved,
) -> io::Result<Buffers>
    requires { tables.lent ≡ [] }
{
    let seen = prove_rounds(threads, rt.alloc(), &mut tables, case)?;
    let buffers = tables.into_buffers();
    let time = best.time.min(nanoseconds_since(rt, begun)?);
    *best = Proved { time, seen };
    Ok(buffers)
}

/// Proves all rounds of a layer in the buffers, where there are any, and gives them back where its
/// sizes fit.
fn prove<R: Threads + Sync>(
    rt: &HostRuntime,
    threads: &R,
    room: Option<Buffers>,
    case: &LayerCase,
    best: &mut Proved,
) -> io::Result<Option<Buffers>> {
    let begun = Instant::now(rt)?;
    match started_in(room, case)? {
        Some(tables) => Ok(Some(prove_started(rt, threads, tables, case, begun, best)?)),
        None => Ok(None),
    }
}

/// The best of twenty times of the proved prover, which uses the same buffers again.
fn time_proved<R: Threads + Sync>(
    rt: &HostRuntime,
    threads: &R,
    case: &LayerCase,
    k: u32,
) -> io::Result<Proved> {
    let width = 1usize << k.min(20);
    let mut room = Some(Buffers::new(rt.alloc(), width, width)?);
    let mut best = Proved {
        time: u64::MAX,
        seen: 0,
    };
    for _ in 0..20u32 {
        room = prove(rt, threads, room, case, &mut best)?;
    }
    Ok(best)
}

fn plain(alloc: Global, elements: &[Ext]) -> Result<Vec<Plain>, AllocError> {
    let mut found = vec![in alloc; ZERO; elements.len()]?;
    for (plain, element) in found.iter_mut().zip(elements) {
        *plain = Plain {
            re: element.re().value(),
            im: element.im().value(),
        };
    }
    Ok(found)
}

fn plain_tables(alloc: Global, size: usize) -> Result<PlainTables, AllocError> {
    Ok(PlainTables {
        values: vec![in alloc; ZERO; size]?,
        scales: vec![in alloc; ZERO; size]?,
        shifts: vec![in alloc; ZERO; size]?,
    })
}

fn plain_buffers(alloc: Global, size: usize) -> Result<PlainBuffers, AllocError> {
    Ok(PlainBuffers {
        point_equality: vec![in alloc; ZERO; size]?,
        left_equality: vec![in alloc; ZERO; size]?,
        tables: plain_tables(alloc, size)?,
    })
}

/// A case by the halves of its elements.
#[derive(Drop)]
struct PlainCase {
    values: Vec<Plain>,
    point: Vec<Plain>,
    left: Vec<Plain>,
    right: Vec<Plain>,
}

fn plain_case(alloc: Global, case: &LayerCase) -> Result<PlainCase, AllocError> {
    let values = plain(alloc, &case.values.elements(alloc)?)?;
    let point = plain(alloc, &case.points.output)?;
    let left = plain(alloc, &case.points.left)?;
    let right = plain(alloc, &case.points.right)?;
    Ok(PlainCase {
        values,
        point,
        left,
        right,
    })
}

/// The best of twenty times of the plain loops over these gates in these buffers.
fn least_plain(
    rt: &HostRuntime,
    gates: &[CircuitGate],
    case: &PlainCase,
    buffers: &mut PlainBuffers,
) -> io::Result<(u64, u32)> {
    let (mut best, mut seen) = (u64::MAX, 0);
    for _ in 0..20u32 {
        let begun = Instant::now(rt)?;
        seen = prove_layer(
            gates,
            &case.values,
            &case.point,
            &case.left,
            &case.right,
            buffers,
        );
        best = best.min(nanoseconds_since(rt, begun)?);
    }
    Ok((best, seen))
}

/// The best of twenty times of the plain loops.
fn time_plain(rt: &HostRuntime, case: &LayerCase) -> io::Result<(u64, u32)> {
    if case.circuit.height() == 0 {
        return Ok((u64::MAX, 0));
    }
    let plain = plain_case(rt.alloc(), case)?;
    let mut buffers = plain_buffers(rt.alloc(), plain.values.len())?;
    least_plain(rt, case.circuit.gates(0), &plain, &mut buffers)
}

/// The wiring polynomials of the layer at its three points, of which a digest is left.
fn wire(circuit: &Circuit, point: &[Ext], left: &[Ext], right: &[Ext]) -> u32 {
    if circuit.height() == 0 || circuit.coordinates(0) != point.len() {
        return 0;
    }
    if circuit.coordinates(1) != left.len() || left.len() != right.len() {
        return 0;
    }
    let (add, mul) = wiring_at(circuit, 0, point, left, right);
    add.re().value() ^ mul.im().value()
}

/// The best of twenty times of the wiring polynomials.
fn time_wiring(rt: &HostRuntime, case: &LayerCase) -> io::Result<(u64, u32)> {
    let (mut best, mut seen) = (u64::MAX, 0);
    for _ in 0..20u32 {
        let begun = Instant::now(rt)?;
        seen = wire(
            &case.circuit,
            &case.points.output,
            &case.points.left,
            &case.points.right,
        );
        best = best.min(nanoseconds_since(rt, begun)?);
    }
    Ok((best, seen))
}

/// The line between the operands' points, of which a digest is left.
pub(crate) fn line(alloc: Global, case: &LayerCase) -> Result<u32, AllocError> {
    let (left, right) = (&case.points.left, &case.points.right);
    let k = case.values.k() as usize;
    if k > 20 || left.len() != k || right.len() != k {
        return Ok(0);
    }
    let polynomial = line_poly(alloc, &case.values, left, right)?;
    match polynomial.coefficients().last() {
        Some(last) => Ok(last.re().value()),
        None => Ok(0),
    }
}

/// The best of twenty times of the line.
fn time_line(rt: &HostRuntime, case: &LayerCase) -> io::Result<(u64, u32)> {
    let (mut best, mut seen) = (u64::MAX, 0);
    for _ in 0..20u32 {
        let begun = Instant::now(rt)?;
        seen = line(rt.alloc(), case)?;
        best = best.min(nanoseconds_since(rt, begun)?);
    }
    Ok((best, seen))
}

/// Prints a time as nanoseconds a gate, and its ratio to another, both with two digits.
fn print_time(
    rt: &HostRuntime,
    what: &str,
    time: u64,
    plain: u64,
    k: u32,
    seen: u32,
) -> io::Result<()> {
    println!(rt;
        "{}: 2^{} gates, {} ns a gate, {} of the plain loops ({})",
        what,
        k,
        Ratio::of(time, 1u64 << k.min(20)),
        Ratio::of(time, plain),
        seen
    )
}

/// Prints what proving and checking a layer of `2^k` gates take.
fn print_layer<R: Threads + Sync>(
    rt: &HostRuntime,
    threads: &R,
    case: &LayerCase,
    k: u32,
) -> io::Result<()> {
    let (plain, plain_seen) = time_plain(rt, case)?;
    let proved = time_proved(rt, threads, case, k)?;
    let (line, line_seen) = time_line(rt, case)?;
    let (wiring, wiring_seen) = time_wiring(rt, case)?;
    print_time(rt, "plain loops", plain, plain, k, plain_seen)?;
    print_time(rt, "prove a layer", proved.time, plain, k, proved.seen)?;
    print_time(rt, "line of a layer", line, plain, k, line_seen)?;
    print_time(rt, "wiring of a layer", wiring, plain, k, wiring_seen)
}

/// Prints what proving and checking a layer of `2^k` gates take, where there is one of that size.
pub fn layer<R: Threads + Sync>(rt: &HostRuntime, threads: &R, k: u32) -> io::Result<()> {
    match case_of(rt.alloc(), k)? {
        Some(case) => print_layer(rt, threads, &case, k),
        None => println!(rt; "layer: no layer of that size"),
    }
}
