//! What laying a program out as a circuit takes, and what the values of the circuit's layers take.

use arr_ast::Lang;
use arr_compile::compile;
use bench_parts::{microseconds_since, numbers};
use circuit_core::Circuit;
use circuit_eval::layer_values;
use field_ext::{Ext, Fp};
use std::alloc::{AllocError, Global};
use std::io;
use std::marker::Sync;
use std::thread::Threads;
use std::time::Instant;

/// The circuit of a program, where it has one and its text is one of at most 65,536 bytes.
pub(crate) fn compiled(alloc: Global, text: &[u8]) -> Option<Circuit> {
    if text.len() > 65_536 {
        return None;
    }
    match compile(alloc, text, Lang::Two) {
        Ok(compiled) => Some(compiled.circuit),
        Err(_) => None,
    }
}

/// How many microseconds reading and laying out took, where the program has a circuit.
fn time_compiling(rt: &HostRuntime, text: &[u8]) -> io::Result<u64> {
    let begun = Instant::now(rt)?;
    let circuit = compiled(rt.alloc(), text);
    let time = microseconds_since(rt, begun)?;
    Ok(if circuit.is_some() { time } else { u64::MAX })
}

/// How many microseconds reading and laying out took, the best of five.
fn compiling(rt: &HostRuntime, text: &[u8]) -> io::Result<u64> {
    let mut taken = u64::MAX;
    for _ in 0..5u32 {
        taken = taken.min(time_compiling(rt, text)?);
    }
    Ok(taken)
}

/// How many microseconds the values of all layers took, where there are as many inputs as the circuit has.
fn time_evaluating<R: Threads + Sync>(
    rt: &HostRuntime,
    threads: &R,
    circuit: &Circuit,
    inputs: &[Fp],
) -> io::Result<u64> {
    if inputs.len() != circuit.inputs() as usize {
        return Ok(u64::MAX);
    }
    let begun = Instant::now(rt)?;
    let values = layer_values(threads, rt.alloc(), circuit, inputs);
    let time = microseconds_since(rt, begun)?;
    Ok(if values.is_ok() { time } else { u64::MAX })
}

/// The best of five times for these inputs.
fn evaluating_on<R: Threads + Sync>(
    rt: &HostRuntime,
    threads: &R,
    circuit: &Circuit,
    inputs: &[Fp],
) -> io::Result<u64> {
    let mut taken = u64::MAX;
    for _ in 0..5u32 {
        taken = taken.min(time_evaluating(rt, threads, circuit, inputs)?);
    }
    Ok(taken)
}

/// How many microseconds the values of all layers took, the best of five.
fn evaluating<R: Threads + Sync>(
    rt: &HostRuntime,
    threads: &R,
    circuit: &Circuit,
) -> io::Result<u64> {
    let inputs = numbers(rt.alloc(), u64::from(circuit.inputs()))?;
    evaluating_on(rt, threads, circuit, &inputs)
}

/// Buffers for the values of all layers, filled with zeros.
fn zeros(alloc: Global, circuit: &Circuit) -> Result<Vec<Vec<Ext>>, AllocError> {
    let mut tables = Vec::with_capacity(alloc, circuit.height() + 1)?;
    for layer in 0..circuit.height() + 1 {
        tables.push(vec![in alloc; Ext::zero(); circuit.width(layer)]?)?;
    }
    Ok(tables)
}

/// How many microseconds it took to take as large buffers and fill them with zeros.
fn time_filling(rt: &HostRuntime, circuit: &Circuit) -> io::Result<u64> {
    let begun = Instant::now(rt)?;
    let tables = zeros(rt.alloc(), circuit);
    let time = microseconds_since(rt, begun)?;
    Ok(if tables.is_ok() { time } else { u64::MAX })
}

/// The best of five such times.
fn filling(rt: &HostRuntime, circuit: &Circuit) -> io::Result<u64> {
    let mut taken = u64::MAX;
    for _ in 0..5u32 {
        taken = taken.min(time_filling(rt, circuit)?);
    }
    Ok(taken)
}

/// How many gates a circuit has, padding included.
pub(crate) fn gates(circuit: &Circuit) -> u64 {
    let mut count = 0u64;
    for layer in 0..circuit.height() {
        count = count.saturating_add(circuit.width(layer) as u64);
    }
    count
}

/// Prints how long laying a program out took, without the end of the line.
fn print_compiling(rt: &HostRuntime, kind: &str, circuit: &Circuit, time: u64) -> io::Result<()> {
    print!(rt;
        "{}: {} layers of {} gates, laid out in {} us, ",
        kind,
        circuit.height(),
        gates(circuit).max(1),
        time
    )
}

/// Prints how long evaluating a circuit of so many gates took, and filling as much room, which ends
/// the line.
fn print_evaluating(rt: &HostRuntime, gates: u64, time: u64, filling: u64) -> io::Result<()> {
    let tenths = time.min(1_000_000_000_000).saturating_mul(10_000) / gates.max(1);
    println!(rt;
        "evaluated in {} us, {}.{} ns a gate, as much room filled in {} us",
        time,
        tenths / 10,
        tenths % 10,
        filling
    )
}

/// Prints how long laying a program out and evaluating its circuit took.
fn print_circuit<R: Threads + Sync>(
    rt: &HostRuntime,
    threads: &R,
    kind: &str,
    text: &[u8],
    circuit: &Circuit,
) -> io::Result<()> {
    let compiling = compiling(rt, text)?;
    let evaluating = evaluating(rt, threads, circuit)?;
    let filling = filling(rt, circuit)?;
    print_compiling(rt, kind, circuit, compiling)?;
    print_evaluating(rt, gates(circuit), evaluating, filling)
}

/// Prints how long laying a program out and evaluating its circuit took, where it has one.
pub fn circuit<R: Threads + Sync>(
    rt: &HostRuntime,
    threads: &R,
    kind: &str,
    text: &[u8],
) -> io::Result<()> {
    match compiled(rt.alloc(), text) {
        Some(circuit) => print_circuit(rt, threads, kind, text, &circuit),
        None => println!(rt; "{}: the program has no circuit", kind),
    }
}
