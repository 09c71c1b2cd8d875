//! What a proof takes with one worker and with more.

ghost use Rattle.std.specs.Prelude.{◌<◌, ◌^◌, length, List};
ghost use Rattle.field_ext.specs.Field.{F};
ghost use Rattle.circuit_eval.specs.Tables.{AreTables};
ghost use Rattle.phase_run.specs.Work.{IsWorkerCount};

use crate::audits::{evaluated, proved};
use crate::checking::tangled;
use crate::circuits::gates;
use bench_parts::{Ratio, nanoseconds_since};
use circuit_core::Circuit;
use circuit_eval::Values;
use field_ext::Fp;
use std::io;
use std::marker::Sync;
use std::thread::Threads;
use std::time::Instant;

/// How many nanoseconds a proof by so many workers took.
fn time_proof<R: Threads + Sync>(
    rt: &HostRuntime,
    threads: &R,
    circuit: &Circuit,
    values: &Values,
    outputs: &[Fp],
    workers: u32,
) -> io::Result<u64>
    requires workers { IsWorkerCount workers }
    requires values { (inputs : List F) × AreTables circuit.now.parts inputs values.now }
    requires few { length outputs.now < 2 ^ 32 }
{
    let begun = Instant::now(rt)?;
    let _messages = proved(threads, rt.alloc(), circuit, values, outputs, workers)?;
    nanoseconds_since(rt, begun)
}

/// The least of forty times for each of one to four workers in nanoseconds, which take turns, so that they meet the same load.
fn least_times<R: Threads + Sync>(
    rt: &HostRuntime,
    threads: &R,
    circuit: &Circuit,
    values: &Values,
    outputs: &[Fp],
) -> io::Result<[u64; 4]>
    requires values { (inputs : List F) × AreTables circuit.now.parts inputs values.now }
    requires few { length outputs.now < 2 ^ 32 }
{
    let mut least = [u64::MAX; 4];
    for turn in 0..160u32 {
        let workers = turn % 4 + 1;
        let time = time_proof(rt, threads, circuit, values, outputs, workers)?;
        let place = (workers - 1) as usize;
        least[place] = least[place].min(time);
    }
    Ok(least)
}

/// Prints what so many workers took, as nanoseconds a gate and as a ratio to one worker, both with two digits.
fn print_time(
    rt: &HostRuntime,
    workers: usize,
    k: u32,
    count: u64,
    time: u64,
    one: u64,
) -> io::Result<()> {
    println!(rt;
        "workers {}: 2^{} gates, {} ns a gate, {} of one worker",
        workers,
        k,
        Ratio::of(time, count),
        Ratio::of(time, one)
    )
}

/// Prints what a proof of these outputs takes with one to four workers.
fn print_times<R: Threads + Sync>(
    rt: &HostRuntime,
    threads: &R,
    circuit: &Circuit,
    values: &Values,
    outputs: &[Fp],
    k: u32,
) -> io::Result<()>
    requires values { (inputs : List F) × AreTables circuit.now.parts inputs values.now }
    requires few { length outputs.now < 2 ^ 32 }
{
    let least = least_times(rt, threads, circuit, values, outputs)?;
    for place in 0..4usize {
        print_time(rt, place + 1, k, gates(circuit), least[place], least[0])?;
    }
    Ok(())
}

/// Prints what a proof of a circuit takes with one to four workers, where it has outputs.
fn print_circuit<R: Threads + Sync>(
    rt: &HostRuntime,
    threads: &R,
    circuit: &Circuit,
    k: u32,
) -> io::Result<()> {
    match evaluated(rt.alloc(), threads, circuit)? {
        Some(on) => print_times(rt, threads, circuit, &on.values, &on.outputs, k),
        None => println!(rt; "workers: no outputs of that size"),
    }
}

/// Prints what a proof of eight layers of `2^k` random gates takes with one to four workers, each as nanoseconds a gate and as a
/// ratio to one worker, both with two digits.
pub fn layers<R: Threads + Sync>(rt: &HostRuntime, threads: &R, k: u32) -> io::Result<()> {
    match tangled(rt.alloc(), k)? {
        Some(circuit) => print_circuit(rt, threads, &circuit, k),
        None => println!(rt; "workers: no layers of that size"),
    }
}
