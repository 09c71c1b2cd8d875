//! Times parts of the product at sizes given as arguments; `docs/benchmarks.md` has figures.
//!
//! `gkr_bench matmul N`: a product of two N by N matrices by `eval`, beside a plain loop with as many products and the
//! same reduction. `gkr_bench steps N`: a loop of N turns with one assignment. `gkr_bench names KIB`: a program of so
//! many kibibytes of declarations and sums, each of names declared before. `gkr_bench fold K`: one coordinate of a table
//! of `2^K` values. `gkr_bench case KIB`: reading and writing a case of so many kibibytes. `gkr_bench proof N`: reading
//! and writing the longest proof N times. `gkr_bench wide ROWS`: laying out and evaluating element-wise operations on so
//! many rows of 1,000 elements. `gkr_bench carried LEVELS`: the same of 60,000 values carried over so many layers.
//! `gkr_bench layer K`: all rounds of one layer of `2^K` random gates, its line, and the verifier's wiring polynomials,
//! beside plain loops that prove as many rounds. `gkr_bench stages K`: each stage of such a layer on one thread.
//! `gkr_bench workers K`: a proof of eight layers of `2^K` random gates with one, two, three and four workers in turn.
//! `gkr_bench kernels K`: a fold and the sums of such a layer's second round, by the prover's loops and by vector kernels.
//! `gkr_bench checked LEVELS`: the verifier on the circuit of `carried`, with the wiring polynomials by runs of gates, what
//! it would take by walks over the gates, and proofs by pairs. `gkr_bench random K`: the same on eight layers of `2^K`
//! random gates. `gkr_bench audit K`: a proof of such a circuit, and an audit of it. `gkr_bench runs 1 < CASE`: the runs of
//! each layer of a case's circuit. `gkr_bench turns N`: so many turns of the lock of the job table, where no other thread
//! waits.
#![tactic(auto)]

mod audits;
mod checking;
mod circuits;
mod turns;
mod workers;

use layer_bench::{kernels, proving, stages, tables};
use std::alloc::{AllocError, Global};
use std::marker::Sync;
use std::sync::Wait;
use std::thread::Threads;
use std::{env, io};
use text_bench::{evaluating, programs, texts};

const USAGE: &str =
    "gkr_bench matmul N | steps N | names KIB | copies N | copied N | transposes N | letters N | fold K | case KIB | proof N | wide ROWS | carried LEVELS | layer K | stages K | workers K | kernels K | checked LEVELS | random K | audit K | runs N | turns N";

/// The text of a program of this kind and size, where there are any of the kind.
fn program_of(alloc: Global, kind: &str, size: u32) -> Result<Option<String>, AllocError> {
    let text = match kind {
        "matmul" => programs::matrix_product(alloc, size),
        "steps" => programs::steps(alloc, size),
        "names" => programs::names(alloc, size),
        "copies" => programs::copies(alloc, size),
        "copied" => programs::copied(alloc, size),
        "transposes" => programs::transposes(alloc, size),
        "letters" => programs::letters(alloc, size),
        _ => return Ok(None),
    };
    Ok(Some(text?))
}

/// Times a program by `eval`, and a product of matrices by plain loops too.
fn time_program(rt: &HostRuntime, kind: &str, size: u32) -> io::Result<()> {
    let Some(text) = program_of(rt.alloc(), kind, size)? else {
        return println!(rt; "{}", USAGE);
    };
    evaluating::program(rt, kind, text.as_bytes())?;
    if kind == "matmul" {
        evaluating::plain_products(rt, size)?;
    }
    Ok(())
}

/// Times the circuit of a program of element-wise operations.
fn time_wide<R: Threads + Sync>(rt: &HostRuntime, threads: &R, size: u32) -> io::Result<()> {
    let text = programs::wide(rt.alloc(), size)?;
    circuits::circuit(rt, threads, "wide", text.as_bytes())
}

/// Times the circuit of a program whose values are carried.
fn time_carried<R: Threads + Sync>(rt: &HostRuntime, threads: &R, size: u32) -> io::Result<()> {
    let text = programs::carried(rt.alloc(), size)?;
    circuits::circuit(rt, threads, "carried", text.as_bytes())
}

/// Times the verifier on that circuit.
fn time_checked(rt: &HostRuntime, size: u32) -> io::Result<()> {
    let text = programs::carried(rt.alloc(), size)?;
    checking::program(rt, "checked", text.as_bytes())
}

/// Times a part of the product, or else a program.
fn time_part<R: Threads + Wait + Sync>(
    rt: &HostRuntime,
    threads: &R,
    kind: &str,
    size: u32,
) -> io::Result<()> {
    match kind {
        "fold" => tables::fold(rt, size),
        "case" => texts::case(rt, size),
        "proof" => texts::proof(rt, size),
        "wide" => time_wide(rt, threads, size),
        "carried" => time_carried(rt, threads, size),
        "checked" => time_checked(rt, size),
        "runs" => checking::runs(rt),
        "turns" => turns::turns(rt, threads, size),
        _ => time_program(rt, kind, size),
    }
}

/// Times layers of random gates, or else another part.
fn time<R: Threads + Wait + Sync>(
    rt: &HostRuntime,
    threads: &R,
    kind: &str,
    size: u32,
) -> io::Result<()> {
    match kind {
        "layer" => proving::layer(rt, threads, size),
        "stages" => stages::layer(rt, size),
        "workers" => workers::layers(rt, threads, size),
        "kernels" => kernels::kernels(rt, size),
        "random" => checking::random(rt, size),
        "audit" => audits::random(rt, threads, size),
        _ => time_part(rt, threads, kind, size),
    }
}

/// Times what these words name.
fn run<R: Threads + Wait + Sync>(
    rt: &HostRuntime,
    threads: &R,
    words: &[String],
) -> io::Result<()> {
    if let [_, kind, size] = words {
        if let Ok(size) = size.as_str().parse::<u32>() {
            return time(rt, threads, kind.as_str(), size);
        }
    }
    println!(rt; "{}", USAGE)
}

fn main(rt: HostRuntime) -> io::Result<()> {
    let words: Vec<String> = env::args(&rt)?.collect(rt.alloc())?;
    run(&rt, &rt, &words)
}
