//! Checks what must hold of many cases, each made from a number: `gkr_trials FIRST COUNT`.
//!
//! For each number from FIRST on a small program with its inputs is made, by a generator that starts from the number, and goes
//! through the commands `eval`, `prove` and `verify` in memory, as `gkr` runs them. What must hold:
//!
//! - `eval` and `prove` refuse the same cases in the same words, and give the same outputs;
//! - what `prove` wrote is the case with outputs and a proof, it is read and written again as it is, two workers write the
//!   same, and `verify` accepts it, also where it is a proof by pairs;
//! - with one byte changed it is refused, or rejected, or its outputs are still the program's meaning on its inputs.
//!
//! Each number at which something doesn't hold is reported. The last line counts how the cases went.
#![tactic(auto)]

mod counts;
mod programs;
mod runs;
mod trial;

use counts::Counts;
use std::marker::Sync;
use std::process::ExitCode;
use std::sync::Wait;
use std::thread::Threads;
use std::{env, io};
use trial::{Outcome, trial};

const USAGE: &str = "gkr_trials FIRST COUNT";

/// The two numbers among the words.
fn numbers_of(words: &[String]) -> Option<(u64, u64)> {
    match words {
        [_, first, count] => {
            let first = first.as_str().parse::<u64>().ok()?;
            let count = count.as_str().parse::<u64>().ok()?;
            Some((first, count))
        }
        _ => None,
    }
}

fn try_all<R: Threads + Wait + Sync>(
    rt: &HostRuntime,
    threads: &R,
    first: u64,
    count: u64,
) -> io::Result<Counts> {
    let mut counts = Counts::new();
    for step in 0..count {
        let number = first.wrapping_add(step);
        let outcome = trial(threads, rt.alloc(), number)?;
        if let Outcome::Broken(law) = outcome {
            println!(rt; "{}: {}", number, law)?;
        }
        counts.add(outcome);
    }
    Ok(counts)
}

fn main(rt: HostRuntime) -> io::Result<ExitCode> {
    let alloc = rt.alloc();
    let words: Vec<String> = env::args(&rt)?.collect(alloc)?;
    let Some((first, count)) = numbers_of(&words) else {
        println!(&rt; "{}", USAGE)?;
        return Ok(ExitCode::from(2));
    };
    let counts = try_all(&rt, &rt, first, count)?;
    println!(&rt;
        "refused {} accepted {} (then spoiled: refused {} rejected {} harmless {}) broken {}",
        counts.refused,
        counts.accepted(),
        counts.spoiled_refused,
        counts.spoiled_rejected,
        counts.harmless,
        counts.broken
    )?;
    Ok(ExitCode::from(if counts.broken == 0 { 0 } else { 1 }))
}
