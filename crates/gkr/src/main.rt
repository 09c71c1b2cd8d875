//! Runs a command over the standard streams.
#![tactic(auto)]

#[cfg(test)]
mod tests;

use gkr_cmd::{NoWords, run_program};
use io_edge::{OpenGate, StdSink, StdSource};
use std::process::ExitCode;
use std::{env, io};

/// The words of the command line.
fn words_of(rt: &HostRuntime) -> Result<Vec<String>, NoWords> {
    let words = env::args(rt).map_err(kept_away)?;
    words.collect(rt.alloc()).map_err(|_| NoWords::Memory)
}

fn kept_away(error: io::Error) -> NoWords {
    if error.kind() == io::ErrorKind::OutOfMemory {
        NoWords::Memory
    } else {
        NoWords::Unreadable
    }
}

fn main(rt: HostRuntime) -> ExitCode {
    let mut source = StdSource::new(rt.reader());
    let mut sink = StdSink::new(io::writer(&rt));
    run_program(
        &rt,
        rt.alloc(),
        words_of(&rt),
        &mut source,
        &mut sink,
        &OpenGate,
    )
}
