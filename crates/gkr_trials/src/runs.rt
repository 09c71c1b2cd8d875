//! Runs of the commands in memory.

use gkr_cmd::{Status, gkr_run};
use io_edge::{OpenGate, SteadySink, SteadySource};
use std::alloc::{AllocError, Global};
use std::marker::Sync;
use std::sync::Wait;
use std::thread::Threads;

/// The most bytes that a run here writes.
const CAPACITY: usize = 262_144;

/// How a run ended and what it wrote.
#[derive(Drop)]
pub struct Ran {
    pub status: Status,
    pub written: Vec<u8>,
}

/// Runs `gkr` with these words after its name on this input. Memory is the status where none is found.
pub fn run<R: Threads + Wait + Sync>(
    rt: &R,
    alloc: Global,
    words: &[&str],
    input: &[u8],
) -> Result<Ran, AllocError> {
    let mut owned = Vec::new(alloc);
    owned.push(String::from_str(alloc, "gkr")?)?;
    for word in words {
        owned.push(String::from_str(alloc, word)?)?;
    }
    let mut source = SteadySource::new(alloc, input, 4096)?;
    let mut sink = SteadySink::new(alloc, CAPACITY)?;
    let status = gkr_run(rt, alloc, &owned, &mut source, &mut sink, &OpenGate);
    if status == Status::Memory {
        return Err(AllocError);
    }
    Ok(Ran {
        status,
        written: Vec::from_slice(alloc, sink.bytes())?,
    })
}
