//! The whole program over ends in memory that fail or are slow, and by workers that pass gates. What it answers otherwise is in
//! the tables of `tests/`, on which `scripts/check-program` runs the built program.

ghost use Rattle.std.specs.Prelude.{◌<◌};

mod failures;
mod gates;

use gkr_cmd::{Status, gkr_run};
use io_edge::{Gate, MemorySink, MemorySource, OpenGate};
use std::alloc::{AllocError, Global};
use std::marker::Sync;
use std::process::Abort;
use std::sync::Wait;
use std::test::Fail;
use std::thread::Threads;

/// An input in memory, how many bytes a read of it gives, and which reads and writes fail.
#[derive(Clone, Copy)]
struct Ends<'a> {
    input: &'a [u8],
    piece: usize,
    failing_reads: &'a [u64],
    failing_writes: &'a [u64],
    ghost some: { 0 < piece },
}

/// How many bytes a sink in memory holds, and takes a write.
#[derive(Clone, Copy)]
struct Capacity {
    most: usize,
    piece: usize,
    ghost some: { 0 < piece },
}

/// The words of a command line.
fn owned_words(alloc: Global, words: &[&str]) -> Result<Vec<String>, AllocError> {
    let mut owned = Vec::new(alloc);
    for word in words {
        owned.push(String::from_str(alloc, word)?)?;
    }
    Ok(owned)
}

/// Runs the program with these words, where the workers pass this gate; answers how it ended and what it wrote.
fn ended_by<R: Threads + Wait + Sync + Abort + AllocGlobal, G: Gate>(
    rt: &R,
    words: &[&str],
    ends: &Ends,
    capacity: Capacity,
    gate: &G,
) -> Result<(Status, Vec<u8>), Fail> {
    let alloc = rt.alloc();
    let owned = owned_words(alloc, words)?;
    let mut source = MemorySource::new(alloc, ends.input, ends.piece, ends.failing_reads)?;
    let mut sink = MemorySink::new(alloc, capacity.most, capacity.piece, ends.failing_writes)?;
    let status = gkr_run(rt, alloc, &owned, &mut source, &mut sink, gate);
    Ok((status, Vec::from_slice(alloc, sink.bytes())?))
}

/// Runs the program with these words into a sink that takes at most 5 bytes a write, and sees how it ends and what it
/// writes.
fn sees<R: Threads + Wait + Sync + Abort + AllocGlobal>(
    rt: &R,
    words: &[&str],
    ends: &Ends,
    status: Status,
    reply: &[u8],
) -> Result<(), Fail> {
    let capacity = Capacity {
        most: 4096,
        piece: 5,
    };
    let (found, written) = ended_by(rt, words, ends, capacity, &OpenGate)?;
    assert_eq!(rt; found, status);
    assert_eq!(rt; written.as_slice(), reply);
    Ok(())
}

/// Runs the program over an input that is read whole, and sees that it does what it was asked for; answers what it wrote.
fn done<R: Threads + Wait + Sync + Abort + AllocGlobal, G: Gate>(
    rt: &R,
    words: &[&str],
    input: &[u8],
    gate: &G,
) -> Result<Vec<u8>, Fail> {
    let ends = Ends {
        input,
        piece: 4096,
        failing_reads: &[],
        failing_writes: &[],
    };
    let capacity = Capacity {
        most: 262_144,
        piece: 4096,
    };
    let (status, text) = ended_by(rt, words, &ends, capacity, gate)?;
    assert_eq!(rt; status, Status::Done);
    Ok(text)
}
