//! Sources and sinks over std and in memory, with calls that fail.

use io_edge::{
    Failed, Gate, MemorySink, MemorySource, OpenGate, Sink, Source, StdSink, StdSource, SteadySink,
    SteadySource,
};
use std::io;
use std::io::{Read, Write};
use std::process::Abort;
use std::test::Fail;

/// Reads in memory, at most three bytes a call. The second call fails.
#[derive(Drop)]
struct Halting<'a> {
    left: &'a [u8],
    calls: u8,
}

impl Read for Halting<'_> {
    fn read(&mut self, buffer: &mut [u8]) -> io::Result<usize> {
        self.calls = self.calls.saturating_add(1);
        if self.calls == 2 {
            return Err(io::Error::from(io::ErrorKind::WouldBlock));
        }
        let most = buffer.len().min(3);
        self.left.read(&mut buffer[..most])
    }
}

/// Writes into a list that is lent, at most three bytes a call. The second call fails, and the third takes nothing.
#[derive(Drop)]
struct Filling<'a> {
    held: &'a mut Vec<u8>,
    calls: u8,
}

impl Write for Filling<'_> {
    fn write(&mut self, piece: &[u8]) -> io::Result<usize> {
        self.calls = self.calls.saturating_add(1);
        if self.calls == 2 {
            return Err(io::Error::from(io::ErrorKind::WouldBlock));
        }
        let most = if self.calls == 3 {
            0
        } else {
            piece.len().min(3)
        };
        self.held.write(&piece[..most])
    }

    fn flush(&mut self) -> io::Result<()> {
        Ok(())
    }
}

/// Sees what a read into four dots gives, and the four bytes after it.
fn reads_into_dots<R: Abort, S: Source>(
    rt: &R,
    source: &mut S,
    want: Result<usize, Failed>,
    bytes: &[u8; 4],
) {
    let mut buffer = *b"....";
    assert_eq!(rt; source.read(&mut buffer), want);
    assert_eq!(rt; &buffer, bytes);
}

#[test]
fn reads_through_std(rt: HostRuntime) {
    let mut source = StdSource::new(Halting {
        left: b"abcd",
        calls: 0,
    });
    reads_into_dots(&rt, &mut source, Ok(3), b"abc.");
    reads_into_dots(&rt, &mut source, Err(Failed), b"....");
    reads_into_dots(&rt, &mut source, Ok(1), b"d...");
    reads_into_dots(&rt, &mut source, Ok(0), b"....");
}

/// Sees the bytes `abcd`.
fn has_arrived<R: Abort>(rt: &R, bytes: &[u8]) {
    assert_eq!(rt; bytes, b"abcd".as_slice());
}

/// Sees how many bytes of a piece a sink takes.
fn writes<R: Abort, S: Sink>(rt: &R, sink: &mut S, piece: &str, want: Result<usize, Failed>) {
    assert_eq!(rt; sink.write(piece.as_bytes()), want);
}

/// Sees what a sink over std takes of pieces where its second call fails, and its third takes nothing.
fn writes_around_a_fault<R: Abort, S: Sink>(rt: &R, sink: &mut S) {
    writes(rt, sink, "abcd", Ok(3));
    writes(rt, sink, "d", Err(Failed));
    writes(rt, sink, "d", Err(Failed));
    writes(rt, sink, "", Ok(0));
    writes(rt, sink, "d", Ok(1));
}

#[test]
fn writes_through_std(rt: HostRuntime) {
    let mut arrived = Vec::new(rt.alloc());
    let mut sink = StdSink::new(Filling {
        held: &mut arrived,
        calls: 0,
    });
    writes_around_a_fault(&rt, &mut sink);
    drop(sink);
    has_arrived(&rt, &arrived);
}

/// Sees what a read into three bytes gives.
fn reads<R: Abort, S: Source>(rt: &R, source: &mut S, want: Result<usize, Failed>) {
    let mut buffer = [0; 3];
    assert_eq!(rt; source.read(&mut buffer), want);
}

#[test]
fn reads_in_memory(rt: HostRuntime) -> Result<(), Fail> {
    let mut source = MemorySource::new(rt.alloc(), b"abcde", 2, &[2])?;
    reads(&rt, &mut source, Ok(2));
    reads(&rt, &mut source, Err(Failed));
    reads(&rt, &mut source, Ok(2));
    reads(&rt, &mut source, Ok(1));
    reads(&rt, &mut source, Ok(0));
    Ok(())
}

#[test]
fn reads_in_memory_without_faults(rt: HostRuntime) -> Result<(), Fail> {
    let mut source = SteadySource::new(rt.alloc(), b"abcde", 2)?;
    reads(&rt, &mut source, Ok(2));
    reads(&rt, &mut source, Ok(2));
    reads(&rt, &mut source, Ok(1));
    reads(&rt, &mut source, Ok(0));
    reads(&rt, &mut source, Ok(0));
    Ok(())
}

/// Sees what a sink takes of `abcd` and of pieces after it, where its second call fails and its capacity is four bytes.
fn fills<R: Abort>(rt: &R, sink: &mut MemorySink) {
    writes(rt, sink, "abcd", Ok(3));
    writes(rt, sink, "d", Err(Failed));
    writes(rt, sink, "de", Ok(1));
    writes(rt, sink, "e", Err(Failed));
    has_arrived(rt, sink.bytes());
}

#[test]
fn writes_in_memory(rt: HostRuntime) -> Result<(), Fail> {
    let mut sink = MemorySink::new(rt.alloc(), 4, 3, &[2])?;
    fills(&rt, &mut sink);
    Ok(())
}

/// Sees that a sink takes the whole of a piece, and whether all that was written is known after it.
fn takes<R: Abort>(rt: &R, sink: &mut SteadySink, piece: &str, known: bool) {
    writes(rt, sink, piece, Ok(piece.len()));
    assert_eq!(rt; sink.is_known(), known);
}

/// Sees that a sink of which four bytes are known takes `abcd` and pieces after it.
fn takes_past_its_capacity<R: Abort>(rt: &R, sink: &mut SteadySink) {
    takes(rt, sink, "abcd", true);
    takes(rt, sink, "d", false);
    takes(rt, sink, "de", false);
    takes(rt, sink, "e", false);
    has_arrived(rt, sink.bytes());
}

#[test]
fn writes_in_memory_without_faults(rt: HostRuntime) -> Result<(), Fail> {
    let mut sink = SteadySink::new(rt.alloc(), 4)?;
    takes_past_its_capacity(&rt, &mut sink);
    Ok(())
}

#[test]
fn enters_an_open_gate() {
    OpenGate.enter(0, 0);
}
