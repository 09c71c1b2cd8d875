//! Ends that fail, and ends that never do.

use super::*;
use io_edge::{SteadySink, SteadySource};

/// A case of 55 bytes, whose one input is at byte 49.
const COPIES: &[u8; 55] = b"gkr case 1\nprogram 18\ninput a; output a;\ninput 1 5\nend\n";

/// Runs the program over ends that never fail; the sink has a buffer of so many bytes.
fn sees_steadily<R: Threads + Wait + Sync + Abort + AllocGlobal>(
    rt: &R,
    words: &[&str],
    input: &[u8],
    capacity: usize,
    status: Status,
    reply: &[u8],
) -> Result<(), Fail> {
    let alloc = rt.alloc();
    let owned = owned_words(alloc, words)?;
    let mut source = SteadySource::new(alloc, input, 16)?;
    let mut sink = SteadySink::new(alloc, capacity)?;
    let found = gkr_run(rt, alloc, &owned, &mut source, &mut sink, &OpenGate);
    assert_eq!(rt; found, status);
    assert_eq!(rt; sink.is_known(), reply.len() <= capacity);
    if sink.is_known() {
        assert_eq!(rt; sink.bytes(), reply);
    }
    Ok(())
}

/// A full sink of this kind goes on taking bytes, of which nothing is known then; so no run over it ends as one that fails. The name
/// of the program is no word of a command, and none at all is refused.
#[test]
fn answers_over_steady_ends(rt: HostRuntime) -> Result<(), Fail> {
    let rest = b"gkr case 1\nprogram 18\ninput a; output a;\ninput 1 5\nend\n!";
    for (words, input, status, reply) in [
        (&[][..], &COPIES[..], Status::Usage, &b"refused usage\n"[..]),
        (&["gkr"], &COPIES[..], Status::Usage, b"refused usage\n"),
        (
            &["gkr", "prove", "--workers", "0"],
            &COPIES[..],
            Status::Usage,
            b"refused usage\n",
        ),
        (
            &["gkr", "eval"],
            &rest[..],
            Status::BadCase,
            b"refused case rest 55\n",
        ),
        (
            &["gkr", "eval"],
            &COPIES[..54],
            Status::BadCase,
            b"refused case end 54\n",
        ),
        (
            &["gkr", "eval"],
            b"",
            Status::BadCase,
            b"refused case end 0\n",
        ),
        (&["gkr", "eval"], &COPIES[..], Status::Done, b"output 1 5\n"),
        (&["", "eval"], &COPIES[..], Status::Done, b"output 1 5\n"),
        (
            &["gkr", "serve"],
            b"done\n",
            Status::Done,
            b"jobs 0 proved 0 refused 0\n",
        ),
    ] {
        for capacity in [64, 5] {
            sees_steadily(&rt, words, input, capacity, status, reply)?;
        }
    }
    Ok(())
}

/// Sees how a command ends, and what it writes, where this read of 16 bytes fails.
fn sees_read<R: Threads + Wait + Sync + Abort + AllocGlobal>(
    rt: &R,
    words: &[&str],
    input: &[u8],
    read: u64,
    status: Status,
    reply: &[u8],
) -> Result<(), Fail> {
    let ends = Ends {
        input,
        piece: 16,
        failing_reads: &[read],
        failing_writes: &[],
    };
    sees(rt, words, &ends, status, reply)
}

/// The same where this write of 5 bytes fails.
fn sees_write<R: Threads + Wait + Sync + Abort + AllocGlobal>(
    rt: &R,
    words: &[&str],
    input: &[u8],
    write: u64,
    status: Status,
    reply: &[u8],
) -> Result<(), Fail> {
    let ends = Ends {
        input,
        piece: 16,
        failing_reads: &[],
        failing_writes: &[write],
    };
    sees(rt, words, &ends, status, reply)
}

/// A case of 68 bytes, which takes six reads of 16 bytes, and whose reply of 12 bytes takes three writes of 5.
const PRODUCT: &[u8; 68] =
    b"gkr case 1\nprogram 29\ninput a; input b; output a*b;\ninput 2 3 4\nend\n";

#[test]
fn tells_failures_of_source_and_sink(rt: HostRuntime) -> Result<(), Fail> {
    let words = ["gkr", "eval"];
    for read in 1..7u64 {
        sees_read(&rt, &words, PRODUCT, read, Status::ReadFault, b"")?;
    }
    sees_read(&rt, &words, PRODUCT, 7, Status::Done, b"output 1 12\n")?;
    for (write, status, written) in [
        (1u64, Status::WriteFault, &b""[..]),
        (2, Status::WriteFault, &b"outpu"[..]),
        (3, Status::WriteFault, &b"output 1 1"[..]),
        (4, Status::Done, &b"output 1 12\n"[..]),
    ] {
        sees_write(&rt, &words, PRODUCT, write, status, written)?;
    }
    Ok(())
}

/// A case whose input and output are 0, with its proof of 68 bytes: but for the magic zeros.
const PROVED: &[u8] =
    b"gkr case 1\nprogram 18\ninput a; output a;\ninput 1 0\noutput 1 0\nproof 68\n474b5231\
00000000000000000000000000000000000000000000000000000000000000000000000000000000\
000000000000000000000000000000000000000000000000\nend\n";

#[test]
fn tells_failures_of_an_audit(rt: HostRuntime) -> Result<(), Fail> {
    let words = ["gkr", "audit"];
    sees_read(&rt, &words, PROVED, 1, Status::ReadFault, b"")?;
    let reply = b"accepted\nmeaning same\nmessage none\nchallenge none\n";
    sees_read(&rt, &words, PROVED, 16, Status::Done, reply)?;
    sees_write(&rt, &words, PROVED, 3, Status::WriteFault, b"accepted\nm")
}

/// A script of one job.
const ONE_JOB: &[u8] =
    b"client 1\ngkr case 1\nprogram 18\ninput a; output a;\ninput 1 0\nend\ndone\n";

#[test]
fn tells_failures_of_a_history(rt: HostRuntime) -> Result<(), Fail> {
    let words = ["gkr", "serve", "--history"];
    sees_read(&rt, &words, ONE_JOB, 2, Status::ReadFault, b"")?;
    sees_write(&rt, &words, ONE_JOB, 3, Status::WriteFault, b"client 1\ng")
}

/// A case of 55 bytes, `words 8 2 0 3 0 4 0 6 0` and `done`: 84 bytes.
const COPY: &[u8; 84] =
    b"gkr case 1\nprogram 18\ninput a; output a;\ninput 1 5\nend\nwords 8 2 0 3 0 4 0 6 0\ndone\n";

/// What is said of it: four challenges of 8 bytes and one byte more, and eight elements of 8 bytes.
const ENDED: &[u8] = b"session 4\nto prover 33\nto verifier 64\naccepted\n";

/// The 84 bytes take six reads of 16 bytes and one that finds the end, and the 47 bytes of the reply ten writes of 5.
#[test]
fn tells_failures_of_a_session(rt: HostRuntime) -> Result<(), Fail> {
    let words = ["gkr", "session", "--piece", "8"];
    for read in 1..8u64 {
        sees_read(&rt, &words, COPY, read, Status::ReadFault, b"")?;
    }
    sees_read(&rt, &words, COPY, 8, Status::Done, ENDED)?;
    sees_write(&rt, &words, COPY, 2, Status::WriteFault, b"sessi")
}

/// It reads nothing, so a source that fails changes nothing.
#[test]
fn reads_nothing_for_the_generated_case(rt: HostRuntime) -> Result<(), Fail> {
    let words = ["gkr", "demo", "1"];
    let want = done(&rt, &words, b"", &OpenGate)?;
    sees_read(&rt, &words, b"x", 1, Status::Done, &want)
}

/// A case of 95 bytes, whose circuit has the greatest height of language 1.
const TALL: &[u8] = b"gkr case 1\nprogram 58\n\
input a; let s = a; for i in 0..255 { s = s+a; } output s;\ninput 1 1\nend\n";

/// The reply of 3,539 bytes takes 708 writes of 5.
#[test]
fn writes_a_long_reply_in_small_pieces(rt: HostRuntime) -> Result<(), Fail> {
    let alloc = rt.alloc();
    let mut reply = Vec::from_slice(alloc, b"circuit 256\nlayer 0 2 0\nlayer 1 2 0\n")?;
    for layer in 2..256u32 {
        reply.extend_from_slice(format!(in alloc; "layer {} 4 0\n", layer)?.as_bytes())?;
    }
    reply.extend_from_slice(b"layer 256 2 0\nproof 30612\nchallenges 1277\nbound 2551\n")?;
    let ends = Ends {
        input: TALL,
        piece: 16,
        failing_reads: &[],
        failing_writes: &[],
    };
    sees(&rt, &["gkr", "circuit"], &ends, Status::Done, &reply)
}
