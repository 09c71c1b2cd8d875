//! Workers, provers and clients that pass gates: each piece is worked once, and some work beside each other.

use super::*;
use test_gates::{CountingGate, MeetingGate};

/// A case that sums the numbers below this one of a square.
fn sum_case(alloc: Global, side: u32) -> Result<Vec<u8>, AllocError> {
    let count = side.saturating_mul(side);
    let program = format!(in alloc; "input a[{}][{}]; output sum(a);", side, side)?;
    let mut text = Vec::new(alloc);
    let front = format!(in alloc;
        "gkr case 1\nprogram {}\n{}\ninput {}",
        program.len(),
        program,
        count
    )?;
    text.extend_from_slice(front.as_bytes())?;
    for value in 0..count {
        text.extend_from_slice(format!(in alloc; " {}", value)?.as_bytes())?;
    }
    text.extend_from_slice(b"\nend\n")?;
    Ok(text)
}

/// The rounds of layers 0 to 11 have 178 pieces, none of which has a number above 1. Those of layer 12 have 92: the tables of each
/// of its two phases have four parts in the first 11 rounds, and one in the last two.
#[test]
fn works_each_piece_once(rt: HostRuntime) -> Result<(), Fail> {
    let case = sum_case(rt.alloc(), 64)?;
    let gate = CountingGate::new(2);
    done(&rt, &["gkr", "prove"], &case, &gate)?;
    assert_eq!(rt; gate.entries(), 270);
    assert_eq!(rt; gate.first(), 181);
    assert_eq!(rt; gate.greatest(), 3);
    Ok(())
}

/// The text of a session of that case, whose 196 challenges are zero.
fn sum_session(alloc: Global) -> Result<Vec<u8>, AllocError> {
    let mut text = sum_case(alloc, 64)?;
    text.extend_from_slice(b"words 392")?;
    for _ in 0..392u32 {
        text.extend_from_slice(b" 0")?;
    }
    text.extend_from_slice(b"\ndone\n")?;
    Ok(text)
}

const SAID: &[u8] = b"session 196\nto prover 1569\nto verifier 5200\naccepted\n";

/// The prover sums each piece of each round: as many as where the case is proved.
#[test]
fn works_each_piece_of_a_session_once(rt: HostRuntime) -> Result<(), Fail> {
    let text = sum_session(rt.alloc())?;
    let gate = CountingGate::new(2);
    let said = done(&rt, &["gkr", "session", "--piece", "100"], &text, &gate)?;
    assert_eq!(rt; said.as_slice(), SAID);
    assert_eq!(rt; gate.entries(), 270);
    Ok(())
}

#[test]
fn works_a_session_beside_each_other(rt: HostRuntime) -> Result<(), Fail> {
    let text = sum_session(rt.alloc())?;
    let gate = MeetingGate::new(2);
    let words = ["gkr", "session", "--piece", "65536", "--workers", "2"];
    let said = done(&rt, &words, &text, &gate)?;
    assert_eq!(rt; said.as_slice(), SAID);
    assert!(rt; !gate.is_raised());
    Ok(())
}

/// The first piece with a number above 1 is one of layer 12's first round, which two workers share: whoever has piece 2 or 3 first is held
/// until the other has the next one. The proof is that of one worker.
#[test]
fn proves_beside_each_other(rt: HostRuntime) -> Result<(), Fail> {
    let case = sum_case(rt.alloc(), 64)?;
    let gate = MeetingGate::new(2);
    let beside = done(&rt, &["gkr", "prove", "--workers", "2"], &case, &gate)?;
    assert!(rt; gate.entries() >= 2);
    assert!(rt; !gate.is_raised());
    let alone = done(&rt, &["gkr", "prove"], &case, &OpenGate)?;
    assert!(rt; beside.as_slice() == alone.as_slice());
    Ok(())
}

/// The products of two matrices of 16 rows and columns, 4,096 of them, are a layer whose rounds have four pieces too.
#[test]
fn demonstrates_beside_each_other(rt: HostRuntime) -> Result<(), Fail> {
    let gate = MeetingGate::new(2);
    let beside = done(&rt, &["gkr", "demo", "14", "--workers", "2"], b"", &gate)?;
    assert!(rt; gate.entries() >= 2);
    assert!(rt; !gate.is_raised());
    let alone = done(&rt, &["gkr", "demo", "14"], b"", &OpenGate)?;
    assert_eq!(rt; beside.as_slice(), alone.as_slice());
    Ok(())
}

/// A script of two jobs of two clients.
const TWO_JOBS: &[u8] = b"client 1\ngkr case 1\nprogram 18\ninput a; output a;\ninput 1 0\nend\n\
client 2\ngkr case 1\nprogram 18\ninput a; output a;\ninput 1 0\nend\ndone\n";

/// Two clients are at work at one time, and the replies are those of one.
#[test]
fn serves_two_beside_each_other(rt: HostRuntime) -> Result<(), Fail> {
    let alone = done(&rt, &["gkr", "serve"], TWO_JOBS, &OpenGate)?;
    assert!(rt; alone.ends_with(b"\njobs 2 proved 2 refused 0\n"));
    let gate = MeetingGate::new(0);
    let words = ["gkr", "serve", "--clients", "2"];
    let beside = done(&rt, &words, TWO_JOBS, &gate)?;
    assert_eq!(rt; beside.as_slice(), alone.as_slice());
    assert!(rt; gate.entries() >= 2);
    assert!(rt; !gate.is_raised());
    Ok(())
}

/// The same with a history, which has both jobs.
#[test]
fn tells_of_two_beside_each_other(rt: HostRuntime) -> Result<(), Fail> {
    let alone = done(&rt, &["gkr", "serve"], TWO_JOBS, &OpenGate)?;
    let replies = alone.get(..alone.len().saturating_sub(1)).unwrap_or(b"");
    let gate = MeetingGate::new(0);
    let words = ["gkr", "serve", "--history", "--clients", "2"];
    let told = done(&rt, &words, TWO_JOBS, &gate)?;
    assert!(rt; told.starts_with(replies));
    let rest = told.get(replies.len()..).unwrap_or(b"");
    assert!(rt; rest.starts_with(b" withdrawn 0\nhistory 6\nsubmit 0 "));
    assert!(rt; gate.entries() >= 2);
    assert!(rt; !gate.is_raised());
    Ok(())
}
