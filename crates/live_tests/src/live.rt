//! Live sessions of the circuit that copies, by hand.

ghost use Rattle.std.specs.Prelude.{◌<◌};

use circuit_core::Circuit;
use circuit_eval::layer_values;
use field_ext::{Ext, Fp};
use gkr_verify::{Verdict, challenge_count};
use io_edge::OpenGate;
use live_session::{LiveFault, LiveProver, LiveVerifier, Progress, ProverStop};
use std::marker::Sync;
use std::process::Abort;
use std::test::Fail;
use std::thread::Threads;
use test_circuits::{copy, number, numbers};

const COPIED: [i32; 8] = [0, -5, 15, 120, -80, -40, 15, 5];

const WORDS: [i32; 4] = [2, 3, 4, 6];

/// The bytes of the elements of these numbers.
fn spelled<R: AllocGlobal>(rt: &R, ns: &[i32]) -> Result<Vec<u8>, Fail> {
    let mut bytes = Vec::new(rt.alloc());
    for n in ns {
        bytes.extend_from_slice(&number(*n).to_bytes())?;
    }
    Ok(bytes)
}

/// What a verifier of one output answers to bytes in pieces, to the last of them, and how much it has sent then.
fn answered<R: Abort + AllocGlobal>(
    rt: &R,
    circuit: &Circuit,
    output: u64,
    bytes: &[u8],
    piece: usize,
) -> Result<(Result<Progress, LiveFault>, usize), Fail> {
    let inputs = [Fp::reduce(5)];
    let outputs = [Fp::reduce(output)];
    let words = numbers(rt.alloc(), &WORDS)?;
    assert!(rt; circuit.inputs() == 1);
    assert!(rt; circuit.outputs() == 1);
    assert!(rt; words.len() == challenge_count(circuit));
    assert!(rt; 0 < piece);
    let mut verifier = LiveVerifier::start(rt.alloc(), circuit, &inputs, &outputs, &words)?;
    let mut answer = verifier.feed(&[]);
    for part in bytes.chunks(piece) {
        answer = verifier.feed(part);
    }
    let sent = verifier.sent().len();
    Ok((answer, sent))
}

/// The prover after these bytes, in pieces.
fn fed<'a, R: AllocGlobal + Threads + Sync>(
    rt: &R,
    prover: LiveProver<'a>,
    bytes: &[u8],
    piece: usize,
) -> Result<LiveProver<'a>, ProverStop>
    requires { 0 < piece }
{
    let mut prover = prover;
    for part in bytes.chunks(piece) {
        prover = prover.feed(rt, rt.alloc(), part, 1, &OpenGate)?;
    }
    Ok(prover)
}

/// What a prover has sent, and its verdict.
type Sent = (Vec<u8>, Option<bool>);

/// A prover of the copied 5 that was fed these bytes in pieces: what it has sent, and its verdict, or why it stopped.
fn proved<R: Abort + AllocGlobal + Threads + Sync>(
    rt: &R,
    circuit: &Circuit,
    bytes: &[u8],
    piece: usize,
) -> Result<Result<Sent, ProverStop>, Fail> {
    let inputs = [Fp::reduce(5)];
    assert!(rt; circuit.inputs() == 1);
    assert!(rt; 0 < piece);
    let values = layer_values(rt, rt.alloc(), circuit, &inputs)?;
    let prover = LiveProver::start(rt.alloc(), circuit, &values)?;
    let begun = match prover.feed(rt, rt.alloc(), &[], 1, &OpenGate) {
        Ok(next) => next,
        Err(stop) => return Ok(Err(stop)),
    };
    match fed(rt, begun, bytes, piece) {
        Ok(last) => {
            let sent = Vec::from_slice(rt.alloc(), last.sent())?;
            Ok(Ok((sent, last.verdict())))
        }
        Err(stop) => Ok(Err(stop)),
    }
}

/// What a verifier answers to bytes in pieces, to the last of them, and how much it has sent then.
type Answer = (Result<Progress, LiveFault>, usize);

/// Sees what a verifier of one output answers.
fn answers<R: Abort + AllocGlobal>(
    rt: &R,
    circuit: &Circuit,
    output: u64,
    bytes: &[u8],
    piece: usize,
    want: &Answer,
) -> Result<(), Fail> {
    assert_eq!(rt; answered(rt, circuit, output, bytes, piece)?, *want);
    Ok(())
}

/// Sees what a prover of the copied 5 sends, and its verdict.
fn sends<R: Abort + AllocGlobal + Threads + Sync>(
    rt: &R,
    circuit: &Circuit,
    bytes: &[u8],
    piece: usize,
    want: &[u8],
    told: Option<bool>,
) -> Result<(), Fail> {
    let Ok((sent, verdict)) = proved(rt, circuit, bytes, piece)? else {
        return Err(Fail::new("a stop"));
    };
    assert_eq!(rt; sent.as_slice(), want);
    assert_eq!(rt; verdict, told);
    Ok(())
}

/// Sees why a prover of the copied 5 stops.
fn stops<R: Abort + AllocGlobal + Threads + Sync>(
    rt: &R,
    circuit: &Circuit,
    bytes: &[u8],
    piece: usize,
    want: ProverStop,
) -> Result<(), Fail> {
    match proved(rt, circuit, bytes, piece)? {
        Ok(_) => Err(Fail::new("no stop")),
        Err(stop) => {
            assert_eq!(rt; stop, want);
            Ok(())
        }
    }
}

/// Sees what a verifier of one output answers, for bytes in pieces of any size.
fn answers_in_pieces<R: Abort + AllocGlobal>(
    rt: &R,
    circuit: &Circuit,
    output: u64,
    bytes: &[u8],
    want: &Answer,
) -> Result<(), Fail> {
    for piece in [1, 2, 7, 8, 9, 63, 65536] {
        answers(rt, circuit, output, bytes, piece, want)?;
    }
    Ok(())
}

/// Sees that outputs of 5 are accepted and outputs of 6 aren't.
fn accepts_five_alone<R: Abort + AllocGlobal>(rt: &R, circuit: &Circuit) -> Result<(), Fail> {
    let messages = spelled(rt, &COPIED)?;
    let end = Verdict::Sum {
        layer: 0,
        round: 1,
        had: number(10),
        claim: number(12),
    };
    let accepted = (Ok(Progress::Ended(Verdict::Accepted)), 33);
    let rejected = (Ok(Progress::Ended(end)), 33);
    answers_in_pieces(rt, circuit, 5, &messages, &accepted)?;
    answers_in_pieces(rt, circuit, 6, &messages, &rejected)
}

#[test]
fn answers_alike_for_any_pieces(rt: HostRuntime) -> Result<(), Fail> {
    let Ok(circuit) = copy(rt.alloc()) else {
        return Err(Fail::new("no circuit"));
    };
    accepts_five_alone(&rt, &circuit)
}

/// Sees that a prover that is told of acceptance sends the messages, for words in pieces of any size.
fn sends_in_pieces<R: Abort + AllocGlobal + Threads + Sync>(
    rt: &R,
    circuit: &Circuit,
) -> Result<(), Fail> {
    let messages = spelled(rt, &COPIED)?;
    let mut words = spelled(rt, &WORDS)?;
    words.push(1)?;
    for piece in [1, 2, 7, 8, 9, 63, 65536] {
        sends(rt, circuit, &words, piece, &messages, Some(true))?;
    }
    Ok(())
}

#[test]
fn sends_alike_for_any_pieces(rt: HostRuntime) -> Result<(), Fail> {
    let Ok(circuit) = copy(rt.alloc()) else {
        return Err(Fail::new("no circuit"));
    };
    sends_in_pieces(&rt, &circuit)
}

/// Each challenge is due once the message before it is there: the verifier has sent 8 bytes at its start, and 8 more after each
/// message of 24, 24 and 16 bytes.
fn sends_words_that_are_due<R: Abort + AllocGlobal>(rt: &R, circuit: &Circuit) -> Result<(), Fail> {
    let messages = spelled(rt, &COPIED)?;
    assert!(rt; messages.len() == 64);
    for (fed, sent) in [(0, 8), (23, 8), (24, 16), (47, 16), (48, 24), (63, 24)] {
        assert!(rt; fed <= messages.len());
        let waiting = (Ok(Progress::Waiting), sent);
        answers(rt, circuit, 5, &messages[..fed], 65536, &waiting)?;
    }
    let accepted = (Ok(Progress::Ended(Verdict::Accepted)), 33);
    answers(rt, circuit, 5, &messages, 65536, &accepted)
}

#[test]
fn sends_the_words_that_are_due(rt: HostRuntime) -> Result<(), Fail> {
    let Ok(circuit) = copy(rt.alloc()) else {
        return Err(Fail::new("no circuit"));
    };
    sends_words_that_are_due(&rt, &circuit)
}

/// Each message is due once all challenges before it are there.
fn sends_messages_that_are_due<R: Abort + AllocGlobal + Threads + Sync>(
    rt: &R,
    circuit: &Circuit,
) -> Result<(), Fail> {
    let messages = spelled(rt, &COPIED)?;
    let mut words = spelled(rt, &WORDS)?;
    words.push(0)?;
    assert!(rt; words.len() == 33 && messages.len() == 64);
    for (fed, sent, told) in [
        (0, 0, None),
        (7, 0, None),
        (8, 24, None),
        (16, 48, None),
        (24, 64, None),
        (32, 64, None),
        (33, 64, Some(false)),
    ] {
        assert!(rt; fed <= words.len() && sent <= messages.len());
        sends(rt, circuit, &words[..fed], 65536, &messages[..sent], told)?;
    }
    Ok(())
}

#[test]
fn sends_the_messages_that_are_due(rt: HostRuntime) -> Result<(), Fail> {
    let Ok(circuit) = copy(rt.alloc()) else {
        return Err(Fail::new("no circuit"));
    };
    sends_messages_that_are_due(&rt, &circuit)
}

/// The elements of these bytes, of which one half is the prime.
fn out_of_range<R: Abort + AllocGlobal>(
    rt: &R,
    count: usize,
    half: usize,
) -> Result<Vec<u8>, Fail> {
    let of_prime = [255, 255, 255, 127];
    let mut bytes = Vec::new(rt.alloc());
    for i in 0..count {
        let is_there = half / 2 == i;
        bytes.extend_from_slice(if is_there && half % 2 == 0 {
            &of_prime
        } else {
            &[0; 4]
        })?;
        bytes.extend_from_slice(if is_there && half % 2 == 1 {
            &of_prime
        } else {
            &[0; 4]
        })?;
    }
    Ok(bytes)
}

/// Sees that a verifier names the half that is the prime, for pieces of any size and with a byte after the messages. Nothing is
/// sent after the fault: 8 bytes at the start, and 8 more after each message of three elements.
fn names_the_half<R: Abort + AllocGlobal>(
    rt: &R,
    circuit: &Circuit,
    half: usize,
) -> Result<(), Fail>
    requires { half < 16 }
{
    let mut bytes = out_of_range(rt, 8, half)?;
    let at = half / 2 * 8;
    let range = (Err(LiveFault::Range { at }), 8 + half / 6 * 8);
    for piece in [1, 9, 65536] {
        answers(rt, circuit, 5, &bytes, piece, &range)?;
    }
    bytes.push(0)?;
    answers(rt, circuit, 5, &bytes, 65536, &range)
}

/// Sees so for each half of the eight elements.
fn names_the_halves<R: Abort + AllocGlobal>(rt: &R, circuit: &Circuit) -> Result<(), Fail> {
    for half in 0..16 {
        names_the_half(rt, circuit, half)?;
    }
    Ok(())
}

#[test]
fn names_each_half_out_of_range(rt: HostRuntime) -> Result<(), Fail> {
    let Ok(circuit) = copy(rt.alloc()) else {
        return Err(Fail::new("no circuit"));
    };
    names_the_halves(&rt, &circuit)
}

/// Sees that the first of several faults is told: an element out of range, or bytes after the last message.
fn tells_faults_in_order<R: Abort + AllocGlobal>(rt: &R, circuit: &Circuit) -> Result<(), Fail> {
    let first = [255, 255, 255, 127, 0, 0, 0, 0];
    let range = (Err(LiveFault::Range { at: 0 }), 8);
    answers_in_pieces(rt, circuit, 5, &first, &range)?;
    let mut messages = spelled(rt, &COPIED)?;
    messages.extend_from_slice(&[0, 0])?;
    let extra = (Err(LiveFault::Extra { at: 64 }), 33);
    answers(rt, circuit, 5, &messages, 1, &extra)?;
    answers(rt, circuit, 5, &messages, 65536, &extra)
}

#[test]
fn tells_the_first_fault(rt: HostRuntime) -> Result<(), Fail> {
    let Ok(circuit) = copy(rt.alloc()) else {
        return Err(Fail::new("no circuit"));
    };
    tells_faults_in_order(&rt, &circuit)
}

/// Sees that a prover stops at the half that is the prime, for pieces of any size.
fn stops_at_the_half<R: Abort + AllocGlobal + Threads + Sync>(
    rt: &R,
    circuit: &Circuit,
    half: usize,
) -> Result<(), Fail>
    requires { half < 8 }
{
    let mut bytes = out_of_range(rt, 4, half)?;
    bytes.extend_from_slice(&[2, 0])?;
    let at = half / 2 * 8;
    for piece in [1, 7, 65536] {
        stops(rt, circuit, &bytes, piece, ProverStop::Range { at })?;
    }
    Ok(())
}

/// Sees that a prover that was fed the words and these two bytes stops for the reason, for pieces of any size.
fn stops_after_the_words<R: Abort + AllocGlobal + Threads + Sync>(
    rt: &R,
    circuit: &Circuit,
    last: &[u8],
    want: ProverStop,
) -> Result<(), Fail> {
    let mut words = spelled(rt, &WORDS)?;
    words.extend_from_slice(last)?;
    for piece in [1, 8, 65536] {
        stops(rt, circuit, &words, piece, want)?;
    }
    Ok(())
}

/// Sees that a prover stops at the first fault: an element out of range, or bytes after the last.
fn stops_at_faults_in_order<R: Abort + AllocGlobal + Threads + Sync>(
    rt: &R,
    circuit: &Circuit,
) -> Result<(), Fail> {
    for half in 0..8 {
        stops_at_the_half(rt, circuit, half)?;
    }
    let range = ProverStop::Range { at: 32 };
    let extra = ProverStop::Extra { at: 33 };
    stops_after_the_words(rt, circuit, &[2, 0], range)?;
    stops_after_the_words(rt, circuit, &[255, 1], range)?;
    stops_after_the_words(rt, circuit, &[1, 0], extra)?;
    stops_after_the_words(rt, circuit, &[0, 2], extra)
}

#[test]
fn stops_a_prover_at_the_first_fault(rt: HostRuntime) -> Result<(), Fail> {
    let Ok(circuit) = copy(rt.alloc()) else {
        return Err(Fail::new("no circuit"));
    };
    stops_at_faults_in_order(&rt, &circuit)
}
