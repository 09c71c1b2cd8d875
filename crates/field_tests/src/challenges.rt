//! The challenges of a transcript, by SHA-256 alone, and those of a list.

use crate::numbers::element;
use field_ext::{Ext, Fp};
use sha2::{Digest, Sha256};
use std::process::Abort;
use std::test::Fail;
use transcript_fs::{Challenges, Given, Statement, Transcript};

const TEXT: &[u8] = b"input a; output a;";

/// The 38 bytes that state the program `input a; output a;` with input 5 and output 5.
const STATEMENT: &[u8] = b"\x12\0\0\0input a; output a;\x01\0\0\0\x05\0\0\0\x01\0\0\0\x05\0\0\0";

/// The hash of two pieces, one after the other.
fn hash(first: &[u8], second: &[u8]) -> [u8; 32] {
    let mut hasher = Sha256::new();
    hasher.update(first);
    hasher.update(second);
    hasher.finalize()
}

/// What the first 16 bytes of a hash say, as two numbers of 8 bytes modulo the prime.
fn halves(hash: &[u8; 32]) -> Ext {
    let mut numbers = [0u64; 2];
    for i in 0..16 {
        let byte = hash[15 - i] as u64;
        let half = if i < 8 { 1 } else { 0 };
        numbers[half] = numbers[half] % (1 << 56) * 256 + byte;
    }
    element(numbers[0] % 2_147_483_647, numbers[1] % 2_147_483_647)
}

#[test]
fn hashes_all_that_came_before(rt: HostRuntime) {
    let five = [Fp::reduce(5)];
    let statement = Statement::of(TEXT, &five, &five);
    follows(
        &rt,
        Transcript::start(&statement),
        hash(b"gkr-transcript-1\n", STATEMENT),
    );
    follows(
        &rt,
        Transcript::start_pair(&statement),
        hash(b"gkr-transcript-p\n", STATEMENT),
    );
}

/// Sees the challenges of a transcript that begins in this state.
fn follows<R: Abort>(rt: &R, mut transcript: Transcript, mut state: [u8; 32]) {
    let messages: [(&[Ext], &[u8]); 3] = [
        (
            &[element(1, 2), element(2_147_483_646, 0)],
            b"\x01\x01\0\0\0\x02\0\0\0\xfe\xff\xff\x7f\0\0\0\0",
        ),
        (&[], b"\x01"),
        (&[element(0, 65_536)], b"\x01\0\0\0\0\0\0\x01\0"),
    ];
    for (message, bytes) in messages {
        assert!(rt; transcript.has(1_000_000));
        state = hash(&state, b"\x02");
        assert_eq!(rt; transcript.challenge(), halves(&state));
        transcript.absorb(message);
        state = hash(&state, bytes);
    }
    state = hash(&state, b"\x02");
    assert_eq!(rt; transcript.challenge(), halves(&state));
}

/// Sees that a list hands out these two elements and no more.
fn hands_out<R: Abort>(rt: &R, given: &mut Given, first: Ext, second: Ext) {
    assert!(rt; given.has(2) && !given.has(3));
    assert_eq!(rt; given.challenge(), first);
    given.absorb(&[second, second]);
    assert!(rt; given.has(1));
    assert_eq!(rt; given.challenge(), second);
    assert!(rt; given.has(0) && !given.has(1));
}

#[test]
fn hands_out_a_list(rt: HostRuntime) -> Result<(), Fail> {
    let (first, second) = (element(2, 0), element(3, 1));
    let mut given = Given::of(Vec::from_slice(rt.alloc(), &[first, second])?);
    hands_out(&rt, &mut given, first, second);
    Ok(())
}
