//! A worked proof of version 2 as bytes, and the bytes that are none, in either version.

ghost use Rattle.std.specs.Prelude.{◌<◌};

use crate::numbers::number;
use crate::proof_bytes::{PROOF, encodes, messages, messages_with, one_and_one};
use circuit_core::Shape;
use proof_two::{AnyProof, Pairs, decode_any, decode_two, encode_two, proof_len_two, shorten};
use proof_wire::{BadProof, Messages, ProofRefused};
use std::alloc::AllocError;
use std::process::Abort;
use std::test::Fail;

/// The worked proof without its middle coefficients.
const SHORT: [u8; 52] = *b"GKR2\
\0\0\0\0\0\0\0\0\x0f\0\0\0\0\0\0\0\
\x78\0\0\0\0\0\0\0\xd7\xff\xff\x7f\0\0\0\0\
\x0f\0\0\0\0\0\0\0\x05\0\0\0\0\0\0\0";

/// Sees the bytes of messages without their middle coefficients.
fn encodes_two<R: Abort + AllocGlobal>(
    rt: &R,
    pairs: &Pairs,
    want: &[u8],
) -> Result<(), AllocError> {
    let bytes = encode_two(rt.alloc(), pairs)?;
    assert_eq!(rt; bytes.as_slice(), want);
    Ok(())
}

/// Sees the bytes of messages once they are shortened.
fn shortens<R: Abort + AllocGlobal>(
    rt: &R,
    messages: &Messages,
    want: &[u8],
) -> Result<(), AllocError> {
    let pairs = shorten(rt.alloc(), messages)?;
    encodes_two(rt, &pairs, want)
}

#[test]
fn writes_a_worked_proof(rt: HostRuntime) -> Result<(), AllocError> {
    let messages = messages(rt.alloc())?;
    shortens(&rt, &messages, &SHORT)
}

#[test]
fn shortens_by_the_middle_coefficients_alone(rt: HostRuntime) -> Result<(), AllocError> {
    let other = messages_with(rt.alloc(), number(1), number(2))?;
    shortens(&rt, &other, &SHORT)
}

/// Sees how long a proof of version 2 and this shape is.
fn has_length<R: Abort>(rt: &R, shape: &Shape, want: u64) {
    assert_eq!(rt; proof_len_two(shape), want);
}

#[test]
fn knows_the_length(rt: HostRuntime) -> Result<(), AllocError> {
    let shape = one_and_one(rt.alloc())?;
    has_length(&rt, &shape, 52);
    Ok(())
}

#[test]
fn knows_the_length_over_more_coordinates(rt: HostRuntime) -> Result<(), AllocError> {
    let higher = Shape::of(Vec::from_slice(rt.alloc(), &[1, 2, 3])?);
    has_length(&rt, &higher, 4 + 8 * (8 + 3 + 12 + 4));
    Ok(())
}

/// Sees that bytes are read, as a proof of version 2, as messages that are written as they are.
fn reads<R: Abort + AllocGlobal>(rt: &R, bytes: &[u8], shape: &Shape) -> Result<(), Fail> {
    let Ok(read) = decode_two(rt.alloc(), bytes, shape) else {
        return Err(Fail::new("no messages"));
    };
    Ok(encodes_two(rt, &read, bytes)?)
}

#[test]
fn reads_a_worked_proof(rt: HostRuntime) -> Result<(), Fail> {
    let shape = one_and_one(rt.alloc())?;
    reads(&rt, &SHORT, &shape)
}

/// Sees the bytes of a proof of either version.
fn encodes_any<R: Abort + AllocGlobal>(
    rt: &R,
    proof: &AnyProof,
    want: &[u8],
) -> Result<(), AllocError> {
    match proof {
        AnyProof::One(messages) => encodes(rt, messages, want),
        AnyProof::Two(pairs) => encodes_two(rt, pairs, want),
    }
}

/// Sees that bytes are read, as a proof of either version, as messages that are written as they are.
fn reads_any<R: Abort + AllocGlobal>(rt: &R, bytes: &[u8], shape: &Shape) -> Result<(), Fail> {
    let Ok(read) = decode_any(rt.alloc(), bytes, shape) else {
        return Err(Fail::new("no messages"));
    };
    Ok(encodes_any(rt, &read, bytes)?)
}

#[test]
fn reads_either_version(rt: HostRuntime) -> Result<(), Fail> {
    let shape = one_and_one(rt.alloc())?;
    reads_any(&rt, &PROOF, &shape)?;
    reads_any(&rt, &SHORT, &shape)
}

/// Sees the refusal of bytes as a proof of version 2.
fn refuses<R: Abort + AllocGlobal>(rt: &R, bytes: &[u8], shape: &Shape, want: BadProof) {
    let refused = decode_two(rt.alloc(), bytes, shape).err();
    assert_eq!(rt; refused, Some(ProofRefused::Bad(want)));
}

/// Sees the refusal of bytes as a proof of either version, or None where they are one.
fn answers_any<R: Abort + AllocGlobal>(
    rt: &R,
    bytes: &[u8],
    shape: &Shape,
    want: Option<ProofRefused>,
) {
    let refused = decode_any(rt.alloc(), bytes, shape).err();
    assert_eq!(rt; refused, want);
}

/// Sees the refusal of bytes as a proof of either version.
fn refuses_any<R: Abort + AllocGlobal>(rt: &R, bytes: &[u8], shape: &Shape, want: BadProof) {
    answers_any(rt, bytes, shape, Some(ProofRefused::Bad(want)));
}

/// With fewer than four bytes the version isn't known, and the length is that of version 1.
#[test]
fn refuses_each_prefix(rt: HostRuntime) -> Result<(), AllocError> {
    let shape = one_and_one(rt.alloc())?;
    for at in 0..52 {
        refuses(&rt, &SHORT[..at], &shape, BadProof::Short { at, need: 52 });
        let need = if at < 4 { 68 } else { 52 };
        refuses_any(&rt, &SHORT[..at], &shape, BadProof::Short { at, need });
    }
    answers_any(&rt, &SHORT, &shape, None);
    Ok(())
}

/// Sees that a proof of which a half is the prime is refused for the element that the half is of.
fn refuses_half<R: Abort + AllocGlobal>(rt: &R, half: usize, shape: &Shape)
    requires { half < 12 }
{
    let mut bytes = SHORT;
    bytes[4 + 4 * half..8 + 4 * half].copy_from_slice(b"\xff\xff\xff\x7f");
    let at = 4 + 8 * (half / 2);
    refuses(rt, &bytes, shape, BadProof::Range { at });
    refuses_any(rt, &bytes, shape, BadProof::Range { at });
}

#[test]
fn refuses_each_half_at_the_prime(rt: HostRuntime) -> Result<(), AllocError> {
    let shape = one_and_one(rt.alloc())?;
    for half in 0..12 {
        refuses_half(&rt, half, &shape);
    }
    Ok(())
}

/// Sees that a proof with this byte at a place of its mark is refused there.
fn refuses_mark<R: Abort + AllocGlobal>(rt: &R, at: usize, byte: u8, shape: &Shape)
    requires { at < 4 }
{
    let mut bytes = SHORT;
    bytes[at] = byte;
    refuses_any(rt, &bytes, shape, BadProof::Magic { at });
    refuses(rt, &bytes, shape, BadProof::Magic { at });
}

#[test]
fn refuses_other_marks(rt: HostRuntime) -> Result<(), AllocError> {
    let shape = one_and_one(rt.alloc())?;
    refuses_mark(&rt, 3, b'0', &shape);
    refuses_mark(&rt, 3, b'3', &shape);
    refuses_mark(&rt, 3, b'P', &shape);
    refuses_mark(&rt, 3, b'p', &shape);
    refuses_mark(&rt, 3, 2, &shape);
    refuses_mark(&rt, 2, b'2', &shape);
    refuses_mark(&rt, 0, b'g', &shape);
    Ok(())
}

#[test]
fn refuses_bytes_under_the_other_version(rt: HostRuntime) -> Result<(), AllocError> {
    let shape = one_and_one(rt.alloc())?;
    let mut one = PROOF;
    one[3] = b'2';
    let mut two = SHORT;
    two[3] = b'1';
    refuses_any(&rt, &one, &shape, BadProof::Long { extra: 16 });
    refuses_any(&rt, &two, &shape, BadProof::Short { at: 52, need: 68 });
    refuses(&rt, &PROOF, &shape, BadProof::Magic { at: 3 });
    Ok(())
}
