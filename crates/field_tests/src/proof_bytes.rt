//! A worked proof as bytes, and the bytes that are none.

ghost use Rattle.std.specs.Prelude.{◌<◌};

use crate::numbers::number;
use circuit_core::Shape;
use field_ext::Ext;
use proof_wire::{
    BadProof, LayerMessages, Listed, Messages, ProofForm, ProofRefused, Round, decode, encode,
    proof_len,
};
use std::alloc::{AllocError, Global};
use std::process::Abort;

/// Two rounds and a line over one coordinate.
pub(crate) const PROOF: [u8; 68] = *b"GKR1\
\0\0\0\0\0\0\0\0\xfa\xff\xff\x7f\0\0\0\0\x0f\0\0\0\0\0\0\0\
\x78\0\0\0\0\0\0\0\xaf\xff\xff\x7f\0\0\0\0\xd7\xff\xff\x7f\0\0\0\0\
\x0f\0\0\0\0\0\0\0\x05\0\0\0\0\0\0\0";

/// `GKR1` and 64 zeros, a proof of the same shape.
fn zeros() -> [u8; 68] {
    let mut bytes = [0; 68];
    bytes[..4].copy_from_slice(b"GKR1");
    bytes
}

/// The rounds (0, -5, 15) and (120, -80, -40), and the line (15, 5).
pub(crate) fn messages(alloc: Global) -> Result<Messages, AllocError> {
    messages_with(alloc, number(2_147_483_642), number(2_147_483_567))
}

/// The same with these middle coefficients.
pub(crate) fn messages_with(
    alloc: Global,
    first: Ext,
    second: Ext,
) -> Result<Messages, AllocError> {
    let rounds = [
        Round::of([number(0), first, number(15)]),
        Round::of([number(120), second, number(2_147_483_607)]),
    ];
    let mut layers = Vec::new(alloc);
    layers.push(LayerMessages {
        rounds: Listed::of(Vec::from_slice(alloc, &rounds)?),
        last: Listed::of(Vec::from_slice(alloc, &[number(15), number(5)])?),
    })?;
    Ok(Messages {
        layers: Listed::of(layers),
    })
}

#[test]
fn tells_forms_by_the_fourth_byte(rt: HostRuntime) {
    for (bytes, form) in [
        (&b""[..], ProofForm::Line),
        (b"GKR", ProofForm::Line),
        (b"GKR1", ProofForm::Line),
        (b"GKRp", ProofForm::Line),
        (b"GKRP", ProofForm::Pair),
        (b"\0\0\0P\0", ProofForm::Pair),
    ] {
        assert_eq!(rt; ProofForm::of(bytes), form);
    }
}

pub(crate) fn one_and_one(alloc: Global) -> Result<Shape, AllocError> {
    Ok(Shape::of(Vec::from_slice(alloc, &[1, 1])?))
}

/// Sees the bytes of messages.
pub(crate) fn encodes<R: Abort + AllocGlobal>(
    rt: &R,
    messages: &Messages,
    want: &[u8],
) -> Result<(), AllocError> {
    let bytes = encode(rt.alloc(), messages)?;
    assert_eq!(rt; bytes.as_slice(), want);
    Ok(())
}

#[test]
fn writes_a_worked_proof(rt: HostRuntime) -> Result<(), AllocError> {
    let messages = messages(rt.alloc())?;
    encodes(&rt, &messages, &PROOF)
}

/// Sees how long a proof of this shape is.
fn has_length<R: Abort>(rt: &R, shape: &Shape, want: u64) {
    assert_eq!(rt; proof_len(shape), want);
}

#[test]
fn knows_the_length(rt: HostRuntime) -> Result<(), AllocError> {
    let shape = one_and_one(rt.alloc())?;
    has_length(&rt, &shape, 68);
    Ok(())
}

#[test]
fn knows_the_length_over_more_coordinates(rt: HostRuntime) -> Result<(), AllocError> {
    let higher = Shape::of(Vec::from_slice(rt.alloc(), &[1, 2, 3])?);
    has_length(&rt, &higher, 4 + 8 * (12 + 3 + 18 + 4));
    Ok(())
}

/// Sees that bytes are read as messages that are written as they are.
fn reads<R: Abort + AllocGlobal>(rt: &R, bytes: &[u8], shape: &Shape) -> Result<(), AllocError> {
    match decode(rt.alloc(), bytes, shape) {
        Ok(read) => encodes(rt, &read, bytes),
        Err(refused) => {
            assert_eq!(rt; Some(refused), None);
            Ok(())
        }
    }
}

#[test]
fn reads_a_worked_proof(rt: HostRuntime) -> Result<(), AllocError> {
    let shape = one_and_one(rt.alloc())?;
    reads(&rt, &PROOF, &shape)
}

/// Sees the refusal of bytes as a proof of this shape, or None where they are one.
fn refuses<R: Abort + AllocGlobal>(
    rt: &R,
    bytes: &[u8],
    shape: &Shape,
    want: Option<ProofRefused>,
) {
    let refused = decode(rt.alloc(), bytes, shape).err();
    assert_eq!(rt; refused, want);
}

/// Sees the refusal of bytes as a proof of this shape.
fn refuses_as<R: Abort + AllocGlobal>(rt: &R, bytes: &[u8], shape: &Shape, want: BadProof) {
    refuses(rt, bytes, shape, Some(ProofRefused::Bad(want)));
}

/// Sees that a proof is one, and that each prefix of it is too short.
fn refuses_prefixes<R: Abort + AllocGlobal>(rt: &R, proof: &[u8; 68], shape: &Shape) {
    for at in 0..68 {
        refuses_as(rt, &proof[..at], shape, BadProof::Short { at, need: 68 });
    }
    refuses(rt, proof, shape, None);
}

#[test]
fn refuses_each_prefix(rt: HostRuntime) -> Result<(), AllocError> {
    let shape = one_and_one(rt.alloc())?;
    refuses_prefixes(&rt, &PROOF, &shape);
    refuses_prefixes(&rt, &zeros(), &shape);
    Ok(())
}

/// Sees that a proof of which a half is the prime is refused for the element that the half is of.
fn refuses_half<R: Abort + AllocGlobal>(rt: &R, proof: &[u8; 68], half: usize, shape: &Shape)
    requires { half < 16 }
{
    let mut bytes = *proof;
    bytes[4 + 4 * half..8 + 4 * half].copy_from_slice(b"\xff\xff\xff\x7f");
    let at = 4 + 8 * (half / 2);
    refuses_as(rt, &bytes, shape, BadProof::Range { at });
}

#[test]
fn refuses_each_half_at_the_prime(rt: HostRuntime) -> Result<(), AllocError> {
    let shape = one_and_one(rt.alloc())?;
    for half in 0..16 {
        refuses_half(&rt, &PROOF, half, &shape);
        refuses_half(&rt, &zeros(), half, &shape);
    }
    Ok(())
}

/// A worked proof and one byte more.
fn longer() -> [u8; 69] {
    let mut bytes = [0; 69];
    bytes[..68].copy_from_slice(&PROOF);
    bytes
}

#[test]
fn refuses_more_bytes_and_other_magic(rt: HostRuntime) -> Result<(), AllocError> {
    let shape = one_and_one(rt.alloc())?;
    refuses_as(&rt, &longer(), &shape, BadProof::Long { extra: 1 });
    let mut other = PROOF;
    other[3] = b'2';
    refuses_as(&rt, &other, &shape, BadProof::Magic { at: 3 });
    Ok(())
}
