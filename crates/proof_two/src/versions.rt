//! Proofs by lines of both versions.

ghost use Rattle.std.specs.Prelude.{◌≡◌, IfErr, IfOk, MatchResult};
ghost use Rattle.proof_wire.specs.declared.refused.ProofRefused.TheVariants.{Memory};
ghost use Rattle.proof_two.specs.declared.versions.AnyProof.{AnyProof as Either};
ghost use Rattle.proof_two.specs.Versions.{HasAnyShape, RefusedForAny, any_spelling};

use crate::decoding::decode_two;
use crate::pairs::Pairs;
use circuit_core::Shape;
use proof_wire::{Messages, ProofRefused, decode};
use std::alloc::Global;

/// The messages of a proof by lines, with all coefficients or without the middle ones.
#[derive(Drop)]
pub enum AnyProof {
    /// Version 1.
    One(Messages),
    /// Version 2.
    Two(Pairs),
}

/// The messages that the bytes spell, for a circuit of this shape: in version 2 where their fourth byte is `2`, and else,
/// also where there are fewer than four, in version 1. The refusal names the first trouble from the front in that version.
pub fn decode_any(alloc: Global, bytes: &[u8], shape: &Shape) -> Result<AnyProof, ProofRefused>
    ensures of { IfOk result (λ proof. HasAnyShape shape.now.ks proof) }
    ensures found { IfOk result (λ proof. any_spelling proof ≡ bytes.now) }
    ensures only { (proof : Either) → HasAnyShape shape.now.ks proof
        → bytes.now ≡ any_spelling proof →
        MatchResult result (λ read. read ≡ proof) (λ e. e ≡ Memory) }
    ensures exact { IfErr result (λ e. RefusedForAny shape.now.ks bytes.now e) }
{
    if bytes.len() > 3 && bytes[3] == b'2' {
        return Ok(AnyProof::Two(decode_two(alloc, bytes, shape)?));
    }
    Ok(AnyProof::One(decode(alloc, bytes, shape)?))
}
