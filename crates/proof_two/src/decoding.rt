//! Reading the bytes of a proof of version 2.

ghost use Rattle.std.specs.Prelude.{◌≡◌, ◌≤◌, ◌+◌, ◌*◌, ◌<◌, ℕ, ◌↔◌, ◌++◌, IfOk, IfErr, IfSome, IsSome, MatchOption, MatchResult, length, drop};
ghost use Rattle.std.specs.List.{flat_map};
ghost use Rattle.field_ext.specs.Bytes.{bytes_of};
ghost use Rattle.proof_wire.specs.declared.refused.ProofRefused.TheVariants.{Memory};
ghost use Rattle.proof_wire.specs.Trouble.{InRange, element_at};
ghost use Rattle.proof_two.specs.declared.pairs.Pairs.{Pairs as Listed};
ghost use Rattle.proof_two.specs.Spelling.{element_count, magic_two, spelling_two};
ghost use Rattle.proof_two.specs.Lists.{HavePairs};
ghost use Rattle.proof_two.specs.Trouble.{ForeignTwo, BeginWithTwo, OpensTwo, RefusedForTwo};

use crate::cutting::cut;
use crate::length::{elements, proof_len_two};
use crate::pairs::Pairs;
use circuit_core::Shape;
use field_ext::Ext;
use proof_wire::{BadProof, ProofRefused};
use std::alloc::Global;

/// The messages that the bytes spell in version 2, for a circuit of this shape. The refusal names the first trouble from
/// the front. No more memory is asked for than for the coefficients that are there.
pub fn decode_two(alloc: Global, bytes: &[u8], shape: &Shape) -> Result<Pairs, ProofRefused>
    ensures of { IfOk result (λ pairs. HavePairs (drop 1 shape.now.ks) pairs.layers) }
    ensures found { IfOk result (λ pairs. spelling_two pairs ≡ bytes.now) }
    ensures only { (pairs : Listed) → HavePairs (drop 1 shape.now.ks) pairs.layers
        → bytes.now ≡ spelling_two pairs →
        MatchResult result (λ read. read ≡ pairs) (λ e. e ≡ Memory) }
    ensures exact { IfErr result (λ e. RefusedForTwo shape.now.ks bytes.now e) }
{
    let elements = read_all(alloc, bytes, shape)?;
    Ok(cut(alloc, &elements, shape)?)
}

/// The coefficients of a proof of this shape.
fn read_all(alloc: Global, bytes: &[u8], shape: &Shape) -> Result<Vec<Ext>, ProofRefused>
    ensures count { IfOk result
        (λ elements. length elements.items ≡ element_count (drop 1 shape.now.ks)) }
    ensures found { IfOk result
        (λ elements. bytes.now ≡ magic_two ++ flat_map bytes_of elements.items) }
    ensures exact { IfErr result (λ e. RefusedForTwo shape.now.ks bytes.now e) }
{
    if let Some(at) = foreign_byte(bytes) {
        return Err(ProofRefused::Bad(BadProof::Magic { at }));
    }
    let need = proof_len_two(shape);
    let at = bytes.len();
    if at < 4 {
        return Err(ProofRefused::Bad(BadProof::Short { at, need }));
    }
    let elements = read_elements(alloc, bytes, shape)?;
    if (at as u64) < need {
        return Err(ProofRefused::Bad(BadProof::Short { at, need }));
    }
    if need < at as u64 {
        let extra = at - need as usize;
        return Err(ProofRefused::Bad(BadProof::Long { extra }));
    }
    Ok(elements)
}

/// The first of the leading four bytes that is there and differs from a proof's.
fn foreign_byte(bytes: &[u8]) -> Option<usize>
    ensures { MatchOption result (OpensTwo bytes.now) (λ at. ForeignTwo bytes.now at) }
{
    let magic = *b"GKR2";
    for at in 0..4 {
        if at == bytes.len() {
            return None;
        }
        if bytes[at] != magic[at] {
            return Some(at);
        }
    }
    None
}

/// The coefficients that are there, at most as many as a proof of the shape has.
fn read_elements(alloc: Global, bytes: &[u8], shape: &Shape) -> Result<Vec<Ext>, ProofRefused>
    requires capacity { 4 ≤ length bytes.now }
    requires opens { OpensTwo bytes.now }
    ensures few { IfOk result
        (λ elements. length elements.items ≤ element_count (drop 1 shape.now.ks)) }
    ensures whole { IfOk result
        (λ elements. (length elements.items < element_count (drop 1 shape.now.ks))
        → length bytes.now < 12 + 8 * length elements.items) }
    ensures prefix { IfOk result (λ elements. BeginWithTwo elements.items bytes.now) }
    ensures exact { IfErr result (λ e. RefusedForTwo shape.now.ks bytes.now e) }
{
    let there = (bytes.len() - 4) / 8;
    let all = elements(shape);
    let count = if all < there as u64 {
        all as usize
    } else {
        there
    };
    let mut read = Vec::with_capacity(alloc, count)?;
    for i in 0..count {
        match element_of(bytes, i) {
            Some(element) => read.push(element)?,
            None => return Err(ProofRefused::Bad(BadProof::Range { at: 4 + 8 * i })),
        }
    }
    Ok(read)
}

/// The coefficient with this index, or None where a half is at or above the prime.
fn element_of(bytes: &[u8], i: usize) -> Option<Ext>
    requires { 12 + 8 * i ≤ length bytes.now }
    ensures some { IsSome result ↔ InRange bytes.now i }
    ensures value { IfSome result (λ x. bytes_of x ≡ element_at bytes.now i) }
{
    Ext::from_bytes(bytes[4 + 8 * i..].first_chunk()?)
}
