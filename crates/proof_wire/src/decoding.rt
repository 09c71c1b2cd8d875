//! Reading the bytes of a proof.

ghost use Rattle.std.specs.Prelude.{◌≡◌, ◌≤◌, ◌+◌, ◌*◌, ◌<◌, ℕ, ◌↔◌, ◌++◌, IfOk, IfErr, IfSome, IsSome, MatchOption, MatchResult, length, drop};
ghost use Rattle.std.specs.List.{flat_map};
ghost use Rattle.field_ext.specs.Bytes.{bytes_of};
ghost use Rattle.proof_wire.specs.declared.refused.ProofRefused.TheVariants.{Memory};
ghost use Rattle.proof_wire.specs.Forms.{magic};
ghost use Rattle.proof_wire.specs.Spelling.{coefficient_count, spelling};
ghost use Rattle.proof_wire.specs.Lists.{HaveShape};
ghost use Rattle.proof_wire.specs.Trouble.{Foreign, InRange, BeginWith, Opens, RefusedFor, element_at};

use crate::cutting::cut;
use crate::form::ProofForm;
use crate::length::{coefficients, proof_len_as};
use crate::messages::Messages;
use crate::refused::{BadProof, ProofRefused};
use circuit_core::Shape;
use field_ext::Ext;
use std::alloc::Global;

/// The messages that the bytes spell by lines, for a circuit of this shape. The refusal names the first trouble from the
/// beginning. No more memory is asked for than for the coefficients that are there.
pub fn decode(alloc: Global, bytes: &[u8], shape: &Shape) -> Result<Messages, ProofRefused>
    ensures of { IfOk result
        (λ messages. HaveShape ProofForm.Line (drop 1 shape.now.ks) messages.layers) }
    ensures found { IfOk result (λ messages. spelling ProofForm.Line messages ≡ bytes.now) }
    ensures only { (messages : Messages)
        → HaveShape ProofForm.Line (drop 1 shape.now.ks) messages.layers
        → bytes.now ≡ spelling ProofForm.Line messages →
        MatchResult result (λ read. read ≡ messages) (λ e. e ≡ Memory) }
    ensures exact { IfErr result (λ e. RefusedFor ProofForm.Line shape.now.ks bytes.now e) }
{
    decode_as(alloc, ProofForm::Line, bytes, shape)
}

/// The messages that the bytes spell in this form, for a circuit of this shape. The refusal names the first trouble from
/// the beginning. No more memory is asked for than for the coefficients that are there.
pub fn decode_as(
    alloc: Global,
    form: ProofForm,
    bytes: &[u8],
    shape: &Shape,
) -> Result<Messages, ProofRefused>
    ensures of { IfOk result (λ messages. HaveShape form (drop 1 shape.now.ks) messages.layers) }
    ensures found { IfOk result (λ messages. spelling form messages ≡ bytes.now) }
    ensures only { (messages : Messages) → HaveShape form (drop 1 shape.now.ks) messages.layers
        → bytes.now ≡ spelling form messages →
        MatchResult result (λ read. read ≡ messages) (λ e. e ≡ Memory) }
    ensures exact { IfErr result (λ e. RefusedFor form shape.now.ks bytes.now e) }
{
    let elements = read_all(alloc, form, bytes, shape)?;
    Ok(cut(alloc, &elements, form, shape)?)
}

/// The coefficients of a proof of this form and shape.
fn read_all(
    alloc: Global,
    form: ProofForm,
    bytes: &[u8],
    shape: &Shape,
) -> Result<Vec<Ext>, ProofRefused>
    ensures count { IfOk result
        (λ elements. length elements.items ≡ coefficient_count form (drop 1 shape.now.ks)) }
    ensures found { IfOk result
        (λ elements. bytes.now ≡ magic form ++ flat_map bytes_of elements.items) }
    ensures exact { IfErr result (λ e. RefusedFor form shape.now.ks bytes.now e) }
{
    if let Some(at) = foreign_byte(form, bytes) {
        return Err(ProofRefused::Bad(BadProof::Magic { at }));
    }
    let need = proof_len_as(form, shape);
    let at = bytes.len();
    if at < 4 {
        return Err(ProofRefused::Bad(BadProof::Short { at, need }));
    }
    let elements = read_elements(alloc, form, bytes, shape)?;
    if (at as u64) < need {
        return Err(ProofRefused::Bad(BadProof::Short { at, need }));
    }
    if need < at as u64 {
        let extra = at - need as usize;
        return Err(ProofRefused::Bad(BadProof::Long { extra }));
    }
    Ok(elements)
}

/// The first of the leading four bytes that is there and differs from a proof's.
fn foreign_byte(form: ProofForm, bytes: &[u8]) -> Option<usize>
    ensures { MatchOption result (Opens form bytes.now) (λ at. Foreign form bytes.now at) }
{
    let magic = form.magic();
    for at in 0..4 {
        if at == bytes.len() {
            return None;
        }
        if bytes[at] != magic[at] {
            return Some(at);
        }
    }
    None
}

/// The coefficients that are there, at most as many as the form has for the shape.
fn read_elements(
    alloc: Global,
    form: ProofForm,
    bytes: &[u8],
    shape: &Shape,
) -> Result<Vec<Ext>, ProofRefused>
    requires room { 4 ≤ length bytes.now }
    requires opens { Opens form bytes.now }
    ensures few { IfOk result
        (λ elements. length elements.items ≤ coefficient_count form (drop 1 shape.now.ks)) }
    ensures whole { IfOk result
        (λ elements. (length elements.items < coefficient_count form (drop 1 shape.now.ks))
        → length bytes.now < 12 + 8 * length elements.items) }
    ensures prefix { IfOk result (λ elements. BeginWith form elements.items bytes.now) }
    ensures exact { IfErr result (λ e. RefusedFor form shape.now.ks bytes.now e) }
{
    let there = (bytes.len() - 4) / 8;
    let all = coefficients(form, shape);
    let count = if all < there as u64 {
        all as usize
    } else {
        there
    };
    let mut elements = Vec::with_capacity(alloc, count)?;
    for i in 0..count {
        match element_of(bytes, i) {
            Some(element) => elements.push(element)?,
            None => return Err(ProofRefused::Bad(BadProof::Range { at: 4 + 8 * i })),
        }
    }
    Ok(elements)
}

/// The coefficient with this index, or None where a half is at or above the prime.
fn element_of(bytes: &[u8], i: usize) -> Option<Ext>
    requires { 12 + 8 * i ≤ length bytes.now }
    ensures some { IsSome result ↔ InRange bytes.now i }
    ensures value { IfSome result (λ x. bytes_of x ≡ element_at bytes.now i) }
{
    Ext::from_bytes(bytes[4 + 8 * i..].first_chunk()?)
}
