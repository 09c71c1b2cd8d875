//! The auditor.

ghost use Rattle.std.specs.Prelude.{◌≡◌, ◌+◌, ◌<◌, ◌^◌, IfOk, IfSome, IsTrue, List, length, take, drop, option_map, slice_index_or};
ghost use Rattle.std.specs.Option.{option_or};
ghost use Rattle.field_ext.specs.Field.{F, zero_k};
ghost use Rattle.circuit_core.specs.Parts.{input_table};
ghost use Rattle.circuit_core.specs.Sound.{exponent_at, exponents};
ghost use Rattle.circuit_eval.specs.Tables.{AreTables};
ghost use Rattle.transcript_fs.specs.Source.{all_draws, state_after, state_after_point};
ghost use Rattle.proof_wire.specs.Lists.{all_messages, HaveShape};
ghost use Rattle.gkr_layers.specs.Layers.{layers_of, challenges_of};
ghost use Rattle.gkr_layers.specs.Places.Place.{At};
ghost use Rattle.gkr_layers.specs.Acceptance.{claim_in, verdict_of};
ghost use Rattle.gkr_layers.specs.Honest.{AreHonest};
ghost use Rattle.audit_core.specs.Audit.{IsAuditOf, place_in};

use crate::comparing::compare;
use crate::drawing::draw_all;
use crate::inputs::inputs_of;
use crate::outputs::{claimed_less_true, first_zeroed, is_zero};
use crate::place::{Place, place_of};
use crate::report::Audit;
use circuit_core::Circuit;
use circuit_eval::Values;
use field_ext::{Ext, Fp};
use gkr_layers::Verdict;
use gkr_prove::prove_alone;
use gkr_verify::check_as;
use io_edge::OpenGate;
use proof_wire::{Messages, ProofForm};
use std::alloc::{AllocError, Global};
use transcript_fs::{Challenges, Given};

/// Audits a proof by lines that a circuit with these values of its layers, which are its values for some inputs, has these
/// outputs: as many of them as the circuit has, messages of its shape, and challenges from a source that has enough of them.
/// Every message is taken in, whatever the verdict. Err only where no memory is found; the challenges may then have moved
/// on.
pub fn audit<C: Challenges>(
    alloc: Global,
    circuit: &Circuit,
    values: &Values,
    outputs: &[Fp],
    messages: &Messages,
    challenges: &mut C,
) -> Result<Audit, AllocError>
    requires values { (inputs : List F) × AreTables circuit.now.parts inputs values.now }
    requires outputs { length outputs.now ≡ circuit.now.parts.outputs }
    requires shape { HaveShape ProofForm.Line (drop 1 (exponents circuit.now.parts))
        messages.now.layers }
    requires has { IsTrue (C.source.has (C.state challenges.old)
        (challenges_of circuit.now.parts)) }
    ensures audited { IfOk result (λ audit. (inputs : List F)
        → AreTables circuit.now.parts inputs values.now →
        let qs = all_messages messages.now.layers in
        IsAuditOf ProofForm.Line circuit.now.parts inputs outputs.now qs
        (all_draws C.source (C.state challenges.old) (exponent_at circuit.now.parts 0) qs) audit) }
    ensures state { IfOk result (λ _. C.state challenges.new
        ≡ state_after C.source (state_after_point C.source (C.state challenges.old)
        (exponent_at circuit.now.parts 0)) (all_messages messages.now.layers)) }
{
    audit_as(
        alloc,
        ProofForm::Line,
        circuit,
        values,
        outputs,
        messages,
        challenges,
    )
}

/// Audits a proof of this form, as [`audit`] one by lines.
pub fn audit_as<C: Challenges>(
    alloc: Global,
    form: ProofForm,
    circuit: &Circuit,
    values: &Values,
    outputs: &[Fp],
    messages: &Messages,
    challenges: &mut C,
) -> Result<Audit, AllocError>
    requires values { (inputs : List F) × AreTables circuit.now.parts inputs values.now }
    requires outputs { length outputs.now ≡ circuit.now.parts.outputs }
    requires shape { HaveShape form (drop 1 (exponents circuit.now.parts)) messages.now.layers }
    requires has { IsTrue (C.source.has (C.state challenges.old)
        (challenges_of circuit.now.parts)) }
    ensures audited { IfOk result (λ audit. (inputs : List F)
        → AreTables circuit.now.parts inputs values.now →
        let qs = all_messages messages.now.layers in
        IsAuditOf form circuit.now.parts inputs outputs.now qs
        (all_draws C.source (C.state challenges.old) (exponent_at circuit.now.parts 0) qs) audit) }
    ensures state { IfOk result (λ _. C.state challenges.new
        ≡ state_after C.source (state_after_point C.source (C.state challenges.old)
        (exponent_at circuit.now.parts 0)) (all_messages messages.now.layers)) }
{
    let drawn = draw_all(alloc, circuit, messages.layers.as_slice(), challenges)?;
    let audit = audit_drawn(alloc, form, circuit, values, outputs, messages, drawn)?;
    Ok(audit)
}

/// Audits a proof with which these challenges were drawn.
fn audit_drawn(
    alloc: Global,
    form: ProofForm,
    circuit: &Circuit,
    values: &Values,
    outputs: &[Fp],
    messages: &Messages,
    drawn: Vec<Ext>,
) -> Result<Audit, AllocError>
    requires values { (inputs : List F) × AreTables circuit.now.parts inputs values.now }
    requires outputs { length outputs.now ≡ circuit.now.parts.outputs }
    requires shape { HaveShape form (drop 1 (exponents circuit.now.parts)) messages.now.layers }
    requires drawn { length drawn.items ≡ challenges_of circuit.now.parts }
    ensures { IfOk result (λ audit. (inputs : List F)
        → AreTables circuit.now.parts inputs values.now
        → IsAuditOf form circuit.now.parts inputs outputs.now (all_messages messages.now.layers)
        drawn.items audit) }
{
    let k = circuit.coordinates(0);
    let (point, behind) = drawn.as_slice().split_at(k);
    let truth = true_messages(alloc, form, circuit, values, &drawn)?;
    let found = compare(messages.layers.as_slice(), truth.layers.as_slice(), behind);
    let difference = claimed_less_true(alloc, circuit, values, outputs)?;
    let same = is_zero(difference.values());
    let coordinate = first_zeroed(difference, point);
    let challenge = first_challenge(k, coordinate, found.challenge, &drawn);
    let message = first_message(circuit, found.message);
    let verdict = verdict_on(alloc, form, circuit, values, outputs, messages, drawn)?;
    Ok(Audit {
        verdict,
        same,
        message,
        challenge,
    })
}

/// The honest messages at these challenges.
fn true_messages(
    alloc: Global,
    form: ProofForm,
    circuit: &Circuit,
    values: &Values,
    drawn: &[Ext],
) -> Result<Messages, AllocError>
    requires values { (inputs : List F) × AreTables circuit.now.parts inputs values.now }
    requires drawn { length drawn.now ≡ challenges_of circuit.now.parts }
    ensures honest { IfOk result (λ truth. (inputs : List F)
        → AreTables circuit.now.parts inputs values.now →
        AreHonest form (layers_of circuit.now.parts) (input_table circuit.now.parts inputs)
        (At (take (exponent_at circuit.now.parts 0) drawn.now)) (all_messages truth.layers)
        (drop (exponent_at circuit.now.parts 0) drawn.now)) }
    ensures shape { IfOk result
        (λ truth. HaveShape form (drop 1 (exponents circuit.now.parts)) truth.layers) }
{
    let mut given = Given::of(Vec::from_slice(alloc, drawn)?);
    let truth = prove_alone(alloc, form, circuit, values, &mut given, &OpenGate)?;
    Ok(truth)
}

/// The verifier's answer with these challenges.
fn verdict_on(
    alloc: Global,
    form: ProofForm,
    circuit: &Circuit,
    values: &Values,
    outputs: &[Fp],
    messages: &Messages,
    drawn: Vec<Ext>,
) -> Result<Verdict, AllocError>
    requires values { (inputs : List F) × AreTables circuit.now.parts inputs values.now }
    requires outputs { length outputs.now ≡ circuit.now.parts.outputs }
    requires shape { HaveShape form (drop 1 (exponents circuit.now.parts)) messages.now.layers }
    requires drawn { length drawn.items ≡ challenges_of circuit.now.parts }
    ensures { IfOk result (λ verdict. (inputs : List F)
        → AreTables circuit.now.parts inputs values.now →
        verdict ≡ verdict_of (claim_in form circuit.now.parts inputs outputs.now)
        (all_messages messages.now.layers) drawn.items) }
{
    let inputs = inputs_of(alloc, circuit, values)?;
    let mut given = Given::of(drawn);
    let verdict = check_as(alloc, form, circuit, &inputs, outputs, messages, &mut given)?;
    Ok(verdict)
}

/// The first exceptional challenge by its number and value: a coordinate of the output point, or else one after a message.
fn first_challenge(
    k: usize,
    coordinate: Option<usize>,
    message: Option<usize>,
    drawn: &[Ext],
) -> Option<(u32, Ext)>
    requires few { length drawn.now < 2 ^ 32 }
    requires coordinate { IfSome coordinate (λ n. n < length drawn.now) }
    requires message { IfSome message (λ n. k + n < length drawn.now) }
    ensures { result ≡ option_map (λ n. (n, slice_index_or drawn.now n zero_k))
        (option_or coordinate (option_map (λ n. k + n) message)) }
{
    match coordinate {
        Some(n) => Some((n as u32, drawn[n])),
        None => match message {
            Some(n) => Some(((k + n) as u32, drawn[k + n])),
            None => None,
        },
    }
}

/// Where the first message that differs is.
fn first_message(circuit: &Circuit, number: Option<usize>) -> Option<Place>
    ensures { result ≡ option_map (place_in (layers_of circuit.now.parts) 0) number }
{
    match number {
        Some(n) => Some(place_of(circuit, n)),
        None => None,
    }
}
