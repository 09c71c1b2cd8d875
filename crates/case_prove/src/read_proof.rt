//! The proof of a case, read as messages.

ghost use Rattle.std.specs.Prelude.{◌≡◌, ◌<◌, ◌^◌, length, drop, Some, IsSome, IfOk, IfErr};
ghost use Rattle.arr_compile.specs.Circuits.{IsCompiled};
ghost use Rattle.circuit_core.specs.Sound.{exponents};
ghost use Rattle.proof_wire.specs.Lists.{HaveShape};
ghost use Rattle.proof_wire.specs.declared.form.ProofForm.TheVariants.{Line};
ghost use Rattle.proof_two.specs.Lists.{HavePairs};
ghost use Rattle.transcript_fs.specs.Transcript.{transcript};
ghost use Rattle.gkr_verify.specs.ShortProof.{filled};
ghost use Rattle.case_prove.specs.Started.{IsOwnStart, start_of};
ghost use Rattle.case_prove.specs.Verified.{HasProof, IsClaim, IsReadAs, RefusesProof};

use crate::refused::{Refused, program_refused};
use crate::started::transcript_of;
use arr_compile::compile;
use case_text::Case;
use circuit_core::Circuit;
use field_ext::Fp;
use gkr_verify::fill;
use proof_two::{AnyProof, Pairs, decode_any};
use proof_wire::{Messages, ProofForm, ProofRefused, decode_as};
use std::alloc::{AllocError, Global};
use transcript_fs::Transcript;
use transcript_fs::laws::always_has;

/// The circuit of a case's program, the messages that the case's proof says, and the start of its challenges.
#[derive(Drop)]
pub(crate) struct ReadProof {
    pub(crate) circuit: Circuit,
    pub(crate) messages: Messages,
    pub(crate) start: Transcript,
}

/// Reads the case's proof as one of this form, for the circuit of the case's program: by lines in the version that the
/// proof's fourth byte names, of which version 2 is filled in. It is refused as `Program` exactly where the program's text
/// or its layout is refused so, and else as `Input` or `Output` where the numbers of these differ from the circuit's, and
/// else as `Proof` where the proof's bytes say no messages of this form and the circuit's shape.
pub(crate) fn read_proof(alloc: Global, case: &Case, form: ProofForm) -> Result<ReadProof, Refused>
    requires outputs { IsSome case.now.outputs }
    requires proof { IsSome case.now.proof }
    ensures read { IfOk result
        (λ read. IsReadAs form case.now read.circuit.parts read.messages) }
    ensures start { IfOk result (λ read. IsOwnStart form case.now read.start) }
    ensures refused { IfErr result (λ refused. RefusesProof form case.now refused) }
{
    let compiled = match compile(alloc, case.program(), case.lang()) {
        Ok(compiled) => compiled,
        Err(refused) => return Err(program_refused(refused)),
    };
    let have = case.inputs().len() as u64;
    let need = u64::from(compiled.circuit.inputs());
    if have != need {
        return Err(Refused::Input { have, need });
    }
    let circuit = compiled.circuit;
    let (messages, start) = read_messages(alloc, case, form, &circuit)?;
    Ok(ReadProof {
        circuit,
        messages,
        start,
    })
}

/// Reads the proof of a case whose program is laid out as this circuit: its messages, and the start of its challenges.
pub(crate) fn read_messages(
    alloc: Global,
    case: &Case,
    form: ProofForm,
    circuit: &Circuit,
) -> Result<(Messages, Transcript), Refused>
    requires compiled { IsCompiled case.now.lang case.now.program circuit.now.parts }
    requires counted { length case.now.inputs ≡ circuit.now.parts.inputs }
    requires outputs { IsSome case.now.outputs }
    requires proof { IsSome case.now.proof }
    ensures read { IfOk result (λ read. IsReadAs form case.now circuit.now.parts read.0) }
    ensures start { IfOk result (λ read. IsOwnStart form case.now read.1) }
    ensures refused { IfErr result (λ refused. RefusesProof form case.now refused) }
{
    let Some(outputs) = case.outputs() else {
        unreachable!()
    };
    let had = outputs.len() as u64;
    let need = u64::from(circuit.outputs());
    if had != need {
        return Err(Refused::Output { have: had, need });
    }
    let start = transcript_of(case, form, outputs);
    let messages = match form {
        ProofForm::Line => read_lines(alloc, case, circuit, outputs, start)?,
        ProofForm::Pair => read_pairs(alloc, case, circuit, outputs)?,
    };
    Ok((messages, start))
}

/// Reads the proof of a case of as many outputs as one by pairs.
fn read_pairs(
    alloc: Global,
    case: &Case,
    circuit: &Circuit,
    outputs: &[Fp],
) -> Result<Messages, Refused>
    requires claim { IsClaim case.now circuit.now.parts outputs.now }
    requires as_many { length outputs.now ≡ circuit.now.parts.outputs }
    requires proof { IsSome case.now.proof }
    ensures read { IfOk result
        (λ messages. HasProof ProofForm.Pair case.now circuit.now.parts outputs.now messages) }
    ensures refused { IfErr result (λ refused. RefusesProof ProofForm.Pair case.now refused) }
{
    let Some(proof) = case.proof() else {
        unreachable!()
    };
    match decode_as(alloc, ProofForm::Pair, proof, circuit.shape()) {
        Ok(messages) => Ok(messages),
        Err(ProofRefused::Bad(bad)) => Err(Refused::Proof(bad)),
        Err(ProofRefused::Memory) => Err(Refused::Memory),
    }
}

/// Reads the proof of a case of as many outputs as one by lines, whose challenges start so.
fn read_lines(
    alloc: Global,
    case: &Case,
    circuit: &Circuit,
    outputs: &[Fp],
    start: Transcript,
) -> Result<Messages, Refused>
    requires start { start ≡ start_of Line case.now.program case.now.inputs outputs.now }
    requires claim { IsClaim case.now circuit.now.parts outputs.now }
    requires as_many { length outputs.now ≡ circuit.now.parts.outputs }
    requires proof { IsSome case.now.proof }
    ensures read { IfOk result
        (λ messages. HasProof Line case.now circuit.now.parts outputs.now messages) }
    ensures refused { IfErr result (λ refused. RefusesProof Line case.now refused) }
{
    let Some(proof) = case.proof() else {
        unreachable!()
    };
    match decode_any(alloc, proof, circuit.shape()) {
        Ok(AnyProof::One(messages)) => Ok(messages),
        Ok(AnyProof::Two(pairs)) => match fill_in(alloc, circuit, outputs, &pairs, start) {
            Ok(messages) => Ok(messages),
            Err(_) => Err(Refused::Memory),
        },
        Err(ProofRefused::Bad(bad)) => Err(Refused::Proof(bad)),
        Err(ProofRefused::Memory) => Err(Refused::Memory),
    }
}

/// The messages of a proof of version 2, filled in with the challenges that start so.
fn fill_in(
    alloc: Global,
    circuit: &Circuit,
    outputs: &[Fp],
    pairs: &Pairs,
    start: Transcript,
) -> Result<Messages, AllocError>
    requires outputs { length outputs.now ≡ circuit.now.parts.outputs }
    requires shape { HavePairs (drop 1 (exponents circuit.now.parts)) pairs.now.layers }
    ensures filled { IfOk result
        (λ messages. messages ≡ filled circuit.now.parts outputs.now transcript start pairs.now) }
    ensures shape { IfOk result
        (λ messages. HaveShape Line (drop 1 (exponents circuit.now.parts)) messages.layers) }
{
    always_has();
    let mut challenges = start;
    fill(alloc, circuit, outputs, pairs, &mut challenges)
}
