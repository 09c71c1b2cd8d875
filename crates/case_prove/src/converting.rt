//! The proof of a case in another version.

ghost use Rattle.std.specs.Prelude.{◌≡◌, length, drop, IsSome, IfOk, IfErr, MatchOption};
ghost use Rattle.circuit_core.specs.Sound.{exponents};
ghost use Rattle.proof_wire.specs.Lists.{HaveShape};
ghost use Rattle.transcript_fs.specs.Transcript.{transcript};
ghost use Rattle.proof_wire.specs.declared.form.ProofForm.TheVariants.{Line};
ghost use Rattle.proof_two.specs.declared.kind.ProofVersion.TheVariants.{Two};
ghost use Rattle.gkr_layers.specs.declared.verdict.Verdict.TheVariants.{Accepted};
ghost use Rattle.gkr_layers.specs.Equations.{first_failure};
ghost use Rattle.gkr_verify.specs.Rounds.{layer_failure};
ghost use Rattle.gkr_verify.specs.ShortProof.{sums_of};
ghost use Rattle.case_prove.specs.Started.{IsOwnStart};
ghost use Rattle.case_prove.specs.Converted.{IsConvertedTo, RefusesConvert, own_sums};
ghost use Rattle.case_prove.specs.Verified.{HasProof, IsReadAs};

use crate::read_proof::read_proof;
use crate::refused::Refused;
use arr_compile::laws::circuit_is_sound;
use case_text::Case;
use circuit_core::Circuit;
use field_ext::Fp;
use gkr_verify::{LayerSum, first_sum};
use proof_two::{ProofKind, ProofVersion, encode_kind};
use proof_wire::{Messages, ProofForm};
use std::alloc::{AllocError, Global};
use transcript_fs::Transcript;
use transcript_fs::laws::always_has;

/// What becomes of a case whose proof is to be written in a version.
#[derive(Drop)]
pub enum Converted {
    /// The case with its proof in that version.
    Case(Case),
    /// The first round of its proof that does not add to its claim, so that its middle coefficient can't be left out.
    Sum(LayerSum),
}

/// The case with its proof in this version; or the first round that does not add to its claim, exactly where the proof is of
/// version 1 and goes to version 2, and there is such a round. It is refused as `verify_case` refuses, but that the proof
/// is read as one by lines whatever its fourth byte is.
pub fn convert_case(alloc: Global, case: &Case, version: ProofVersion) -> Result<Converted, Refused>
    requires outputs { IsSome case.now.outputs }
    requires proof { IsSome case.now.proof }
    ensures converted { IfOk result (λ converted. IsConvertedTo version case.now converted) }
    ensures refused { IfErr result (λ refused. RefusesConvert case.now refused) }
{
    let read = match read_proof(alloc, case, ProofForm::Line) {
        Ok(read) => read,
        Err(refused) => return Err(refused),
    };
    match convert_claim(
        alloc,
        case,
        version,
        &read.circuit,
        &read.messages,
        read.start,
    ) {
        Ok(converted) => Ok(converted),
        Err(_) => Err(Refused::Memory),
    }
}

/// What becomes of a case whose proof was read as these messages for this circuit, with challenges that start so.
fn convert_claim(
    alloc: Global,
    case: &Case,
    version: ProofVersion,
    circuit: &Circuit,
    messages: &Messages,
    start: Transcript,
) -> Result<Converted, AllocError>
    requires read { IsReadAs Line case.now circuit.now.parts messages.now }
    requires start { IsOwnStart Line case.now start }
    ensures { IfOk result (λ converted. IsConvertedTo version case.now converted) }
{
    let Some(outputs) = case.outputs() else {
        unreachable!()
    };
    match version {
        ProofVersion::One => write_converted(alloc, case, version, circuit, outputs, messages),
        ProofVersion::Two => match own_first_sum(alloc, circuit, outputs, messages, start)? {
            Some(fault) => Ok(Converted::Sum(fault)),
            None => write_converted(alloc, case, version, circuit, outputs, messages),
        },
    }
}

/// The first round of the messages that does not add to its claim, with challenges that start so.
fn own_first_sum(
    alloc: Global,
    circuit: &Circuit,
    outputs: &[Fp],
    messages: &Messages,
    start: Transcript,
) -> Result<Option<LayerSum>, AllocError>
    requires outputs { length outputs.now ≡ circuit.now.parts.outputs }
    requires shape { HaveShape Line (drop 1 (exponents circuit.now.parts)) messages.now.layers }
    ensures { IfOk result (λ found.
        let sums = sums_of circuit.now.parts outputs.now transcript start messages.now in
        MatchOption found (first_failure sums ≡ Accepted)
        (λ fault. first_failure sums ≡ layer_failure fault)) }
{
    always_has();
    let mut challenges = start;
    first_sum(alloc, circuit, outputs, messages, &mut challenges)
}

/// The case with the messages of its proof in this version.
fn write_converted(
    alloc: Global,
    case: &Case,
    version: ProofVersion,
    circuit: &Circuit,
    outputs: &[Fp],
    messages: &Messages,
) -> Result<Converted, AllocError>
    requires proof { HasProof Line case.now circuit.now.parts outputs.now messages.now }
    requires sums { version ≡ Two → first_failure
        (own_sums case.now circuit.now.parts outputs.now messages.now) ≡ Accepted }
    ensures { IfOk result (λ converted. IsConvertedTo version case.now converted) }
{
    circuit_is_sound();
    let proof = encode_kind(alloc, ProofKind::ByLines(version), messages)?;
    let program = Vec::from_slice(alloc, case.program())?;
    let inputs = Vec::from_slice(alloc, case.inputs())?;
    let outputs = Vec::from_slice(alloc, outputs)?;
    Ok(Converted::Case(Case::new(case.lang(), program, inputs, Some(outputs), Some(proof))))
}
