//! The verdict on the proof of a case.

ghost use Rattle.std.specs.Prelude.{◌≡◌, length, IsSome, IfOk, IfErr};
ghost use Rattle.arr_compile.specs.Circuits.{IsCompiled};
ghost use Rattle.case_prove.specs.Started.{IsOwnStart};
ghost use Rattle.case_prove.specs.Verified.{IsReadAs, IsVerdictOn, RefusesVerify, proof_form};

use crate::read_proof::{read_messages, read_proof};
use crate::refused::Refused;
use case_text::Case;
use circuit_core::Circuit;
use gkr_verify::{Verdict, check_as};
use proof_wire::{Messages, ProofForm};
use std::alloc::{AllocError, Global};
use transcript_fs::Transcript;
use transcript_fs::laws::always_has;

/// The verdict on the case's proof that its program gives its outputs on its inputs, with the challenges of the
/// transcript of these three. It is refused as `Program` exactly where the program's text or its layout is refused so,
/// and else as `Input` or `Output` where the numbers of these differ from the circuit's, and else as `Proof` where the
/// proof's bytes spell no messages of the circuit's shape. The proof is by pairs where its fourth byte is `P`, and else by
/// lines.
pub fn verify_case(alloc: Global, case: &Case) -> Result<Verdict, Refused>
    requires outputs { IsSome case.now.outputs }
    requires proof { IsSome case.now.proof }
    ensures verdict { IfOk result (λ verdict. IsVerdictOn case.now verdict) }
    ensures refused { IfErr result (λ refused. RefusesVerify case.now refused) }
{
    let form = proof_form(case);
    let read = match read_proof(alloc, case, form) {
        Ok(read) => read,
        Err(refused) => return Err(refused),
    };
    match check_claim(alloc, case, form, &read.circuit, &read.messages, read.start) {
        Ok(verdict) => Ok(verdict),
        Err(_) => Err(Refused::Memory),
    }
}

/// The verdict of `verify_case` where the case's program is laid out as this circuit, which isn't compiled again. It is refused
/// as `verify_case` refuses such a case.
pub fn verify_laid_out(alloc: Global, case: &Case, circuit: &Circuit) -> Result<Verdict, Refused>
    requires compiled { IsCompiled case.now.lang case.now.program circuit.now.parts }
    requires counted { length case.now.inputs ≡ circuit.now.parts.inputs }
    requires outputs { IsSome case.now.outputs }
    requires proof { IsSome case.now.proof }
    ensures verdict { IfOk result (λ verdict. IsVerdictOn case.now verdict) }
    ensures refused { IfErr result (λ refused. RefusesVerify case.now refused) }
{
    let form = proof_form(case);
    let (messages, start) = match read_messages(alloc, case, form, circuit) {
        Ok(read) => read,
        Err(refused) => return Err(refused),
    };
    match check_claim(alloc, case, form, circuit, &messages, start) {
        Ok(verdict) => Ok(verdict),
        Err(_) => Err(Refused::Memory),
    }
}

/// The form that the fourth byte of the case's proof names.
fn proof_form(case: &Case) -> ProofForm
    requires { IsSome case.now.proof }
    ensures { result ≡ proof_form case.now }
{
    let Some(proof) = case.proof() else {
        unreachable!()
    };
    ProofForm::of(proof)
}

/// The verdict on the proof of a case that was read as these messages for this circuit, with challenges that start so.
fn check_claim(
    alloc: Global,
    case: &Case,
    form: ProofForm,
    circuit: &Circuit,
    messages: &Messages,
    start: Transcript,
) -> Result<Verdict, AllocError>
    requires read { IsReadAs form case.now circuit.now.parts messages.now }
    requires start { IsOwnStart form case.now start }
    ensures { IfOk result (λ verdict. IsVerdictOn case.now verdict) }
{
    let Some(outputs) = case.outputs() else {
        unreachable!()
    };
    always_has();
    let mut challenges = start;
    check_as(
        alloc,
        form,
        circuit,
        case.inputs(),
        outputs,
        messages,
        &mut challenges,
    )
}
