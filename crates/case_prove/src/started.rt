//! The challenges of a proof.

ghost use Rattle.std.specs.Prelude.{◌≡◌, ◌<◌, ◌^◌, length};
ghost use Rattle.case_prove.specs.Started.{start_of};

use case_text::Case;
use field_ext::Fp;
use proof_wire::ProofForm;
use transcript_fs::{Statement, Transcript};

/// The transcript of the case's program and inputs and of these outputs, which starts the challenges of a proof of this form.
pub(crate) fn transcript_of(case: &Case, form: ProofForm, outputs: &[Fp]) -> Transcript
    requires { length outputs.now < 2 ^ 32 }
    ensures { result ≡ start_of form case.now.program case.now.inputs outputs.now }
{
    let statement = Statement::of(case.program(), case.inputs(), outputs);
    match form {
        ProofForm::Line => Transcript::start(&statement),
        ProofForm::Pair => Transcript::start_pair(&statement),
    }
}
