//! A statement's messages, checked.

ghost use Rattle.std.specs.Prelude.{◌≡◌, drop, IfOk};
ghost use Rattle.circuit_core.specs.Sound.{exponents};
ghost use Rattle.proof_wire.specs.declared.form.ProofForm.TheVariants.{Line};
ghost use Rattle.proof_wire.specs.Lists.{HaveShape};
ghost use Rattle.uses.specs.Claims.{AreCounted, verdict_on};

use circuit_core::Circuit;
use gkr_layers::Verdict;
use gkr_verify::check;
use proof_wire::Messages;
use std::alloc::{AllocError, Global};
use transcript_fs::laws::always_has;
use transcript_fs::{Statement, Transcript};

/// The verdict on messages about a statement, with the challenges of its own transcript.
pub(crate) fn check_statement(
    alloc: Global,
    circuit: &Circuit,
    statement: &Statement,
    messages: &Messages,
) -> Result<Verdict, AllocError>
    requires counted { AreCounted circuit.now.parts statement.now.inputs statement.now.outputs }
    requires shape { HaveShape Line (drop 1 (exponents circuit.now.parts)) messages.now.layers }
    ensures { IfOk result
        (λ verdict. verdict ≡ verdict_on circuit.now.parts statement.now messages.now) }
{
    always_has();
    let mut challenges = Transcript::start(statement);
    check(
        alloc,
        circuit,
        statement.inputs(),
        statement.outputs(),
        messages,
        &mut challenges,
    )
}
