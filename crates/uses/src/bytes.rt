//! A verifier over the bytes of a proof.

ghost use Rattle.std.specs.Prelude.{◌↔◌, IfOk, IsTrue};
ghost use Rattle.uses.specs.Claims.{AreCounted, SpellAccepted};

use crate::checking::check_statement;
use circuit_core::Circuit;
use gkr_layers::Verdict;
use proof_wire::{ProofRefused, decode};
use std::alloc::{AllocError, Global};
use transcript_fs::Statement;

/// Whether bytes are an accepted proof of a statement about a circuit: they spell messages of its shape, and these meet
/// every equation of acceptance.
pub fn accepts_bytes(
    alloc: Global,
    circuit: &Circuit,
    statement: &Statement,
    bytes: &[u8],
) -> Result<bool, AllocError>
    requires { AreCounted circuit.now.parts statement.now.inputs statement.now.outputs }
    ensures { IfOk result
        (λ yes. IsTrue yes ↔ SpellAccepted circuit.now.parts statement.now bytes.now) }
{
    let messages = match decode(alloc, bytes, circuit.shape()) {
        Ok(messages) => messages,
        Err(ProofRefused::Bad(_)) => return Ok(false),
        Err(ProofRefused::Memory) => return Err(AllocError),
    };
    let verdict = check_statement(alloc, circuit, statement, &messages)?;
    Ok(verdict == Verdict::Accepted)
}
