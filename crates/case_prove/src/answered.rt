//! A case and the reply of `prove` to it.

ghost use Rattle.std.specs.Prelude.{◌≡◌, IfOk};
ghost use Rattle.phase_run.specs.Work.{IsWorkerCount};
ghost use Rattle.case_text.specs.Content.{Content};
ghost use Rattle.proof_two.specs.declared.kind.ProofKind.TheVariants.{ByLines};
ghost use Rattle.proof_two.specs.declared.kind.ProofVersion.TheVariants.{One};
ghost use Rattle.case_prove.specs.Answers.{IsAnswered, IsProveAnswer, is_proved_case};
ghost use Rattle.case_prove.specs.Circuits.{RefusesCircuit};

use crate::proving::prove_case;
use crate::refused::Refused;
use arr_compile::BadProgram;
use case_text::{Case, Reply, write_reply};
use io_edge::Gate;
use proof_two::{ProofKind, ProofVersion};
use std::alloc::{AllocError, Global};
use std::marker::{Model, Sync};
use std::snapshot::Snapshot;
use std::thread::Threads;

/// A case, which contracts alone see, with the bytes that `prove` writes for it, with a proof of version 1.
#[derive(Drop)]
pub struct Answered {
    case: Snapshot<Case>,
    proved: bool,
    text: Vec<u8>,
}

impl Model for Answered {
    ghost use Rattle.case_prove.specs.Answers.{AnsweredView, IsAnswered};

    ghost Value = { AnsweredView };

    ghost view = { λ a. record { case = a.case.value; proved = a.proved; text = a.text.items } };

    ghost invariant = { λ a. IsAnswered a.case.value a.proved a.text.items };
}

impl Answered {
    /// Whether the case was proved, and not refused.
    pub fn proved(&self) -> bool
        ensures proved { result ≡ self.now.proved }
        ensures answered { IsAnswered self.now.case self.now.proved self.now.text }
    {
        self.proved
    }

    /// The lines of the reply, each with its LF.
    pub fn into_text(self) -> Vec<u8>
        ensures { result.items ≡ self.text }
    {
        self.text
    }
}

/// The case with the reply of `prove` to it, which is the case with its proof of version 1 or a refusal.
pub fn answer_case<R: Threads + Sync, G: Gate>(
    rt: &R,
    alloc: Global,
    case: &Case,
    workers: u32,
    gate: &G,
) -> Result<Answered, AllocError>
    requires workers { IsWorkerCount workers }
    ensures { IfOk result (λ answered. answered.case ≡ case.now) }
{
    let reply = prove_reply(rt, alloc, case, workers, gate)?;
    let proved = is_proved_case(&reply);
    let text = write_reply(alloc, &reply)?;
    Ok(Answered {
        case: Snapshot::of(case),
        proved,
        text,
    })
}

/// What `prove` says of a case.
fn prove_reply<R: Threads + Sync, G: Gate>(
    rt: &R,
    alloc: Global,
    case: &Case,
    workers: u32,
    gate: &G,
) -> Result<Reply, AllocError>
    requires workers { IsWorkerCount workers }
    ensures { IfOk result (λ reply. IsProveAnswer (ByLines One) case.now reply) }
{
    let kind = ProofKind::ByLines(ProofVersion::One);
    match prove_case(rt, alloc, case, kind, workers, gate) {
        Ok(proved) => Ok(Reply::Proved(proved)),
        Err(refused) => refused_reply(refused),
    }
}

/// Whether the reply is a case with its proof.
fn is_proved_case(reply: &Reply) -> bool
    ensures { result ≡ is_proved_case reply.now }
{
    match reply {
        Reply::Proved(_) => true,
        _ => false,
    }
}

/// The reply to a case that is refused.
fn refused_reply(refused: Refused) -> Result<Reply, AllocError>
    ensures { (c : Content) → RefusesCircuit c refused
        → IfOk result (λ reply. IsProveAnswer (ByLines One) c reply) }
{
    match refused {
        Refused::Program(BadProgram::At { at, kind }) => Ok(Reply::Program { kind, at }),
        Refused::Program(BadProgram::Deep { levels }) => Ok(Reply::Deep { levels }),
        Refused::Program(BadProgram::Wide { height, width }) => Ok(Reply::Wide { height, width }),
        Refused::Input { have, need } => Ok(Reply::InputCount { have, need }),
        Refused::Output { have, need } => Ok(Reply::OutputCount { have, need }),
        Refused::Proof(bad) => Ok(Reply::Proof(bad)),
        Refused::Memory => Err(AllocError),
    }
}
