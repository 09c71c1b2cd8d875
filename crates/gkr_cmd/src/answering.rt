//! The replies to a case's text.

ghost use Rattle.std.specs.Prelude.{◌≡◌, ◌≢◌, IfOk};
ghost use Rattle.phase_run.specs.Work.{IsWorkerCount};
ghost use Rattle.case_text.specs.Forms.{Allows};
ghost use Rattle.case_text.specs.declared.case.form.Form.TheVariants.{Full, Plain};
ghost use Rattle.gkr_cmd.specs.Replies.{form_of, IsAnswer, IsAuditAnswer, IsCaseReply, IsCircuitAnswer, IsConvertAnswer, IsEvalAnswer, IsVerifyAnswer, IsWithinLimit};
ghost use Rattle.case_prove.specs.Answers.{IsProveAnswer};

use crate::reply_error::ReplyError;
use crate::reported::{audit_lines, refused_reply, sum_line, verdict_line};
use case_prove::{
    Converted, audit_case, circuit_case, convert_case, eval_case, prove_case, prove_case_alone,
    verify_case,
};
use case_text::{Case, CaseRefused, Form, Outputs, Reply, read_case};
use gkr_words::CaseCommand;
use io_edge::Gate;
use proof_two::{ProofKind, ProofVersion};
use std::alloc::Global;
use std::marker::Sync;
use std::thread::Threads;

/// The reply of a command on a case to an input that isn't too long. The calling thread makes a
/// proof, whatever number of workers the command has.
#[tactic(auto, using(crate::proofs::Replied::answered))]
pub fn answer(alloc: Global, command: CaseCommand, input: &[u8]) -> Result<Reply, ReplyError>
    requires limit { IsWithinLimit input.now }
    ensures reply { IfOk result (λ reply. IsCaseReply (form_of command)
        (IsAnswer command) input.now reply) }
    ensures fault { result ≢ Err ReplyError.ReadFault }
{
    let case = match read_case(alloc, input, form_of(command)) {
        Ok(case) => case,
        Err(CaseRefused::Bad(bad)) => return Ok(Reply::Case(bad)),
        Err(CaseRefused::Memory) => return Err(ReplyError::Memory),
    };
    answer_case(alloc, command, &case)
}

/// The reply of `prove` by so many workers to an input that isn't too long.
#[tactic(auto, using(crate::proofs::Replied::answered))]
pub fn answer_prove<R: Threads + Sync, G: Gate>(
    rt: &R,
    alloc: Global,
    kind: ProofKind,
    workers: u32,
    input: &[u8],
    gate: &G,
) -> Result<Reply, ReplyError>
    requires workers { IsWorkerCount workers }
    requires limit { IsWithinLimit input.now }
    ensures reply { IfOk result (λ reply. IsCaseReply Plain (IsProveAnswer kind) input.now reply) }
    ensures fault { result ≢ Err ReplyError.ReadFault }
{
    let case = match read_case(alloc, input, Form::Plain) {
        Ok(case) => case,
        Err(CaseRefused::Bad(bad)) => return Ok(Reply::Case(bad)),
        Err(CaseRefused::Memory) => return Err(ReplyError::Memory),
    };
    prove(rt, alloc, &case, kind, workers, gate)
}

/// The form of the case that a command reads.
fn form_of(command: CaseCommand) -> Form
    ensures { result ≡ form_of command }
{
    match command {
        CaseCommand::Eval | CaseCommand::Circuit | CaseCommand::Prove { .. } => Form::Plain,
        CaseCommand::Verify | CaseCommand::Audit | CaseCommand::Convert(_) => Form::Full,
    }
}

/// What a command says of a case.
fn answer_case(alloc: Global, command: CaseCommand, case: &Case) -> Result<Reply, ReplyError>
    requires outputs { Allows (form_of command) case.now.outputs }
    requires proof { Allows (form_of command) case.now.proof }
    ensures reply { IfOk result (λ reply. IsAnswer command case.now reply) }
    ensures fault { result ≢ Err ReplyError.ReadFault }
{
    match command {
        CaseCommand::Eval => evaluate(alloc, case),
        CaseCommand::Circuit => lay_out(alloc, case),
        CaseCommand::Prove { workers: _, kind } => prove_alone(alloc, case, kind),
        CaseCommand::Verify => verify(alloc, case),
        CaseCommand::Audit => audit(alloc, case),
        CaseCommand::Convert(version) => convert(alloc, case, version),
    }
}

/// What `eval` says of a case.
#[tactic(auto, using(crate::proofs::Replied::eval_refused))]
fn evaluate(alloc: Global, case: &Case) -> Result<Reply, ReplyError>
    ensures reply { IfOk result (λ reply. IsEvalAnswer case.now reply) }
    ensures fault { result ≢ Err ReplyError.ReadFault }
{
    match eval_case(alloc, case) {
        Ok(outputs) => Ok(Reply::Outputs(Outputs::new(outputs))),
        Err(refused) => refused_reply(refused),
    }
}

/// What `circuit` says of a case.
#[tactic(auto, using(crate::proofs::Replied::circuit_refused))]
fn lay_out(alloc: Global, case: &Case) -> Result<Reply, ReplyError>
    ensures reply { IfOk result (λ reply. IsCircuitAnswer case.now reply) }
    ensures fault { result ≢ Err ReplyError.ReadFault }
{
    match circuit_case(alloc, case) {
        Ok(sizes) => Ok(Reply::Circuit(sizes)),
        Err(refused) => refused_reply(refused),
    }
}

/// What `prove` says of a case, with a proof of this kind that so many workers make.
#[tactic(auto, using(crate::proofs::Replied::prove_refused))]
fn prove<R: Threads + Sync, G: Gate>(
    rt: &R,
    alloc: Global,
    case: &Case,
    kind: ProofKind,
    workers: u32,
    gate: &G,
) -> Result<Reply, ReplyError>
    requires { IsWorkerCount workers }
    ensures reply { IfOk result (λ reply. IsProveAnswer kind case.now reply) }
    ensures fault { result ≢ Err ReplyError.ReadFault }
{
    match prove_case(rt, alloc, case, kind, workers, gate) {
        Ok(proved) => Ok(Reply::Proved(proved)),
        Err(refused) => refused_reply(refused),
    }
}

/// What `prove` says of a case, with a proof of this kind that the calling thread makes.
#[tactic(auto, using(crate::proofs::Replied::prove_refused))]
fn prove_alone(alloc: Global, case: &Case, kind: ProofKind) -> Result<Reply, ReplyError>
    ensures reply { IfOk result (λ reply. IsProveAnswer kind case.now reply) }
    ensures fault { result ≢ Err ReplyError.ReadFault }
{
    match prove_case_alone(alloc, case, kind) {
        Ok(made) => Ok(Reply::Proved(made)),
        Err(refused) => refused_reply(refused),
    }
}

/// What `verify` says of a case.
#[tactic(auto, using(crate::proofs::Replied::verdict_replied, crate::proofs::Replied::verify_refused, crate::proofs::Replied::full_has))]
fn verify(alloc: Global, case: &Case) -> Result<Reply, ReplyError>
    requires outputs { Allows Full case.now.outputs }
    requires proof { Allows Full case.now.proof }
    ensures reply { IfOk result (λ reply. IsVerifyAnswer case.now reply) }
    ensures fault { result ≢ Err ReplyError.ReadFault }
{
    match verify_case(alloc, case) {
        Ok(verdict) => Ok(Reply::Verdict(verdict_line(verdict))),
        Err(refused) => refused_reply(refused),
    }
}

/// What `audit` says of a case.
#[tactic(auto, using(crate::proofs::Replied::audit_replied, crate::proofs::Replied::audit_refused, crate::proofs::Replied::full_has))]
fn audit(alloc: Global, case: &Case) -> Result<Reply, ReplyError>
    requires outputs { Allows Full case.now.outputs }
    requires proof { Allows Full case.now.proof }
    ensures reply { IfOk result (λ reply. IsAuditAnswer case.now reply) }
    ensures fault { result ≢ Err ReplyError.ReadFault }
{
    match audit_case(alloc, case) {
        Ok(audit) => Ok(Reply::Audit(audit_lines(audit))),
        Err(refused) => refused_reply(refused),
    }
}

/// What `convert` says of a case, whose proof is to be written in this version.
#[tactic(auto, using(crate::proofs::Replied::convert_refused, crate::proofs::Replied::full_has))]
fn convert(alloc: Global, case: &Case, version: ProofVersion) -> Result<Reply, ReplyError>
    requires outputs { Allows Full case.now.outputs }
    requires proof { Allows Full case.now.proof }
    ensures reply { IfOk result (λ reply. IsConvertAnswer version case.now reply) }
    ensures fault { result ≢ Err ReplyError.ReadFault }
{
    match convert_case(alloc, case, version) {
        Ok(Converted::Case(written)) => Ok(Reply::Proved(written)),
        Ok(Converted::Sum(fault)) => Ok(Reply::Verdict(sum_line(fault))),
        Err(refused) => refused_reply(refused),
    }
}
