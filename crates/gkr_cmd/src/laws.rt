//! What holds of replies by their definitions alone.

ghost use Rattle.std.specs.Prelude.{◌≡◌, ◌≢◌, ◌<◌, ◌≤◌, ◌^◌, ◌↔◌, List, ℕ, [], ◌∷◌, None, Some, codes, decimal};
ghost use Rattle.case_text.specs.Content.{Content};
ghost use Rattle.case_text.specs.declared.case.form.Form.TheVariants.{Full, Plain};
ghost use Rattle.case_text.specs.declared.reply.Reply.{Reply};
ghost use Rattle.gkr_cmd.specs.declared.status.Status.TheVariants.{Done};
ghost use Rattle.gkr_cmd.specs.Replies.{IsAuditAnswer, IsCaseReply, IsCircuitAnswer, IsConvertAnswer, IsDemoAnswer, IsEvalAnswer, IsVerifyAnswer, IsOfCase, IsOfSession, IsReply, IsSessionReply, status_of};
ghost use Rattle.proof_two.specs.declared.kind.ProofKind.{ProofKind};
ghost use Rattle.proof_two.specs.declared.kind.ProofVersion.{ProofVersion};
ghost use Rattle.case_prove.specs.Answers.{IsProveAnswer};
ghost use Rattle.case_prove.specs.Converted.{IsConverted};
ghost use Rattle.case_prove.specs.Verified.{HasAcceptedProof};
ghost use Rattle.gkr_cmd.specs.Runs.{HasCircuit, HasLineProof, HasWords, IsConvertible, IsEvaluable};
ghost use Rattle.gkr_cmd.specs.Demo.{demo_case};
ghost use Rattle.gkr_words.specs.Commands.{PrintsHistory, command_of};

use arr_compile::laws::{
    accepted_or_refused, circuit_computes, compiled_or_refused, one_circuit, one_circuit_refusal,
    one_refusal, one_tree,
};
use case_prove::laws::{audit_is_one, converted_keeps, one_saying, proved_is_one};
use session_prove::laws::one_session;

/// Words and an input have at most one reply, but where the words ask for a history, which the schedule chooses.
pub fn one_reply()
    ensures { (words : List (List ℕ)) (input : List ℕ) (a b : Reply)
        → ¬ PrintsHistory (command_of words) → IsReply words input a → IsReply words input b
        → a ≡ b }
{
    one_tree();
    one_refusal();
    accepted_or_refused();
    one_circuit();
    one_circuit_refusal();
    compiled_or_refused();
    one_saying();
    circuit_computes();
    proved_is_one();
    audit_is_one();
    converted_keeps();
    one_session();
}

/// The reply to a case with an accepted program and as many inputs as it needs is its outputs.
pub fn evaluable_is_done()
    ensures { (input : List ℕ) (reply : Reply) → IsCaseReply Plain IsEvalAnswer input reply
        → IsOfCase Plain input IsEvaluable → status_of reply ≡ Done }
{
    one_tree();
    one_refusal();
    accepted_or_refused();
}

/// The reply to a case whose program has a circuit with as many inputs is the circuit's sizes.
pub fn laid_out_is_done()
    ensures { (input : List ℕ) (reply : Reply) → IsCaseReply Plain IsCircuitAnswer input reply
        → IsOfCase Plain input HasCircuit → status_of reply ≡ Done }
{
    one_circuit();
    one_circuit_refusal();
    compiled_or_refused();
}

/// The reply of `prove` to a case whose program has a circuit with as many inputs is the case with
/// the proof.
pub fn provable_is_done()
    ensures { (kind : ProofKind) (input : List ℕ) (reply : Reply)
        → IsCaseReply Plain (IsProveAnswer kind) input reply
        → IsOfCase Plain input HasCircuit → status_of reply ≡ Done }
{
    one_circuit();
    one_circuit_refusal();
    compiled_or_refused();
}

/// The reply of `session` to a case whose program has a circuit with as many inputs, with two words for each challenge, is the
/// session's sizes.
pub fn session_is_done()
    ensures { (input : List ℕ) (reply : Reply) → IsSessionReply input reply
        → IsOfSession input HasWords → status_of reply ≡ Done }
{
    one_circuit();
    one_circuit_refusal();
    compiled_or_refused();
}

/// The reply of `demo` sums up a proof that is accepted.
pub fn demo_is_done()
    ensures { (number : ℕ) (reply : Reply) → IsDemoAnswer number reply → status_of reply ≡ Done }
{}

/// The case of every number has a circuit, with as many inputs.
pub fn demo_has_circuit()
    ensures { (number : ℕ) → HasCircuit (demo_case number) }
{}

/// The reply to a case whose proof meets every equation of acceptance is that it is accepted.
pub fn accepted_is_done()
    ensures { (input : List ℕ) (reply : Reply) → IsCaseReply Full IsVerifyAnswer input reply
        → IsOfCase Full input HasAcceptedProof → status_of reply ≡ Done }
{
    one_circuit();
    one_circuit_refusal();
    compiled_or_refused();
    one_saying();
}

/// The reply of `audit` to a case with a proof by lines is its audit, whatever the verdict.
pub fn audited_is_done()
    ensures { (input : List ℕ) (reply : Reply) → IsCaseReply Full IsAuditAnswer input reply
        → IsOfCase Full input HasLineProof → status_of reply ≡ Done }
{
    one_circuit();
    one_circuit_refusal();
    compiled_or_refused();
    one_saying();
}

/// The reply of `convert` to a case that can be converted is the case that is written.
pub fn convertible_is_done()
    ensures { (version : ProofVersion) (input : List ℕ) (reply : Reply)
        → IsCaseReply Full (IsConvertAnswer version) input reply
        → IsOfCase Full input (IsConvertible version) → status_of reply ≡ Done }
{
    one_circuit();
    one_circuit_refusal();
    compiled_or_refused();
    one_saying();
}

/// To what `convert` writes of a case `verify` replies what it replies to the case.
pub fn converted_replies_alike()
    ensures { (version : ProofVersion) (c written : Content) → IsConverted version c written
        → (reply : Reply) → IsVerifyAnswer c reply ↔ IsVerifyAnswer written reply }
{
    one_circuit();
    one_circuit_refusal();
    compiled_or_refused();
    one_saying();
    converted_keeps();
}
