//! The verifier.

ghost use Rattle.std.specs.Prelude.{◌≡◌, ℕ, length, drop, IsTrue, IfOk, IfErr};
ghost use Rattle.circuit_core.specs.Sound.{exponents};
ghost use Rattle.transcript_fs.specs.Source.{all_draws};
ghost use Rattle.gkr_layers.specs.Acceptance.{claim_in, claim_of, verdict_of, answer_from, challenge_count};
ghost use Rattle.proof_wire.specs.Lists.{all_messages, HaveShape};
ghost use Rattle.gkr_layers.specs.Soundness.{LetsPass, IsFalse};

use crate::buffers::CheckBuffers;
use circuit_core::Circuit;
use field_ext::Fp;
use gkr_layers::Verdict;
use pair_reduce::PairMessages;
use proof_wire::{Messages, ProofForm};
use std::alloc::{AllocError, Global};
use transcript_fs::Challenges;

/// Checks the messages of a proof by lines that the circuit on these inputs has these outputs: as many of both as the circuit
/// has, messages of its shape, and challenges from a source that has enough of them. The answer is the first equation that
/// fails, or `Accepted`. Each message is taken in once its equation holds: at `Accepted` all are, and else those before the
/// equation that fails. The runs of each layer's gates are found first, and a layer that has few of them is gone over by its
/// runs and not by its gates. Memory is taken before the first challenge is drawn, and none later; Err only where none is
/// found.
pub fn check<C: Challenges>(
    alloc: Global,
    circuit: &Circuit,
    inputs: &[Fp],
    outputs: &[Fp],
    messages: &Messages,
    challenges: &mut C,
) -> Result<Verdict, AllocError>
    requires inputs { length inputs.now ≡ circuit.now.parts.inputs }
    requires outputs { length outputs.now ≡ circuit.now.parts.outputs }
    requires shape { HaveShape ProofForm.Line (drop 1 (exponents circuit.now.parts))
        messages.now.layers }
    requires has { IsTrue (C.source.has (C.state challenges.old)
        (challenge_count (claim_of circuit.now.parts inputs.now outputs.now))) }
    ensures verdict { IfOk result (λ verdict.
        let stated = claim_of circuit.now.parts inputs.now outputs.now in
        let qs = all_messages messages.now.layers in
        verdict ≡ verdict_of stated qs (all_draws C.source (C.state challenges.old) stated.k qs)) }
    ensures sound { IfOk result (λ verdict.
        let stated = claim_of circuit.now.parts inputs.now outputs.now in
        let qs = all_messages messages.now.layers in
        verdict ≡ Verdict.Accepted → IsFalse circuit.now.parts inputs.now outputs.now
        → (n : ℕ) × LetsPass stated qs (all_draws C.source (C.state challenges.old) stated.k qs)
        n) }
    ensures state { IfOk result (λ verdict.
        let stated = claim_of circuit.now.parts inputs.now outputs.now in
        let qs = all_messages messages.now.layers in
        C.state challenges.new ≡ (answer_from stated C.source (C.state challenges.old) qs).state) }
    ensures memory { IfErr result (λ _. C.state challenges.new ≡ C.state challenges.old) }
{
    check_as(
        alloc,
        ProofForm::Line,
        circuit,
        inputs,
        outputs,
        messages,
        challenges,
    )
}

/// Checks the messages of a proof by pairs, as [`check`] those of one by lines: the end of a layer by the pair, and the
/// claim on the layer below at both operands' points.
pub fn check_pair<C: Challenges>(
    alloc: Global,
    circuit: &Circuit,
    inputs: &[Fp],
    outputs: &[Fp],
    messages: &PairMessages,
    challenges: &mut C,
) -> Result<Verdict, AllocError>
    requires inputs { length inputs.now ≡ circuit.now.parts.inputs }
    requires outputs { length outputs.now ≡ circuit.now.parts.outputs }
    requires shape { HaveShape ProofForm.Pair (drop 1 (exponents circuit.now.parts))
        messages.now.layers }
    requires has { IsTrue (C.source.has (C.state challenges.old)
        (challenge_count (claim_in ProofForm.Pair circuit.now.parts inputs.now outputs.now))) }
    ensures verdict { IfOk result (λ verdict.
        let stated = claim_in ProofForm.Pair circuit.now.parts inputs.now outputs.now in
        let qs = all_messages messages.now.layers in
        verdict ≡ verdict_of stated qs (all_draws C.source (C.state challenges.old) stated.k qs)) }
    ensures sound { IfOk result (λ verdict.
        let stated = claim_in ProofForm.Pair circuit.now.parts inputs.now outputs.now in
        let qs = all_messages messages.now.layers in
        verdict ≡ Verdict.Accepted → IsFalse circuit.now.parts inputs.now outputs.now
        → (n : ℕ) × LetsPass stated qs (all_draws C.source (C.state challenges.old) stated.k qs)
        n) }
    ensures state { IfOk result (λ verdict.
        let stated = claim_in ProofForm.Pair circuit.now.parts inputs.now outputs.now in
        let qs = all_messages messages.now.layers in
        C.state challenges.new ≡ (answer_from stated C.source (C.state challenges.old) qs).state) }
    ensures memory { IfErr result (λ _. C.state challenges.new ≡ C.state challenges.old) }
{
    check_as(
        alloc,
        ProofForm::Pair,
        circuit,
        inputs,
        outputs,
        messages,
        challenges,
    )
}

/// Checks the messages of a proof of this form, as [`check`] those of one by lines.
pub fn check_as<C: Challenges>(
    alloc: Global,
    form: ProofForm,
    circuit: &Circuit,
    inputs: &[Fp],
    outputs: &[Fp],
    messages: &Messages,
    challenges: &mut C,
) -> Result<Verdict, AllocError>
    requires inputs { length inputs.now ≡ circuit.now.parts.inputs }
    requires outputs { length outputs.now ≡ circuit.now.parts.outputs }
    requires shape { HaveShape form (drop 1 (exponents circuit.now.parts)) messages.now.layers }
    requires has { IsTrue (C.source.has (C.state challenges.old)
        (challenge_count (claim_in form circuit.now.parts inputs.now outputs.now))) }
    ensures verdict { IfOk result (λ verdict.
        let stated = claim_in form circuit.now.parts inputs.now outputs.now in
        let qs = all_messages messages.now.layers in
        verdict ≡ verdict_of stated qs (all_draws C.source (C.state challenges.old) stated.k qs)) }
    ensures sound { IfOk result (λ verdict.
        let stated = claim_in form circuit.now.parts inputs.now outputs.now in
        let qs = all_messages messages.now.layers in
        verdict ≡ Verdict.Accepted → IsFalse circuit.now.parts inputs.now outputs.now
        → (n : ℕ) × LetsPass stated qs (all_draws C.source (C.state challenges.old) stated.k qs)
        n) }
    ensures state { IfOk result (λ verdict.
        let stated = claim_in form circuit.now.parts inputs.now outputs.now in
        let qs = all_messages messages.now.layers in
        C.state challenges.new ≡ (answer_from stated C.source (C.state challenges.old) qs).state) }
    ensures memory { IfErr result (λ _. C.state challenges.new ≡ C.state challenges.old) }
{
    let mut buffers = CheckBuffers::new(alloc, circuit)?;
    let verdict = buffers.check(
        form,
        circuit,
        inputs,
        outputs,
        messages.layers.as_slice(),
        challenges,
    );
    Ok(verdict)
}
