//! The verifier of proofs of version 2.

ghost use Rattle.std.specs.Prelude.{◌≡◌, false, ℕ, length, drop, IsTrue, IfOk};
ghost use Rattle.circuit_core.specs.Sound.{exponents};
ghost use Rattle.transcript_fs.specs.Source.{all_draws, state_after, state_after_point};
ghost use Rattle.proof_wire.specs.Lists.{all_messages};
ghost use Rattle.proof_two.specs.Lists.{HavePairs};
ghost use Rattle.gkr_layers.specs.Layers.{challenges_of};
ghost use Rattle.gkr_layers.specs.Acceptance.{claim_of, verdict_of};
ghost use Rattle.gkr_layers.specs.Soundness.{LetsPass, IsFalse};
ghost use Rattle.gkr_verify.specs.ShortProof.{filled, is_sum};

use crate::filling::fill_drawn;
use crate::verifier::check;
use circuit_core::Circuit;
use field_ext::Fp;
use gkr_layers::Verdict;
use proof_two::Pairs;
use std::alloc::{AllocError, Global};
use transcript_fs::{Challenges, Given};

/// Checks the messages of a proof of version 2, as [`crate::check`] those of one of version 1: the answer is that on the
/// messages filled in. Every sum equation holds of them, so it is never a `Sum`. All messages are taken in, whatever the
/// answer is; where no memory is found, the challenges have moved on.
pub fn check_two<C: Challenges>(
    alloc: Global,
    circuit: &Circuit,
    inputs: &[Fp],
    outputs: &[Fp],
    pairs: &Pairs,
    challenges: &mut C,
) -> Result<Verdict, AllocError>
    requires inputs { length inputs.now ≡ circuit.now.parts.inputs }
    requires outputs { length outputs.now ≡ circuit.now.parts.outputs }
    requires shape { HavePairs (drop 1 (exponents circuit.now.parts)) pairs.now.layers }
    requires has { IsTrue
        (C.source.has (C.state challenges.old) (challenges_of circuit.now.parts)) }
    ensures verdict { IfOk result (λ verdict.
        let stated = claim_of circuit.now.parts inputs.now outputs.now in
        let s = C.state challenges.old in
        let qs = all_messages (filled circuit.now.parts outputs.now C.source s pairs.now).layers in
        verdict ≡ verdict_of stated qs (all_draws C.source s stated.k qs)) }
    ensures never_sum { IfOk result (λ verdict. is_sum verdict ≡ false) }
    ensures sound { IfOk result (λ verdict.
        let stated = claim_of circuit.now.parts inputs.now outputs.now in
        let s = C.state challenges.old in
        let qs = all_messages (filled circuit.now.parts outputs.now C.source s pairs.now).layers in
        verdict ≡ Verdict.Accepted → IsFalse circuit.now.parts inputs.now outputs.now
        → (n : ℕ) × LetsPass stated qs (all_draws C.source s stated.k qs) n) }
    ensures state { IfOk result (λ verdict.
        let stated = claim_of circuit.now.parts inputs.now outputs.now in
        let s = C.state challenges.old in
        let qs = all_messages (filled circuit.now.parts outputs.now C.source s pairs.now).layers in
        C.state challenges.new ≡ state_after C.source (state_after_point C.source s stated.k) qs) }
{
    let filled = fill_drawn(alloc, circuit, outputs, pairs, challenges)?;
    let mut given = Given::of(filled.drawn);
    check(
        alloc,
        circuit,
        inputs,
        outputs,
        &filled.messages,
        &mut given,
    )
}
