//! The sum equations of all layers.

ghost use Rattle.std.specs.Prelude.{◌≡◌, ◌≤◌, ◌+◌, ℕ, All, length, drop, IsTrue, IfOk, IfErr, IfNone, MatchOption};
ghost use Rattle.circuit_core.specs.Sound.{exponent_at, exponents};
ghost use Rattle.transcript_fs.specs.Source.{draws, state_after, state_after_point};
ghost use Rattle.proof_wire.specs.Lists.{all_messages, messages_of, round_messages, HaveShape};
ghost use Rattle.gkr_layers.specs.declared.verdict.Verdict.TheVariants.{Accepted};
ghost use Rattle.gkr_layers.specs.Layers.{challenges_of};
ghost use Rattle.gkr_layers.specs.Equations.{first_failure, sum_equations};
ghost use Rattle.gkr_verify.specs.Rounds.{layer_failure, sum_failure};
ghost use Rattle.gkr_verify.specs.ShortProof.{next_claim, sums_from, sums_of};

use crate::filling::start;
use crate::rounds::check_rounds;
use circuit_core::Circuit;
use field_ext::{Ext, Fp};
use poly_roots::value_at;
use proof_wire::{LayerMessages, Messages, ProofForm};
use std::alloc::{AllocError, Global};
use sumcheck_verify::SumFault;
use transcript_fs::Challenges;

/// A round whose message's values at 0 and at 1 do not add to the claim before it. Layers count from 0, rounds from 1.
#[derive(Clone, Copy, Debug, PartialEq, Eq)]
pub struct LayerSum {
    pub layer: usize,
    pub round: usize,
    /// The value at 0 plus the value at 1.
    pub had: Ext,
    /// The claim before the message.
    pub claim: Ext,
}

impl LayerSum {
    /// That a round of this layer has this fault.
    fn of(layer: usize, fault: SumFault) -> LayerSum
        ensures { layer_failure result ≡ sum_failure layer fault }
    {
        LayerSum {
            layer,
            round: fault.round,
            had: fault.had,
            claim: fault.claim,
        }
    }
}

/// The first round of a proof by lines that does not add to its claim, or None where all do, with challenges from a source
/// that has enough of them: as many outputs as the circuit has, and messages of its shape. At None all messages have been
/// taken in. Err only where no memory is found.
pub fn first_sum<C: Challenges>(
    alloc: Global,
    circuit: &Circuit,
    outputs: &[Fp],
    messages: &Messages,
    challenges: &mut C,
) -> Result<Option<LayerSum>, AllocError>
    requires outputs { length outputs.now ≡ circuit.now.parts.outputs }
    requires shape { HaveShape ProofForm.Line (drop 1 (exponents circuit.now.parts))
        messages.now.layers }
    requires has { IsTrue
        (C.source.has (C.state challenges.old) (challenges_of circuit.now.parts)) }
    ensures first { IfOk result (λ found.
        let sums = sums_of circuit.now.parts outputs.now C.source (C.state challenges.old)
        messages.now in
        MatchOption found (first_failure sums ≡ Accepted)
        (λ fault. first_failure sums ≡ layer_failure fault)) }
    ensures state { IfOk result (λ found. IfNone found (C.state challenges.new
        ≡ state_after C.source (state_after_point C.source (C.state challenges.old)
        (exponent_at circuit.now.parts 0)) (all_messages messages.now.layers))) }
{
    let start = start(alloc, circuit, outputs, challenges)?;
    let mut buffers = vec![in alloc; Ext::zero(); 40]?;
    let layers = messages.layers.as_slice();
    Ok(first_of_layers(layers, start.claim, &mut buffers, challenges))
}

/// The first round that does not add to its claim, from the claim on the first layer on.
fn first_of_layers<C: Challenges>(
    layers: &[LayerMessages],
    first: Ext,
    buffers: &mut [Ext],
    challenges: &mut C,
) -> Option<LayerSum>
    requires few { All (λ layer. length layer.rounds ≤ 40) layers.now }
    requires buffers { length buffers.old ≡ 40 }
    requires has { IsTrue
        (C.source.has (C.state challenges.old) (length (all_messages layers.now))) }
    ensures first { let sums = sums_from C.source 0 (C.state challenges.old) first layers.now in
        MatchOption result (first_failure sums ≡ Accepted)
        (λ fault. first_failure sums ≡ layer_failure fault) }
    ensures state { IfNone result (C.state challenges.new ≡ state_after C.source
        (C.state challenges.old) (all_messages layers.now)) }
{
    let mut claim = first;
    for (layer, messages) in layers.iter().enumerate() {
        match sums_of_layer(messages, claim, buffers, challenges) {
            Ok(next) => claim = next,
            Err(fault) => return Some(LayerSum::of(layer, fault)),
        }
    }
    None
}

/// The claim on the layer below, or the first round that does not add to its claim.
fn sums_of_layer<C: Challenges>(
    messages: &LayerMessages,
    claim: Ext,
    buffers: &mut [Ext],
    challenges: &mut C,
) -> Result<Ext, SumFault>
    requires few { length messages.now.rounds ≤ 40 }
    requires buffers { length buffers.old ≡ 40 }
    requires has { IsTrue
        (C.source.has (C.state challenges.old) (length (messages_of messages.now))) }
    ensures holds { IfOk result (λ next. (number : ℕ) →
        let qs = round_messages messages.now.rounds in
        first_failure (sum_equations number 1 claim qs (draws C.source (C.state challenges.old) qs))
        ≡ Accepted) }
    ensures claim { IfOk result (λ next. next ≡ next_claim C.source (C.state challenges.old)
        messages.now) }
    ensures state { IfOk result (λ next. C.state challenges.new ≡ state_after C.source
        (C.state challenges.old) (messages_of messages.now)) }
    ensures fails { IfErr result (λ fault. (number : ℕ) →
        let qs = round_messages messages.now.rounds in
        first_failure (sum_equations number 1 claim qs (draws C.source (C.state challenges.old) qs))
        ≡ sum_failure number fault) }
{
    let rounds = messages.rounds.as_slice();
    let (drawn, _) = buffers.split_at_mut(rounds.len());
    check_rounds(rounds, claim, drawn, challenges)?;
    let last = messages.last.as_slice();
    challenges.absorb(last);
    Ok(value_at(last, challenges.challenge()))
}
