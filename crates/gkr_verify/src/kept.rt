//! One layer, where the places of the claims on it and on the layer below are kept.

ghost use Rattle.std.specs.Prelude.{◌≡◌, ◌<◌, ◌≤◌, ◌+◌, ◌*◌, suc, List, ◌∷◌, ◌++◌, length, IsTrue, IfOk, IfErr};
ghost use Rattle.field_ext.specs.Field.{K, k_ops};
ghost use Rattle.circuit_core.specs.Parts.{height};
ghost use Rattle.circuit_core.specs.Sound.{exponent_at};
ghost use Rattle.gkr_layers.specs.Layers.{GateLayer, layer_at};
ghost use Rattle.transcript_fs.specs.Source.{draws, state_after};
ghost use Rattle.gkr_layers.specs.Equations.{equations, answer};
ghost use Rattle.proof_wire.specs.Lists.{messages_of, HasShape};
ghost use Rattle.gkr_layers.specs.Forms.{place_between};
ghost use Rattle.gkr_layers.specs.ClaimPlace.{place_of};
ghost use Rattle.gkr_verify.specs.Kept.{kept_place};
ghost use Rattle.run_wiring.specs.CircuitRuns.{IsWiringOf};

use crate::layer::{NextClaim, check_layer};
use circuit_core::Circuit;
use field_ext::Ext;
use gkr_layers::{ClaimPlace, Verdict};
use line_reduce::point_at;
use proof_wire::{LayerMessages, ProofForm};
use run_wiring::LayerWiring;
use transcript_fs::Challenges;

/// Checks the messages of a layer against the claim, whose place `kept` holds in the form `at`. Where its equations hold, it
/// gives the claim on the layer below and leaves that claim's place in `kept`.
pub(crate) fn check_kept<C: Challenges>(
    form: ProofForm,
    at: ProofForm,
    circuit: &Circuit,
    layer: usize,
    wiring: &LayerWiring,
    messages: &LayerMessages,
    claim: NextClaim,
    kept: &mut [Ext],
    drawn: &mut [Ext],
    challenges: &mut C,
) -> Result<NextClaim, Verdict>
    requires layer { layer < height circuit.now.parts }
    requires wiring { IsWiringOf circuit.now.parts layer wiring.now }
    requires shape { HasShape form (exponent_at circuit.now.parts (layer + 1)) messages.now }
    requires kept { length kept.old ≡ 40 }
    requires drawn { length drawn.old ≡ 40 }
    requires has { IsTrue (C.source.has (C.state challenges.old)
        (exponent_at circuit.now.parts (layer + 1) + exponent_at circuit.now.parts (layer + 1) +
        1)) }
    ensures holds { IfOk result
        (λ next. (below : List GateLayer) (input : List K) (qs : List (List K)) →
        answer C.source (C.state challenges.old)
        (equations form layer (layer_at circuit.now.parts layer ∷ below) input
        (kept_place at (exponent_at circuit.now.parts layer) claim.challenge kept.old) claim.value
        (messages_of messages.now ++ qs)
        (draws C.source (C.state challenges.old) (messages_of messages.now ++ qs)))
        (messages_of messages.now ++ qs)
        ≡ answer C.source (C.state challenges.new)
        (equations form (suc layer) below input
        (kept_place form (exponent_at circuit.now.parts (layer + 1)) next.challenge kept.new)
        next.value qs (draws C.source (C.state challenges.new) qs)) qs) }
    ensures state { IfOk result
        (λ next. C.state challenges.new ≡ state_after C.source (C.state challenges.old)
        (messages_of messages.now)) }
    ensures fails { IfErr result
        (λ verdict. (below : List GateLayer) (input : List K) (qs : List (List K)) →
        answer C.source (C.state challenges.old)
        (equations form layer (layer_at circuit.now.parts layer ∷ below) input
        (kept_place at (exponent_at circuit.now.parts layer) claim.challenge kept.old) claim.value
        (messages_of messages.now ++ qs)
        (draws C.source (C.state challenges.old) (messages_of messages.now ++ qs)))
        (messages_of messages.now ++ qs)
        ≡ record { verdict = verdict; state = C.state challenges.new }) }
{
    let place = place_kept(at, circuit.coordinates(layer), claim.challenge, kept);
    let k = circuit.coordinates(layer + 1);
    let (drawn, _) = drawn.split_at_mut(2 * k);
    let next = check_layer(
        form,
        circuit,
        layer,
        wiring,
        messages,
        claim.value,
        &place,
        drawn,
        challenges,
    )?;
    let (left, right) = drawn.split_at(k);
    keep_place(form, left, right, next.challenge, kept);
    Ok(next)
}

/// The place that is kept on a layer of `k` coordinates.
pub(crate) fn place_kept(at: ProofForm, k: usize, weight: Ext, kept: &[Ext]) -> ClaimPlace<'_>
    requires { k + k ≤ length kept.now }
    ensures { place_of result ≡ kept_place at k weight kept.now }
{
    let (first, rest) = kept.split_at(k);
    match at {
        ProofForm::Line => ClaimPlace::One(first),
        ProofForm::Pair => ClaimPlace::Both(first, rest.split_at(k).0, weight),
    }
}

/// Keeps where the claim on the layer below is, for the points of its operands and the challenge after the last message.
fn keep_place(form: ProofForm, left: &[Ext], right: &[Ext], challenge: Ext, kept: &mut [Ext])
    requires end { length right.now ≡ length left.now }
    requires capacity { length left.now + length left.now ≤ length kept.old }
    ensures { kept_place form (length left.now) challenge kept.new
        ≡ place_between k_ops form left.now right.now challenge }
{
    let (first, rest) = kept.split_at_mut(left.len());
    match form {
        ProofForm::Line => point_at(left, right, challenge, first),
        ProofForm::Pair => {
            first.copy_from_slice(left);
            rest.split_at_mut(right.len()).0.copy_from_slice(right);
        }
    }
}
