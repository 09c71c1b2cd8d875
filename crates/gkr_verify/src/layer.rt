//! One layer.

ghost use Rattle.std.specs.Prelude.{◌≡◌, ◌<◌, ◌+◌, suc, List, ◌∷◌, ◌++◌, length, take, drop, IsTrue, IfOk, IfErr};
ghost use Rattle.field_ext.specs.Field.{K, k_ops};
ghost use Rattle.circuit_core.specs.Parts.{height};
ghost use Rattle.circuit_core.specs.Sound.{exponent_at};
ghost use Rattle.gkr_layers.specs.Layers.{GateLayer, layer_at};
ghost use Rattle.transcript_fs.specs.Source.{draws, state_after};
ghost use Rattle.gkr_layers.specs.Equations.{equations, answer};
ghost use Rattle.proof_wire.specs.Lists.{messages_of, HasShape};
ghost use Rattle.gkr_layers.specs.Places.{IsOver};
ghost use Rattle.gkr_layers.specs.Forms.{place_between};
ghost use Rattle.gkr_layers.specs.ClaimPlace.{place_of};
ghost use Rattle.run_wiring.specs.CircuitRuns.{IsWiringOf};

use crate::end::end_value;
use crate::rounds::check_rounds;
use circuit_core::Circuit;
use field_ext::Ext;
use gkr_layers::{ClaimPlace, Verdict};
use poly_roots::value_at;
use proof_wire::{LayerMessages, ProofForm};
use run_wiring::LayerWiring;
use transcript_fs::Challenges;

/// The claim on the layer below, and the challenge that says where it is.
#[derive(Clone, Copy)]
pub(crate) struct NextClaim {
    pub(crate) value: Ext,
    pub(crate) challenge: Ext,
}

/// Checks the messages of a layer against the claim. Where its equations hold, it gives the claim on the layer below,
/// which is between the points of the two operands, whose coordinates it leaves in `drawn`.
pub(crate) fn check_layer<C: Challenges>(
    form: ProofForm,
    circuit: &Circuit,
    layer: usize,
    wiring: &LayerWiring,
    messages: &LayerMessages,
    claim: Ext,
    place: &ClaimPlace<'_>,
    drawn: &mut [Ext],
    challenges: &mut C,
) -> Result<NextClaim, Verdict>
    requires layer { layer < height circuit.now.parts }
    requires wiring { IsWiringOf circuit.now.parts layer wiring.now }
    requires place { IsOver (exponent_at circuit.now.parts layer) (place_of place.now) }
    requires shape { HasShape form (exponent_at circuit.now.parts (layer + 1)) messages.now }
    requires drawn { length drawn.old ≡ exponent_at circuit.now.parts (layer + 1) + exponent_at
        circuit.now.parts (layer + 1) }
    requires has { IsTrue (C.source.has (C.state challenges.old)
        (exponent_at circuit.now.parts (layer + 1) + exponent_at circuit.now.parts (layer + 1) +
        1)) }
    ensures holds { IfOk result
        (λ next. (below : List GateLayer) (input : List K) (qs : List (List K)) →
        answer C.source (C.state challenges.old)
        (equations form layer (layer_at circuit.now.parts layer ∷ below) input
        (place_of place.now) claim (messages_of messages.now ++ qs)
        (draws C.source (C.state challenges.old) (messages_of messages.now ++ qs)))
        (messages_of messages.now ++ qs)
        ≡ answer C.source (C.state challenges.new)
        (equations form (suc layer) below input
        (place_between k_ops form (take (exponent_at circuit.now.parts (layer + 1)) drawn.new)
        (drop (exponent_at circuit.now.parts (layer + 1)) drawn.new) next.challenge) next.value
        qs (draws C.source (C.state challenges.new) qs)) qs) }
    ensures state { IfOk result
        (λ next. C.state challenges.new ≡ state_after C.source (C.state challenges.old)
        (messages_of messages.now)) }
    ensures fails { IfErr result
        (λ verdict. (below : List GateLayer) (input : List K) (qs : List (List K)) →
        answer C.source (C.state challenges.old)
        (equations form layer (layer_at circuit.now.parts layer ∷ below) input
        (place_of place.now) claim (messages_of messages.now ++ qs)
        (draws C.source (C.state challenges.old) (messages_of messages.now ++ qs)))
        (messages_of messages.now ++ qs)
        ≡ record { verdict = verdict; state = C.state challenges.new }) }
{
    let claim = match check_rounds(messages.rounds.as_slice(), claim, drawn, challenges) {
        Ok(claim) => claim,
        Err(fault) => {
            return Err(Verdict::Sum {
                layer,
                round: fault.round,
                had: fault.had,
                claim: fault.claim,
            });
        }
    };
    let k = circuit.coordinates(layer + 1);
    let (left, right) = drawn.split_at(k);
    let last = messages.last.as_slice();
    let want = end_value(form, circuit, layer, wiring, place, left, right, last);
    if !claim.equals(want) {
        return Err(Verdict::End {
            layer,
            had: claim,
            want,
        });
    }
    challenges.absorb(last);
    let challenge = challenges.challenge();
    Ok(NextClaim {
        value: value_at(last, challenge),
        challenge,
    })
}
