//! All layers.

ghost use Rattle.std.specs.Prelude.{◌≡◌, [], ◌∷◌, length, take, IsTrue};
ghost use Rattle.field_ext.specs.Field.{k_ops};
ghost use Rattle.circuit_core.specs.Parts.{height, input_table};
ghost use Rattle.circuit_core.specs.Sound.{exponent_at};
ghost use Rattle.gkr_layers.specs.Layers.{message_count, layers_of, lower_exponents};
ghost use Rattle.transcript_fs.specs.Source.{draws};
ghost use Rattle.gkr_layers.specs.Equations.{input_equation, equations, first_failure, answer};
ghost use Rattle.proof_wire.specs.Lists.{all_messages, HaveShape};
ghost use Rattle.gkr_layers.specs.Places.{IsOver, value_over};
ghost use Rattle.gkr_layers.specs.Places.Place.{At};
ghost use Rattle.gkr_layers.specs.ClaimPlace.{place_of};
ghost use Rattle.run_wiring.specs.CircuitRuns.{AreWiringsOf};

use crate::claim_place::leaves_there;
use crate::kept::{check_kept, place_kept};
use crate::layer::NextClaim;
use circuit_core::Circuit;
use field_ext::{Ext, Fp};
use gkr_layers::{ClaimPlace, Verdict};
use proof_wire::{LayerMessages, ProofForm};
use run_wiring::LayerWiring;
use transcript_fs::Challenges;

/// Checks the messages of the layers against the claim on the first, whose point is the beginning of `kept`, and the last claim
/// against the inputs. `kept` holds the place of the claim from layer to layer, and `drawn` a layer's challenges.
pub(crate) fn check_layers<C: Challenges>(
    form: ProofForm,
    messages: &[LayerMessages],
    circuit: &Circuit,
    wirings: &[LayerWiring],
    inputs: &[Fp],
    claim: Ext,
    kept: &mut [Ext],
    drawn: &mut [Ext],
    challenges: &mut C,
) -> Verdict
    requires wirings { AreWiringsOf circuit.now.parts wirings.now }
    requires inputs { length inputs.now ≡ circuit.now.parts.inputs }
    requires layers { length messages.now ≡ height circuit.now.parts }
    requires shape { HaveShape form (lower_exponents (layers_of circuit.now.parts)) messages.now }
    requires kept { length kept.old ≡ 40 }
    requires drawn { length drawn.old ≡ 40 }
    requires has { IsTrue (C.source.has (C.state challenges.old)
        (message_count (layers_of circuit.now.parts))) }
    ensures { record { verdict = result; state = C.state challenges.new }
        ≡ answer C.source (C.state challenges.old)
        (equations form 0 (layers_of circuit.now.parts)
        (input_table circuit.now.parts inputs.now)
        (At (take (exponent_at circuit.now.parts 0) kept.old)) claim (all_messages messages.now)
        (draws C.source (C.state challenges.old) (all_messages messages.now)))
        (all_messages messages.now) }
{
    let mut at = ProofForm::Line;
    let mut claim = NextClaim {
        value: claim,
        challenge: Ext::zero(),
    };
    for (layer, message) in messages.iter().enumerate() {
        let wiring = &wirings[layer];
        match check_kept(
            form, at, circuit, layer, wiring, message, claim, kept, drawn, challenges,
        ) {
            Ok(below) => {
                claim = below;
                at = form;
            }
            Err(verdict) => return verdict,
        }
    }
    let k = circuit.coordinates(circuit.height());
    let place = place_kept(at, k, claim.challenge, kept);
    check_inputs(circuit, inputs, claim.value, &place)
}

/// Checks the last claim against the extension of 0, the leaves and zeros.
fn check_inputs(circuit: &Circuit, inputs: &[Fp], claim: Ext, place: &ClaimPlace<'_>) -> Verdict
    requires inputs { length inputs.now ≡ circuit.now.parts.inputs }
    requires place { IsOver (exponent_at circuit.now.parts (height circuit.now.parts))
        (place_of place.now) }
    ensures { result ≡ first_failure (input_equation claim
        (value_over k_ops (input_table circuit.now.parts inputs.now) (place_of place.now)) ∷ []) }
{
    let k = circuit.coordinates(circuit.height());
    let want = leaves_there(circuit.leaves(), inputs, k, place);
    if claim.equals(want) {
        Verdict::Accepted
    } else {
        Verdict::Input { had: claim, want }
    }
}
