//! The end of a layer's rounds.

ghost use Rattle.std.specs.Prelude.{◌≡◌, ◌<◌, ◌≤◌, ◌+◌, [], length, slice_index_or};
ghost use Rattle.field_ext.specs.Field.{k_ops};
ghost use Rattle.circuit_core.specs.Parts.{height};
ghost use Rattle.circuit_core.specs.Sound.{exponent_at};
ghost use Rattle.gkr_layers.specs.Places.{IsOver, weighted_summand_from};
ghost use Rattle.gkr_layers.specs.Forms.{said_left, said_right};
ghost use Rattle.gkr_layers.specs.ClaimPlace.{place_of};
ghost use Rattle.run_wiring.specs.CircuitRuns.{IsWiringOf};

use crate::claim_place::wiring_there;
use circuit_core::Circuit;
use field_ext::Ext;
use gkr_layers::ClaimPlace;
use poly_roots::value_at;
use proof_wire::ProofForm;
use run_wiring::LayerWiring;

/// What a last message says of the layer below, at the points of the left and of the right operand.
#[derive(Clone, Copy)]
struct Said {
    left: Ext,
    right: Ext,
}

/// What the summand of a layer is at the place of its claim and at `left` and `right`, where the extension of the layer below
/// has there the values that the last message says.
pub(crate) fn end_value(
    form: ProofForm,
    circuit: &Circuit,
    layer: usize,
    wiring: &LayerWiring,
    place: &ClaimPlace<'_>,
    left: &[Ext],
    right: &[Ext],
    last: &[Ext],
) -> Ext
    requires layer { layer < height circuit.now.parts }
    requires wiring { IsWiringOf circuit.now.parts layer wiring.now }
    requires place { IsOver (exponent_at circuit.now.parts layer) (place_of place.now) }
    requires left { length left.now ≡ exponent_at circuit.now.parts (layer + 1) }
    requires right { length right.now ≡ exponent_at circuit.now.parts (layer + 1) }
    requires last { 2 ≤ length last.now }
    ensures { result ≡ weighted_summand_from k_ops
        (slice_index_or circuit.now.parts.layers layer []) (place_of place.now) left.now right.now
        (said_left k_ops form last.now) (said_right k_ops form last.now) }
{
    let wiring = wiring_there(circuit, layer, wiring, place, left, right);
    let said = said_by(form, last);
    wiring.add * (said.left + said.right) + wiring.mul * (said.left * said.right)
}

/// What the last message says.
fn said_by(form: ProofForm, last: &[Ext]) -> Said
    requires { 2 ≤ length last.now }
    ensures left { result.left ≡ said_left k_ops form last.now }
    ensures right { result.right ≡ said_right k_ops form last.now }
{
    match form {
        ProofForm::Line => Said {
            left: value_at(last, Ext::zero()),
            right: value_at(last, Ext::one()),
        },
        ProofForm::Pair => Said {
            left: last[0],
            right: last[1],
        },
    }
}
