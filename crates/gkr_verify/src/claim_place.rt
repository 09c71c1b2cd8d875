//! What the verifier computes at the place of a claim.

ghost use Rattle.std.specs.Prelude.{◌≡◌, ◌≤◌, ◌<◌, ◌+◌, ◌^◌, [], All, length, map, slice_index_or};
ghost use Rattle.field_ext.specs.Field.{k_ops, embed_k};
ghost use Rattle.circuit_core.specs.Parts.{height, leaf_value, padded_values};
ghost use Rattle.circuit_core.specs.Faults.{IsLeafWithin};
ghost use Rattle.circuit_core.specs.Sound.{exponent_at};
ghost use Rattle.wiring_poly.specs.Wiring.{wiring_add, wiring_mul};
ghost use Rattle.gkr_layers.specs.Places.{IsOver, weighted, value_over};
ghost use Rattle.gkr_layers.specs.Places.Place.{AtBoth};
ghost use Rattle.gkr_layers.specs.ClaimPlace.{place_of};
ghost use Rattle.run_wiring.specs.CircuitRuns.{IsWiringOf};

use crate::both::{gates_at_both, leaves_at_both};
use crate::extension::leaves_extension;
use circuit_core::{Circuit, Leaf};
use field_ext::{Ext, Fp};
use gkr_layers::ClaimPlace;
use run_wiring::LayerWiring;
use wiring_poly::WiringSums;

/// The wiring polynomials of a layer at the place of its claim, and at `left` and `right`.
pub(crate) fn wiring_there(
    circuit: &Circuit,
    layer: usize,
    wiring: &LayerWiring,
    place: &ClaimPlace<'_>,
    left: &[Ext],
    right: &[Ext],
) -> WiringSums
    requires layer { layer < height circuit.now.parts }
    requires wiring { IsWiringOf circuit.now.parts layer wiring.now }
    requires place { IsOver (exponent_at circuit.now.parts layer) (place_of place.now) }
    requires left { length left.now ≡ exponent_at circuit.now.parts (layer + 1) }
    requires right { length right.now ≡ exponent_at circuit.now.parts (layer + 1) }
    ensures add { result.add ≡ weighted k_ops (place_of place.now)
        (λ z. wiring_add k_ops (slice_index_or circuit.now.parts.layers layer []) z left.now
        right.now) }
    ensures mul { result.mul ≡ weighted k_ops (place_of place.now)
        (λ z. wiring_mul k_ops (slice_index_or circuit.now.parts.layers layer []) z left.now
        right.now) }
{
    match place {
        ClaimPlace::One(point) => {
            let (add, mul) = wiring.at(circuit, layer, point, left, right);
            WiringSums { add, mul }
        }
        ClaimPlace::Both(first, second, weight) => {
            wiring_at_both(circuit, layer, wiring, first, second, *weight, left, right)
        }
    }
}

/// The wiring polynomials of a layer where its claim is at two points, the second with this weight: gates are gone over
/// once, runs once for each point.
fn wiring_at_both(
    circuit: &Circuit,
    layer: usize,
    wiring: &LayerWiring,
    first: &[Ext],
    second: &[Ext],
    weight: Ext,
    left: &[Ext],
    right: &[Ext],
) -> WiringSums
    requires layer { layer < height circuit.now.parts }
    requires wiring { IsWiringOf circuit.now.parts layer wiring.now }
    requires first { length first.now ≡ exponent_at circuit.now.parts layer }
    requires second { length second.now ≡ exponent_at circuit.now.parts layer }
    requires left { length left.now ≡ exponent_at circuit.now.parts (layer + 1) }
    requires right { length right.now ≡ exponent_at circuit.now.parts (layer + 1) }
    ensures add { result.add ≡ weighted k_ops (AtBoth first.now second.now weight)
        (λ z. wiring_add k_ops (slice_index_or circuit.now.parts.layers layer []) z left.now
        right.now) }
    ensures mul { result.mul ≡ weighted k_ops (AtBoth first.now second.now weight)
        (λ z. wiring_mul k_ops (slice_index_or circuit.now.parts.layers layer []) z left.now
        right.now) }
{
    match wiring {
        LayerWiring::Gates => {
            gates_at_both(circuit.gates(layer), first, second, weight, left, right)
        }
        LayerWiring::Runs(_) => {
            let (add, mul) = wiring.at(circuit, layer, first, left, right);
            let (other_add, other_mul) = wiring.at(circuit, layer, second, left, right);
            WiringSums {
                add: add + weight * other_add,
                mul: mul + weight * other_mul,
            }
        }
    }
}

/// The extension of 0, the leaves and zeros, `2^k` values in all, at the place of the claim.
pub(crate) fn leaves_there(leaves: &[Leaf], inputs: &[Fp], k: usize, place: &ClaimPlace<'_>) -> Ext
    requires few { k ≤ 20 }
    requires place { IsOver k (place_of place.now) }
    requires fits { length leaves.now < 2 ^ k }
    requires within { All (IsLeafWithin (length inputs.now)) leaves.now }
    ensures { result ≡ value_over k_ops
        (map embed_k (padded_values (2 ^ k) (map (leaf_value inputs.now) leaves.now)))
        (place_of place.now) }
{
    match place {
        ClaimPlace::One(point) => leaves_extension(leaves, inputs, point),
        ClaimPlace::Both(first, second, weight) => {
            leaves_at_both(leaves, inputs, first, second, *weight)
        }
    }
}
