//! The gates of a layer, lent for the time of its sumcheck, and where its claim is.

ghost use Rattle.std.specs.Prelude.{◌≡◌, ◌<◌, ◌^◌, length};
ghost use Rattle.field_ext.specs.Field.{K};
ghost use Rattle.gkr_layers.specs.Places.Place.{At, AtBoth};
ghost use Rattle.round_tables.specs.Weights.{HasRows};
ghost use Rattle.round_tables.specs.Phase.{IsLayer};
ghost use Rattle.round_tables.specs.Working.{IsLayerGates, place_of, weights_of};

use crate::kept_point::KeptPoint;
use circuit_core::CircuitGate;
use field_ext::Ext;
use gate_gather::Weights;
use mle_table::BaseTable;

/// The gates of a layer over the `2^k` values of the layer below, and where the claim on it is: at `first`, or at
/// `first` with weight 1 and `second` with the weight given, by which its values are multiplied.
#[derive(Drop)]
pub(crate) struct LayerGates<'a> {
    pub(crate) k: usize,
    pub(crate) gates: &'a [CircuitGate],
    pub(crate) values: &'a BaseTable,
    pub(crate) first: KeptPoint,
    pub(crate) second: KeptPoint,
    pub(crate) weight: Ext,
    pub(crate) both: bool,
}

/// Two to a small power.
pub(crate) fn power(k: usize) -> usize
    requires { k < 64 }
    ensures { result ≡ 2 ^ k }
{
    1 << k
}

impl<'a> LayerGates<'a> {
    /// Keeps the layer with the weights of its positions, for a claim at the first point.
    pub(crate) fn new(
        gates: &'a [CircuitGate],
        values: &'a BaseTable,
        mut first: KeptPoint,
        second: KeptPoint,
    ) -> LayerGates<'a>
        requires layer { IsLayer K values.now.k gates.now values.now.items
            (At first.point.items) }
        requires first { HasRows (length gates.now) first }
        ensures holds { IsLayerGates result }
        ensures k { result.k ≡ values.now.k }
        ensures gates { result.gates.now ≡ gates.now }
        ensures values { result.values.now ≡ values.now }
        ensures place { place_of result ≡ At first.point.items }
    {
        first.fill();
        LayerGates {
            k: values.k() as usize,
            gates,
            values,
            first,
            second,
            weight: Ext::zero(),
            both: false,
        }
    }

    /// The same for a claim at both points.
    pub(crate) fn new_two(
        gates: &'a [CircuitGate],
        values: &'a BaseTable,
        mut first: KeptPoint,
        mut second: KeptPoint,
        weight: Ext,
    ) -> LayerGates<'a>
        requires layer { IsLayer K values.now.k gates.now values.now.items
            (AtBoth first.point.items second.point.items weight) }
        requires first { HasRows (length gates.now) first }
        requires second { HasRows (length gates.now) second }
        ensures holds { IsLayerGates result }
        ensures k { result.k ≡ values.now.k }
        ensures gates { result.gates.now ≡ gates.now }
        ensures values { result.values.now ≡ values.now }
        ensures place { place_of result ≡ AtBoth first.point.items
            second.point.items weight }
    {
        first.fill();
        second.fill();
        second.scale(weight);
        LayerGates {
            k: values.k() as usize,
            gates,
            values,
            first,
            second,
            weight,
            both: true,
        }
    }
}

impl<'a> Weights for LayerGates<'a> {
    ghost holds = { IsLayerGates };

    ghost positions = { λ layer. length layer.gates.now };

    ghost weight = { weights_of };

    #[inline]
    fn at(&self, position: usize) -> Ext {
        let first = self.first.at(position);
        if self.both {
            first + self.second.at(position)
        } else {
            first
        }
    }
}
