//! Sums over the gates of a layer, and over the leaves, where a claim is at two points. They aren't inlined, for their tables'
//! sake, as in `extension`.

ghost use Rattle.std.specs.Prelude.{◌≡◌, ◌≤◌, ◌<◌, ◌^◌, ℕ, All, length, map};
ghost use Rattle.field_ext.specs.Field.{k_ops, embed_k, zero_k, add_k};
ghost use Rattle.circuit_core.specs.Parts.{IsOver, leaf_value, padded_values};
ghost use Rattle.circuit_core.specs.Faults.{IsLeafWithin};
ghost use Rattle.wiring_poly.specs.Wiring.{by_kind, wiring_add, wiring_mul};
ghost use Rattle.gkr_layers.specs.Places.{weighted, value_over};
ghost use Rattle.gkr_layers.specs.Places.Place.{AtBoth};
ghost use Rattle.gkr_verify.specs.Blocks.{with_factors};
ghost use Rattle.gkr_verify.specs.declared.blocks.BothEquality.{BothEquality};

use crate::blocks::{BothEquality, Shares};
use circuit_core::{CircuitGate, Kind, Leaf, leaf_value};
use field_ext::{Ext, Fp};
use mle_table::SplitEquality;
use wiring_poly::WiringSums;

/// What the gates of a block add to the sum over the add gates, and to that over the multiply gates.
#[derive(Clone, Copy)]
struct GateShares {
    add: Shares,
    mul: Shares,
}

impl GateShares {
    /// What no gate adds.
    #[inline]
    fn none() -> GateShares
        ensures add { (both : BothEquality) (block : ℕ) → with_factors both block result.add
            ≡ zero_k }
        ensures mul { (both : BothEquality) (block : ℕ) → with_factors both block result.mul
            ≡ zero_k }
    {
        GateShares {
            add: Shares::none(),
            mul: Shares::none(),
        }
    }

    /// With the shares of one more gate.
    #[inline]
    fn with(self, kind: Kind, shares: Shares) -> GateShares
        ensures add { (both : BothEquality) (block : ℕ) → with_factors both block result.add
            ≡ add_k (with_factors both block self.add)
            (by_kind kind (with_factors both block shares) zero_k) }
        ensures mul { (both : BothEquality) (block : ℕ) → with_factors both block result.mul
            ≡ add_k (with_factors both block self.mul)
            (by_kind kind zero_k (with_factors both block shares)) }
    {
        match kind {
            Kind::Add => GateShares {
                add: self.add.with(shares),
                mul: self.mul,
            },
            Kind::Mul => GateShares {
                add: self.add,
                mul: self.mul.with(shares),
            },
        }
    }
}

/// The wiring polynomials of a list of gates, by position, where the claim on their layer is at two points, the second
/// with this weight, and at the points `left` and `right` of their operands. No memory is taken.
#[inline(never)]
pub(crate) fn gates_at_both(
    gates: &[CircuitGate],
    first: &[Ext],
    second: &[Ext],
    weight: Ext,
    left: &[Ext],
    right: &[Ext],
) -> WiringSums
    requires first { length gates.now ≡ 2 ^ length first.now }
    requires second { length second.now ≡ length first.now }
    requires operands { All (IsOver (2 ^ length left.now)) gates.now }
    requires right { length right.now ≡ length left.now }
    requires few_positions { length first.now ≤ 20 }
    requires few_operands { length left.now ≤ 20 }
    ensures add { result.add ≡ weighted k_ops (AtBoth first.now second.now weight)
        (λ z. wiring_add k_ops gates.now z left.now right.now) }
    ensures mul { result.mul ≡ weighted k_ops (AtBoth first.now second.now weight)
        (λ z. wiring_mul k_ops gates.now z left.now right.now) }
{
    let both = BothEquality::at(first, second, weight);
    let left = SplitEquality::at(left);
    let right = SplitEquality::at(right);
    let mut sums = WiringSums {
        add: Ext::zero(),
        mul: Ext::zero(),
    };
    for block in 0..gates.len().div_ceil(1024) {
        let mut shares = GateShares::none();
        for g in 1024 * block..gates.len().min(1024 * block + 1024) {
            let gate = gates[g];
            let operands = left.value(gate.left as usize) * right.value(gate.right as usize);
            shares = shares.with(gate.kind, both.shares(g, operands));
        }
        sums = WiringSums {
            add: sums.add + both.with_factors(block, shares.add),
            mul: sums.mul + both.with_factors(block, shares.mul),
        };
    }
    sums
}

/// The extension of the table 0, the leaves' values, zeros, where a claim is at two points, the second with this weight.
/// No memory is taken.
#[inline(never)]
pub(crate) fn leaves_at_both(
    leaves: &[Leaf],
    inputs: &[Fp],
    first: &[Ext],
    second: &[Ext],
    weight: Ext,
) -> Ext
    requires few { length first.now ≤ 20 }
    requires second { length second.now ≡ length first.now }
    requires fits { length leaves.now < 2 ^ length first.now }
    requires within { All (IsLeafWithin (length inputs.now)) leaves.now }
    ensures { result ≡ value_over k_ops (map embed_k
        (padded_values (2 ^ length first.now) (map (leaf_value inputs.now) leaves.now)))
        (AtBoth first.now second.now weight) }
{
    let both = BothEquality::at(first, second, weight);
    let mut sum = Ext::zero();
    for block in 0..(leaves.len() + 1).div_ceil(1024) {
        let mut shares = Shares::none();
        for i in (1024 * block).saturating_sub(1)..leaves.len().min(1024 * block + 1023) {
            let value = Ext::embed(leaf_value(inputs, leaves[i]));
            shares = shares.with(both.shares(i + 1, value));
        }
        sum = sum + both.with_factors(block, shares);
    }
    sum
}
