//! The equality polynomial where a claim is at two points, for a walk over positions in blocks of 1,024.

ghost use Rattle.std.specs.Prelude.{◌≡◌, ◌≤◌, ◌<◌, ◌^◌, ◌/◌, ℕ, List, length};
ghost use Rattle.field_ext.specs.Field.{K, k_ops, add_k, mul_k, zero_k};
ghost use Rattle.field_ext.specs.Multilinear.{eq_poly};
ghost use Rattle.gkr_layers.specs.Places.{weighted};
ghost use Rattle.gkr_layers.specs.Places.Place.{AtBoth};
ghost use Rattle.gkr_verify.specs.Blocks.{AreAt, with_factors};
ghost use Rattle.gkr_verify.specs.declared.blocks.BothEquality.{BothEquality};

use crate::tables::Tables;
use field_ext::Ext;

/// The equality polynomial at two points of at most 20 coordinates, and the weight of the second.
#[derive(Drop)]
pub(crate) struct BothEquality {
    first: Tables,
    second: Tables,
    weight: Ext,
}

/// What a position adds to a sum at each of the two points, or what positions of one block do, without the block's factors.
#[derive(Clone, Copy)]
pub(crate) struct Shares {
    first: Ext,
    second: Ext,
}

impl BothEquality {
    /// The tables at both points, which are filled in place: what two calls return would be on the stack twice.
    pub(crate) fn at(first: &[Ext], second: &[Ext], weight: Ext) -> BothEquality
        requires first { length first.now ≤ 20 }
        requires second { length second.now ≤ 20 }
        ensures { AreAt first.now second.now weight result }
    {
        let mut both = BothEquality {
            first: Tables::blank(),
            second: Tables::blank(),
            weight,
        };
        both.first.fill(first);
        both.second.fill(second);
        both
    }

    /// What a value at position `g` adds.
    #[inline]
    pub(crate) fn shares(&self, g: usize, value: Ext) -> Shares
        requires { g < 1048576 }
        ensures { (first second : List K) (a : K) → AreAt first second a self.now
            → g < 2 ^ length first → g < 2 ^ length second →
            with_factors self.now (g / 1024) result
            ≡ mul_k (weighted k_ops (AtBoth first second a) (λ z. eq_poly k_ops z g)) value }
    {
        Shares {
            first: self.first.within(g % 1024) * value,
            second: self.second.within(g % 1024) * value,
        }
    }

    /// The shares of a block with its factors.
    pub(crate) fn with_factors(&self, block: usize, shares: Shares) -> Ext
        requires { block < 1024 }
        ensures { result ≡ with_factors self.now block shares }
    {
        let second = self.second.of_block(block) * shares.second;
        self.first.of_block(block) * shares.first + self.weight * second
    }
}

impl Shares {
    /// What no position adds.
    #[inline]
    pub(crate) fn none() -> Shares
        ensures { (both : BothEquality) (block : ℕ) → with_factors both block result ≡ zero_k }
    {
        Shares {
            first: Ext::zero(),
            second: Ext::zero(),
        }
    }

    /// With what another position of the block adds.
    #[inline]
    pub(crate) fn with(self, other: Shares) -> Shares
        ensures { (both : BothEquality) (block : ℕ) → with_factors both block result
            ≡ add_k (with_factors both block self) (with_factors both block other) }
    {
        Shares {
            first: self.first + other.first,
            second: self.second + other.second,
        }
    }
}
