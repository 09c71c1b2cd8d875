//! The weights of positions.

ghost use Rattle.std.specs.Prelude.{◌≡◌, ◌≤◌, ◌<◌, ◌^◌, ℕ, length};
ghost use Rattle.field_ext.specs.Field.{K, k_ops};
ghost use Rattle.field_ext.specs.Multilinear.{eq_poly};
ghost use Rattle.gate_gather.specs.Gathering.{most_coordinates};

use field_ext::Ext;
use mle_table::SplitEquality;
use std::marker::Model;

/// A weight for each of so many positions.
pub trait Weights {
    /// What has to hold of the weights, for how many positions there are some, and what they are.
    ghost holds: { Self → Type 0 };

    ghost positions: { Self → ℕ };

    ghost weight: { Self → ℕ → K };

    /// The weight of a position.
    fn at(&self, position: usize) -> Ext
        requires holds { holds self.now }
        requires within { position < positions self.now }
        ensures { result ≡ weight self.now position };
}

/// The equality polynomial at a point of at most 20 coordinates.
#[derive(Drop)]
pub struct EqualityAt<'a> {
    point: &'a [Ext],
    tables: SplitEquality,
}

impl<'a> Model for EqualityAt<'a> {
    ghost use Rattle.std.specs.Prelude.{◌≤◌, List, length};
    ghost use Rattle.field_ext.specs.Field.{K};
    ghost use Rattle.mle_table.specs.SplitEquality.{IsSplitAt};
    ghost use Rattle.gate_gather.specs.Gathering.{most_coordinates};

    ghost Value = { List K };

    ghost view = { λ e. e.point.now };

    ghost invariant = { λ e. (length e.point.now ≤ most_coordinates)
        × IsSplitAt e.point.now e.tables };
}

impl<'a> EqualityAt<'a> {
    /// The polynomial at this point.
    pub fn new(point: &'a [Ext]) -> EqualityAt<'a>
        requires { length point.now ≤ most_coordinates }
        ensures { result ≡ point.now }
    {
        EqualityAt {
            point,
            tables: SplitEquality::at(point),
        }
    }

    /// Its value at the bits of `g`.
    #[inline]
    pub fn at(&self, g: usize) -> Ext
        requires { g < 2 ^ length self.now }
        ensures { result ≡ eq_poly k_ops self.now g }
    {
        self.tables.value(g)
    }
}
