//! The equality polynomial at a point, in two tables.

ghost use Rattle.std.specs.Prelude.{◌≡◌, ◌≤◌, ◌<◌, ◌^◌, List, length};
ghost use Rattle.field_ext.specs.Field.{K, k_ops};
ghost use Rattle.field_ext.specs.Multilinear.{eq_poly};
ghost use Rattle.mle_table.specs.SplitEquality.{IsSplitAt};

use crate::equality::fill_equality;
use field_ext::Ext;
use std::marker::Model;

/// The equality polynomial's values at a point of at most 20 coordinates, each a product of one value of each of two
/// tables, so that all `2^20` of them need only 2,048 values of memory.
#[derive(Drop)]
pub struct SplitEquality {
    low: [Ext; 1024],
    high: [Ext; 1024],
    ghost low_size: { length low ≡ 1024 },
    ghost high_size: { length high ≡ 1024 },
}

impl Model for SplitEquality {
    ghost use Rattle.mle_table.specs.SplitEquality.{TwoTables};

    ghost Value = { TwoTables };

    ghost view = { λ s. record {
      low = s.low;
      high = s.high;
      low_size = s.low_size;
      high_size = s.high_size;
    } };
}

impl SplitEquality {
    /// The tables at a point of at most 20 coordinates: one for the first ten, one for the others.
    pub fn at(point: &[Ext]) -> SplitEquality
        requires { length point.now ≤ 20 }
        ensures { IsSplitAt point.now result }
    {
        let (first, rest) = point.split_at(if point.len() < 10 { point.len() } else { 10 });
        let mut low = [Ext::zero(); 1024];
        let mut high = [Ext::zero(); 1024];
        fill_equality(&mut low, first);
        fill_equality(&mut high, rest);
        SplitEquality { low, high }
    }

    /// The equality polynomial's value at the point and the bits of `g`.
    #[inline]
    pub fn value(&self, g: usize) -> Ext
        requires { g < 1048576 }
        ensures { (point : List K) → IsSplitAt point self.now → g < 2 ^ length point
            → result ≡ eq_poly k_ops point g }
    {
        self.low[g % 1024] * self.high[g / 1024]
    }
}
