//! The equality polynomial at a point, for a walk over positions in blocks of 1,024.

ghost use Rattle.std.specs.Prelude.{◌≡◌, ◌≤◌, ◌<◌, length, slice_index_or};
ghost use Rattle.field_ext.specs.Field.{zero_k};
ghost use Rattle.mle_table.specs.SplitEquality.{IsSplitAt};

use field_ext::Ext;
use mle_table::fill_equality;
use std::marker::Model;

/// The tables of `SplitEquality`, whose two values a walk takes apart: the first at each position, the second once for all
/// 1,024 positions of a block.
#[derive(Drop)]
pub(crate) struct Tables {
    low: [Ext; 1024],
    high: [Ext; 1024],
    ghost low_size: { length low ≡ 1024 },
    ghost high_size: { length high ≡ 1024 },
}

impl Model for Tables {
    ghost use Rattle.mle_table.specs.SplitEquality.{TwoTables};

    ghost Value = { TwoTables };

    ghost view = { λ s. record {
      low = s.low;
      high = s.high;
      low_size = s.low_size;
      high_size = s.high_size;
    } };
}

impl Tables {
    /// Tables that are still to be filled.
    pub(crate) fn blank() -> Tables {
        Tables {
            low: [Ext::zero(); 1024],
            high: [Ext::zero(); 1024],
        }
    }

    /// Fills in the tables at a point of at most 20 coordinates: one for the first ten, one for the others.
    pub(crate) fn fill(&mut self, point: &[Ext])
        requires { length point.now ≤ 20 }
        ensures { IsSplitAt point.now self.new }
    {
        let (first, rest) = point.split_at(if point.len() < 10 { point.len() } else { 10 });
        fill_equality(&mut self.low, first);
        fill_equality(&mut self.high, rest);
    }

    /// What a position's value has besides the factor of its block.
    #[inline]
    pub(crate) fn within(&self, place: usize) -> Ext
        requires { place < 1024 }
        ensures { result ≡ slice_index_or self.now.low place zero_k }
    {
        self.low[place]
    }

    /// The factor of a block.
    #[inline]
    pub(crate) fn of_block(&self, block: usize) -> Ext
        requires { block < 1024 }
        ensures { result ≡ slice_index_or self.now.high block zero_k }
    {
        self.high[block]
    }
}
