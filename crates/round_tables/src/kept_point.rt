//! A point of a layer's positions, with the equality polynomial there.

ghost use Rattle.std.specs.Prelude.{◌≡◌, ◌<◌, ◌/◌, ◌^◌, IfOk, vec_len};
ghost use Rattle.round_tables.specs.Weights.{HasRows, HasTables, IsSamePoint, IsScaled, product_at, row_positions};

use field_ext::Ext;
use mle_table::fill_equality;
use std::alloc::{AllocError, Global};

/// So many positions share a value of the high table.
const ROW: usize = 1024;

/// A point, and the values of the positions there: those of the equality polynomial, or these by a weight. Each is a product of one
/// value of each of two tables.
#[derive(Drop)]
pub(crate) struct KeptPoint {
    pub(crate) point: Vec<Ext>,
    pub(crate) low: Vec<Ext>,
    pub(crate) high: Vec<Ext>,
}

impl KeptPoint {
    /// No point, with buffers for points of layers of up to so many positions.
    pub(crate) fn empty(alloc: Global, positions: usize) -> Result<KeptPoint, AllocError> {
        Ok(KeptPoint {
            point: Vec::with_capacity(alloc, 20)?,
            low: Vec::with_capacity(alloc, ROW)?,
            high: Vec::with_capacity(alloc, positions / ROW + 1)?,
        })
    }

    /// Keeps this point of a layer of so many positions, without its tables yet.
    pub(crate) fn fit(&mut self, point: &[Ext], positions: usize) -> Result<(), AllocError>
        ensures point { IfOk result (λ _. self.new.point.items ≡ point.now) }
        ensures rows { IfOk result (λ _. HasRows positions self.new) }
    {
        self.point.clear();
        self.point.extend_from_slice(point)?;
        self.low.resize(ROW, Ext::zero())?;
        self.high.resize(positions / ROW + 1, Ext::zero())
    }

    /// Fills the tables.
    pub(crate) fn fill(&mut self)
        requires { HasRows (2 ^ vec_len self.old.point) self.old }
        ensures point { self.new.point ≡ self.old.point }
        ensures tables { HasTables self.new }
        ensures rows { HasRows (2 ^ vec_len self.old.point) self.new }
    {
        let few = self.point.len() < 10;
        let (first, rest) = self
            .point
            .as_slice()
            .split_at(if few { self.point.len() } else { 10 });
        fill_equality(&mut self.low, first);
        fill_equality(&mut self.high, rest);
    }

    /// Multiplies all values by a weight.
    pub(crate) fn scale(&mut self, weight: Ext)
        ensures point { self.new.point ≡ self.old.point }
        ensures low { self.new.low ≡ self.old.low }
        ensures high { vec_len self.new.high ≡ vec_len self.old.high }
        ensures scaled { IsScaled weight self.old.high.items self.new.high.items }
    {
        for i in 0..self.high.len() {
            self.high[i] = weight * self.high[i];
        }
    }

    /// Keeps the point and the values of another.
    pub(crate) fn copy(&mut self, other: &KeptPoint) -> Result<(), AllocError>
        ensures { IfOk result (λ _. IsSamePoint other.now self.new) }
    {
        self.point.clear();
        self.low.clear();
        self.high.clear();
        self.point.extend_from_slice(&other.point)?;
        self.low.extend_from_slice(&other.low)?;
        self.high.extend_from_slice(&other.high)
    }

    /// The value of a position.
    #[inline]
    pub(crate) fn at(&self, position: usize) -> Ext
        requires low { vec_len self.now.low ≡ row_positions }
        requires high { position / row_positions < vec_len self.now.high }
        ensures { result ≡ product_at self.now position }
    {
        self.low[position % ROW] * self.high[position / ROW]
    }
}
