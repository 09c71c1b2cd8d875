//! The buffers of a layer's tables.

ghost use Rattle.std.specs.Prelude.{◌≡◌, ◌≤◌, IfOk};
ghost use Rattle.round_tables.specs.Weights.{HasRows};
ghost use Rattle.round_tables.specs.Working.{HasCapacities};

use crate::kept_point::KeptPoint;
use crate::working::Working;
use field_ext::Ext;
use std::alloc::{AllocError, Global};

/// Buffers for the working tables of a layer and for the place of its claim, which one layer after another can use.
#[derive(Drop)]
pub struct Buffers {
    pub(crate) first: KeptPoint,
    pub(crate) second: KeptPoint,
    pub(crate) working: Working,
}

/// The buffers are too small for a layer, and no memory was found for what they lack. They are handed back.
#[derive(Drop)]
pub struct TooSmallBuffers {
    pub buffers: Buffers,
}

impl From<TooSmallBuffers> for AllocError {
    fn from(_refused: TooSmallBuffers) -> AllocError {
        AllocError
    }
}

impl Buffers {
    /// Buffers for layers of up to so many gates over up to so many values. Err only where no memory is found.
    pub fn new(alloc: Global, gates: usize, values: usize) -> Result<Buffers, AllocError> {
        Ok(Buffers {
            first: KeptPoint::empty(alloc, gates)?,
            second: KeptPoint::empty(alloc, gates)?,
            working: Working::empty(alloc, values)?,
        })
    }

    /// The buffers of just the size of a layer of so many gates over `2^k` values, with these points of its claim.
    pub(crate) fn fitted(
        mut self,
        gates: usize,
        k: usize,
        first: &[Ext],
        second: &[Ext],
    ) -> Result<Buffers, TooSmallBuffers>
        requires { k ≤ 20 }
        ensures first { IfOk result (λ buffers. buffers.first.point.items ≡ first.now) }
        ensures second { IfOk result (λ buffers. buffers.second.point.items ≡ second.now) }
        ensures first_rows { IfOk result (λ buffers. HasRows gates buffers.first) }
        ensures second_rows { IfOk result (λ buffers. HasRows gates buffers.second) }
        ensures capacities { IfOk result (λ buffers. HasCapacities k buffers.working) }
    {
        match self.fit(gates, k, first, second) {
            Ok(()) => Ok(self),
            Err(_) => Err(TooSmallBuffers { buffers: self }),
        }
    }

    /// Gives the buffers just that size, and writes the points.
    fn fit(
        &mut self,
        gates: usize,
        k: usize,
        first: &[Ext],
        second: &[Ext],
    ) -> Result<(), AllocError>
        requires { k ≤ 20 }
        ensures first { IfOk result (λ _. self.new.first.point.items ≡ first.now) }
        ensures second { IfOk result (λ _. self.new.second.point.items ≡ second.now) }
        ensures first_rows { IfOk result (λ _. HasRows gates self.new.first) }
        ensures second_rows { IfOk result (λ _. HasRows gates self.new.second) }
        ensures capacities { IfOk result (λ _. HasCapacities k self.new.working) }
    {
        self.first.fit(first, gates)?;
        self.second.fit(second, gates)?;
        self.working.fit(k)
    }
}
