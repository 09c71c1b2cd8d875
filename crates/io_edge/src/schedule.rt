//! When an end in memory fails.

ghost use Rattle.std.specs.Prelude.{◌≡◌, ◌↔◌, ◌+◌, ◌-◌, ◌^◌, ◌≤◌, min, IsTrue, IfOk};
ghost use Rattle.io_edge.specs.MemoryEnds.{FailsNow, IsNextCall};

use crate::Failed;
use std::alloc::{AllocError, Global};

/// The calls of an end in memory, counted from 1: which of them fail, and how often one has.
#[derive(Drop)]
pub struct Schedule {
    fails: Vec<u64>,
    calls: u64,
    faults: u64,
}

impl Schedule {
    pub fn new(alloc: Global, fails: &[u64]) -> Result<Self, AllocError>
        ensures { IfOk result (λ made. (made.fails.items ≡ fails.now) × (made.calls ≡ 0)
            × (made.faults ≡ 0)) }
    {
        Ok(Schedule {
            fails: Vec::from_slice(alloc, fails)?,
            calls: 0,
            faults: 0,
        })
    }

    /// Counts a call, and answers whether it is one that fails.
    pub fn next_fails(&mut self) -> bool
        ensures fails { IsTrue result ↔ FailsNow self.new }
        ensures next { IsNextCall self.old self.new }
        ensures faults { self.new.faults ≡ self.old.faults }
    {
        self.calls = self.calls.saturating_add(1);
        self.fails.contains(&self.calls)
    }

    /// Counts a fault. The count stays at its last value.
    pub fn fault(&mut self) -> Failed
        ensures faults { self.new.faults ≡ min (self.old.faults + 1) (2 ^ 64 - 1) }
        ensures later { self.old.faults ≤ self.new.faults }
        ensures calls { self.new.calls ≡ self.old.calls }
        ensures kept { self.new.fails.items ≡ self.old.fails.items }
    {
        self.faults = self.faults.saturating_add(1);
        Failed
    }
}
