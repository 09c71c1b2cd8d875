//! A sink into memory that may fail.

ghost use Rattle.std.specs.Prelude.{◌≡◌, ◌<◌, ◌≤◌, [], IfOk, vec_len, vec_capacity};

use crate::schedule::Schedule;
use crate::{Failed, Sink};
use std::alloc::{AllocError, Global};

/// A sink into memory, whose buffer is taken when it is made. It takes at most `piece` bytes a call, fails where no
/// capacity is left, and at the calls that it was given.
#[derive(Drop)]
pub struct MemorySink {
    bytes: Vec<u8>,
    capacity: usize,
    piece: usize,
    schedule: Schedule,
    ghost some: { 0 < piece },
    ghost within: { vec_len bytes ≤ capacity },
    ghost ready: { capacity ≤ vec_capacity bytes },
}

impl MemorySink {
    ghost use Rattle.io_edge.specs.MemoryEnds.{held, capacity_of, IsFresh};

    /// A sink with a buffer for `capacity` bytes. The numbers in `fails` count calls from 1. An error where no memory is left.
    pub fn new(
        alloc: Global,
        capacity: usize,
        piece: usize,
        fails: &[u64],
    ) -> Result<Self, AllocError>
        requires { 0 < piece }
        ensures bytes { IfOk result (λ made. (held made ≡ []) × (capacity_of made ≡ capacity)) }
        ensures piece { IfOk result (λ made. made.piece ≡ piece) }
        ensures fails { IfOk result (λ made. IsFresh made.schedule fails.now) }
    {
        Ok(MemorySink {
            bytes: Vec::with_capacity(alloc, capacity)?,
            capacity,
            piece,
            schedule: Schedule::new(alloc, fails)?,
        })
    }

    /// The bytes that were written.
    pub fn bytes(&self) -> &[u8]
        ensures { result.now ≡ held self.now }
    {
        &self.bytes
    }
}

impl Sink for MemorySink {
    ghost use Rattle.std.specs.Prelude.{◌↔◌, ◌-◌, ◌⊎◌, length, min, Some, IsErr};
    ghost use Rattle.io_edge.specs.Causes.{HasCause};
    ghost use Rattle.io_edge.specs.Written.{TakesSome, WriteGrows};
    ghost use Rattle.io_edge.specs.MemoryEnds.{held, capacity_of, capacity_left, FailsNow, IsNextCall};

    ghost written = { λ s. Some s.bytes.items };

    ghost faults = { λ s. s.schedule.faults };

    fn write(&mut self, piece: &[u8]) -> Result<usize, Failed>
        ensures count { TakesSome result piece.now }
        ensures bytes { WriteGrows (Some (held self.old)) (Some (held self.new)) result piece.now }
        ensures cause { HasCause self.old.schedule.faults self.new.schedule.faults result }
        // It fails at the calls that it was given, where no capacity is left, and at no other.
        ensures fails { IsErr result ↔ (FailsNow self.new.schedule ⊎ (capacity_left self.old ≡ 0)) }
        ensures next { IsNextCall self.old.schedule self.new.schedule }
        ensures taken { IfOk result
            (λ n. n ≡ min (min (length piece.now) (capacity_left self.old)) self.old.piece) }
        ensures capacity { capacity_of self.new ≡ capacity_of self.old }
        ensures piece { self.new.piece ≡ self.old.piece }
    {
        if self.schedule.next_fails() {
            return Err(self.schedule.fault());
        }
        let free = self.capacity - self.bytes.len();
        if free == 0 {
            return Err(self.schedule.fault());
        }
        let count = piece.len().min(free).min(self.piece);
        if self.bytes.extend_from_slice(&piece[..count]).is_err() {
            unreachable!()
        }
        Ok(count)
    }
}
