//! A source over memory that may fail.

ghost use Rattle.std.specs.Prelude.{◌≡◌, ◌<◌, ◌≤◌, vec_len};

use crate::copying::copy_prefix;
use crate::schedule::Schedule;
use crate::{Failed, Source};
use std::alloc::{AllocError, Global};

/// A source over bytes in memory. It gives at most `piece` of them a call, and fails at the calls that it was given.
#[derive(Drop)]
pub struct MemorySource {
    bytes: Vec<u8>,
    taken: usize,
    piece: usize,
    largest_buffer: usize,
    schedule: Schedule,
    ghost within: { taken ≤ vec_len bytes },
    ghost some: { 0 < piece },
}

impl MemorySource {
    ghost use Rattle.std.specs.Prelude.{IfOk};
    ghost use Rattle.io_edge.specs.MemoryEnds.{unread, IsFresh};

    /// A source of a copy of `bytes`. The numbers in `fails` count calls from 1. An error where no memory is left.
    pub fn new(alloc: Global, bytes: &[u8], piece: usize, fails: &[u64]) -> Result<Self, AllocError>
        requires { 0 < piece }
        ensures bytes { IfOk result (λ made. unread made ≡ bytes.now) }
        ensures piece { IfOk result (λ made. made.piece ≡ piece) }
        ensures fails { IfOk result (λ made. IsFresh made.schedule fails.now) }
    {
        Ok(MemorySource {
            bytes: Vec::from_slice(alloc, bytes)?,
            taken: 0,
            piece,
            largest_buffer: 0,
            schedule: Schedule::new(alloc, fails)?,
        })
    }
}

impl Source for MemorySource {
    ghost use Rattle.std.specs.Prelude.{◌↔◌, ◌-◌, length, min, max, drop, Some, IfOk, IsErr};
    ghost use Rattle.std.specs.Io.{ReadsAtMost};
    ghost use Rattle.std.specs.Io.KnownBytes.{ReadConsumes};
    ghost use Rattle.io_edge.specs.Calls.{CallsAtMost};
    ghost use Rattle.io_edge.specs.Causes.{HasCause};
    ghost use Rattle.io_edge.specs.MemoryEnds.{unread, calls_of, FailsNow, IsNextCall};

    ghost left = { λ s. Some (drop s.taken s.bytes.items) };

    ghost faults = { λ s. s.schedule.faults };

    ghost calls = { λ s. Some (record {
      count = s.schedule.calls;
      largest_buffer = s.largest_buffer;
    }) };

    fn read(&mut self, buffer: &mut [u8]) -> Result<usize, Failed>
        ensures bound { ReadsAtMost result buffer.new }
        ensures bytes { ReadConsumes (Some (unread self.old)) (Some (unread self.new)) result
            buffer.new }
        ensures cause { HasCause self.old.schedule.faults self.new.schedule.faults result }
        ensures called { CallsAtMost 1 (length buffer.old) (Some (calls_of self.old))
            (Some (calls_of self.new)) }
        ensures largest_buffer { self.new.largest_buffer
            ≡ max self.old.largest_buffer (length buffer.old) }
        // It fails at the calls that it was given, and at no other.
        ensures fails { IsErr result ↔ FailsNow self.new.schedule }
        ensures next { IsNextCall self.old.schedule self.new.schedule }
        ensures count { IfOk result
            (λ n. n ≡ min (min (length (unread self.old)) (length buffer.old)) self.old.piece) }
        ensures piece { self.new.piece ≡ self.old.piece }
    {
        self.largest_buffer = self.largest_buffer.max(buffer.len());
        if self.schedule.next_fails() {
            return Err(self.schedule.fault());
        }
        let count = copy_prefix(&self.bytes[self.taken..], buffer, self.piece);
        self.taken += count;
        Ok(count)
    }
}
