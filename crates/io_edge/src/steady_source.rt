//! A source over memory that never fails.

ghost use Rattle.std.specs.Prelude.{◌≡◌, ◌<◌, ◌≤◌, vec_len};

use crate::copying::copy_prefix;
use crate::{Failed, Source};
use std::alloc::{AllocError, Global};

/// A source over bytes in memory that never fails. It gives at most `piece` of them a call.
#[derive(Drop)]
pub struct SteadySource {
    bytes: Vec<u8>,
    taken: usize,
    piece: usize,
    calls: u64,
    largest_buffer: usize,
    ghost within: { taken ≤ vec_len bytes },
    ghost some: { 0 < piece },
}

impl SteadySource {
    ghost use Rattle.std.specs.Prelude.{IfOk};
    ghost use Rattle.io_edge.specs.MemoryEnds.{steady_unread};

    /// A source of a copy of `bytes`. An error where no memory is left.
    pub fn new(alloc: Global, bytes: &[u8], piece: usize) -> Result<Self, AllocError>
        requires { 0 < piece }
        ensures bytes { IfOk result (λ made. steady_unread made ≡ bytes.now) }
        ensures piece { IfOk result (λ made. made.piece ≡ piece) }
    {
        Ok(SteadySource {
            bytes: Vec::from_slice(alloc, bytes)?,
            taken: 0,
            piece,
            calls: 0,
            largest_buffer: 0,
        })
    }
}

impl Source for SteadySource {
    ghost use Rattle.std.specs.Prelude.{◌+◌, ◌-◌, ◌^◌, length, min, max, drop, Some, Ok};
    ghost use Rattle.std.specs.Io.{ReadsAtMost};
    ghost use Rattle.std.specs.Io.KnownBytes.{ReadConsumes};
    ghost use Rattle.io_edge.specs.Calls.{CallsAtMost};
    ghost use Rattle.io_edge.specs.Causes.{HasCause};
    ghost use Rattle.io_edge.specs.MemoryEnds.{steady_unread, steady_calls};

    ghost left = { λ s. Some (drop s.taken s.bytes.items) };

    ghost faults = { λ _. 0 };

    ghost calls = { λ s. Some (record { count = s.calls; largest_buffer = s.largest_buffer }) };

    fn read(&mut self, buffer: &mut [u8]) -> Result<usize, Failed>
        ensures bound { ReadsAtMost result buffer.new }
        ensures bytes { ReadConsumes (Some (steady_unread self.old)) (Some (steady_unread self.new))
            result buffer.new }
        ensures cause { HasCause 0 0 result }
        ensures called { CallsAtMost 1 (length buffer.old) (Some (steady_calls self.old))
            (Some (steady_calls self.new)) }
        ensures counted { steady_calls self.new ≡ record {
          count = min (self.old.calls + 1) (2 ^ 64 - 1);
          largest_buffer = max self.old.largest_buffer (length buffer.old);
        } }
        ensures count { result ≡ Ok
            (min (min (length (steady_unread self.old)) (length buffer.old)) self.old.piece) }
        ensures piece { self.new.piece ≡ self.old.piece }
    {
        self.calls = self.calls.saturating_add(1);
        self.largest_buffer = self.largest_buffer.max(buffer.len());
        let count = copy_prefix(&self.bytes[self.taken..], buffer, self.piece);
        self.taken += count;
        Ok(count)
    }
}
