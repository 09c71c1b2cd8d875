//! A sink into memory that never fails.

ghost use Rattle.std.specs.Prelude.{◌≡◌, ◌≤◌, [], true, IfOk, vec_len, vec_capacity};

use crate::{Failed, Sink};
use std::alloc::{AllocError, Global};

/// A sink into memory that never fails. Its buffer is taken when it is made. Past it the sink still takes bytes, and
/// from then on nothing is known of it.
#[derive(Drop)]
pub struct SteadySink {
    bytes: Vec<u8>,
    capacity: usize,
    is_known: bool,
    ghost within: { vec_len bytes ≤ capacity },
    ghost ready: { capacity ≤ vec_capacity bytes },
}

impl SteadySink {
    ghost use Rattle.io_edge.specs.MemoryEnds.{steady_held, steady_capacity};

    /// A sink of which up to `capacity` bytes are known. An error where no memory is left.
    pub fn new(alloc: Global, capacity: usize) -> Result<Self, AllocError>
        ensures { IfOk result (λ made. (steady_held made ≡ []) × (steady_capacity made ≡ capacity)
            × (made.is_known ≡ true)) }
    {
        Ok(SteadySink {
            bytes: Vec::with_capacity(alloc, capacity)?,
            capacity,
            is_known: true,
        })
    }

    /// Whether what was written is known.
    pub fn is_known(&self) -> bool
        ensures { result ≡ self.now.is_known }
    {
        self.is_known
    }

    /// The bytes that were written, while they are known.
    pub fn bytes(&self) -> &[u8]
        ensures { result.now ≡ steady_held self.now }
    {
        &self.bytes
    }
}

impl Sink for SteadySink {
    ghost use Rattle.std.specs.Prelude.{◌↔◌, ◌+◌, length, Ok, IsTrue};
    ghost use Rattle.io_edge.specs.Causes.{HasCause};
    ghost use Rattle.io_edge.specs.Written.{TakesSome, WriteGrows};
    ghost use Rattle.io_edge.specs.MemoryEnds.{steady_held, steady_capacity, known};

    ghost written = { λ s. known s };

    ghost faults = { λ _. 0 };

    fn write(&mut self, piece: &[u8]) -> Result<usize, Failed>
        ensures count { TakesSome result piece.now }
        ensures bytes { WriteGrows (known self.old) (known self.new) result piece.now }
        ensures cause { HasCause 0 0 result }
        ensures whole { result ≡ Ok (length piece.now) }
        // The bytes stay known while the piece goes into the buffer that is left.
        ensures is_known { IsTrue self.new.is_known
            ↔ (IsTrue self.old.is_known
            × (length (steady_held self.old) + length piece.now ≤ steady_capacity self.old)) }
        ensures capacity { steady_capacity self.new ≡ steady_capacity self.old }
    {
        if piece.len() > self.capacity - self.bytes.len() {
            self.is_known = false;
        } else if self.bytes.extend_from_slice(piece).is_err() {
            unreachable!()
        }
        Ok(piece.len())
    }
}
