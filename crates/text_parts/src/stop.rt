//! Where reading stops.

ghost use Rattle.std.specs.Prelude.{◌≡◌, ◌-◌, length};
ghost use Rattle.text_parts.specs.declared.stop.ReadError.TheVariants.{Memory};
ghost use Rattle.text_parts.specs.Parts.{stopped};

use crate::due::DueKind;
use std::alloc::{AllocError, AllocFailed};

/// How many bytes are left from the first that wasn't taken on, and what was due there.
#[derive(Clone, Copy, Debug, PartialEq, Eq)]
pub struct Stop {
    pub left: usize,
    pub kind: DueKind,
}

impl Stop {
    /// The place where reading these bytes stopped: how many of them were taken.
    pub fn place(self, bytes: &[u8]) -> usize
        ensures { result ≡ length bytes.now - self.left }
    {
        bytes.len().saturating_sub(self.left)
    }
}

/// Why reading ended: memory ran out, or a byte wasn't due.
#[derive(Clone, Copy, Debug, PartialEq, Eq)]
pub enum ReadError {
    Memory,
    Stopped(Stop),
}

impl From<AllocError> for ReadError {
    ghost from_gives = { λ _ e. e ≡ Memory };

    fn from(_e: AllocError) -> ReadError {
        ReadError::Memory
    }
}

impl<T: Drop> From<AllocFailed<T>> for ReadError {
    ghost from_gives = { λ _ e. e ≡ Memory };

    fn from(_e: AllocFailed<T>) -> ReadError {
        ReadError::Memory
    }
}

/// Reading stops before these bytes.
pub fn stop_at(rest: &[u8], kind: DueKind) -> ReadError
    ensures { result ≡ ReadError.Stopped (stopped kind rest.now) }
{
    ReadError::Stopped(Stop {
        left: rest.len(),
        kind,
    })
}
