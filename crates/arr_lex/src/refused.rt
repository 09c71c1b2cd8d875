//! Why a text has no tokens.

ghost use Rattle.std.specs.Prelude.{◌≡◌};
ghost use Rattle.arr_lex.specs.declared.refused.LexRefused.TheVariants.{Memory};

use std::alloc::{AllocError, AllocFailed};
use thiserror::Error;

/// Why a text has no tokens.
#[derive(Clone, Copy, PartialEq, Eq, Debug, Error)]
pub enum LexRefused {
    /// The first byte, counted from 0, that begins no token, or the digit that breaks the rule for numbers: one after a leading 0,
    /// or one that takes the number past 2147483646.
    #[error("byte {at} belongs to no token")]
    Lex { at: usize },
    /// Memory ran out. Nothing is known of the text.
    #[error("out of memory")]
    Memory,
}

impl From<AllocError> for LexRefused {
    ghost from_gives = { λ _ e. e ≡ Memory };

    fn from(_: AllocError) -> Self {
        LexRefused::Memory
    }
}

impl<T: Drop> From<AllocFailed<T>> for LexRefused {
    ghost from_gives = { λ _ e. e ≡ Memory };

    fn from(_: AllocFailed<T>) -> Self {
        LexRefused::Memory
    }
}
