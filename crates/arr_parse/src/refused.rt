//! Why a text is no program.

ghost use Rattle.std.specs.Prelude.{◌≡◌};
ghost use Rattle.arr_parse.specs.declared.refused.ParseRefused.TheVariants.{Memory};

use std::alloc::{AllocError, AllocFailed};
use thiserror::Error;

/// Why a text is no program. Places are byte positions, from 0.
#[derive(Clone, Copy, PartialEq, Eq, Debug, Error)]
pub enum ParseRefused {
    /// The first byte of the first token that what is due can't take, or the text's length where it ends too soon.
    #[error("byte {at} continues no program")]
    Syntax { at: usize },
    /// The first byte of a token that begins a 65th level of open brackets and unary minuses.
    #[error("byte {at} begins a level too many")]
    Nesting { at: usize },
    /// Memory ran out. Nothing is known of the text.
    #[error("out of memory")]
    Memory,
}

impl From<AllocError> for ParseRefused {
    ghost from_gives = { λ _ e. e ≡ Memory };

    fn from(_: AllocError) -> Self {
        ParseRefused::Memory
    }
}

impl<T: Drop> From<AllocFailed<T>> for ParseRefused {
    ghost from_gives = { λ _ e. e ≡ Memory };

    fn from(_: AllocFailed<T>) -> Self {
        ParseRefused::Memory
    }
}
