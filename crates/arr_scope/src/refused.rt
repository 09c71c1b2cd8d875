//! Why a program is refused.

ghost use Rattle.std.specs.Prelude.{◌≡◌};
ghost use Rattle.arr_scope.specs.declared.refused.CheckRefused.TheVariants.{Memory};

use std::alloc::{AllocError, AllocFailed};
use thiserror::Error;

/// What a program breaks, with the place that a refusal names.
#[derive(Clone, Copy, PartialEq, Eq, Debug, Error)]
pub enum CheckKind {
    /// A name isn't in scope, in an index expression isn't a loop variable, or in a call isn't an earlier definition's; at the name.
    #[error("unknown name")]
    Unknown,
    /// A name in scope or of a definition is declared, or a loop variable is assigned; at the name.
    #[error("name taken")]
    Taken,
    /// Shapes don't fit, or a call has another number of arguments; at the operator, the function's word, the element's or the called
    /// name, or the first byte of an assigned value.
    #[error("shapes do not fit")]
    Shape,
    /// An index is outside its dimension; at its first byte.
    #[error("index outside its dimension")]
    Index,
    /// A part of an index expression passes 2^31 in absolute value; at the first byte of the whole index expression.
    #[error("index too large")]
    IndexSize,
    /// The bounds of a loop are below 0, in the wrong order, or past the field's modulus; at the first byte of the lower one.
    #[error("bounds of no loop")]
    Bounds,
    /// A step would be number 1,048,577; at the statement, for a turn at the loop's `for`, for a call at its name.
    #[error("too many steps")]
    Steps,
    /// There would be more than 262,144 nodes, in language 2 more than 1,048,576; at the constant, operator, function's word or input's name.
    #[error("too many nodes")]
    Nodes,
    /// A definition is the 65th; at its word.
    #[error("too many definitions")]
    Defs,
    /// A dimension isn't 1 to 4,096; at its number.
    #[error("dimension outside 1 to 4096")]
    Dims,
    /// There would be more than 65,535 outputs; at the word `output`.
    #[error("too many outputs")]
    Outputs,
    /// The run ends without an output statement; at the text's length.
    #[error("no output")]
    NoOutput,
}

/// Why a program is refused.
#[derive(Clone, Copy, PartialEq, Eq, Debug, Error)]
pub enum CheckRefused {
    /// What is broken first as the statements are run, and the byte position that it names.
    #[error("byte {at}: {kind}")]
    Bad { at: usize, kind: CheckKind },
    /// Memory ran out. Nothing is known of the program.
    #[error("out of memory")]
    Memory,
}

impl From<AllocError> for CheckRefused {
    ghost from_gives = { λ _ e. e ≡ Memory };

    fn from(_: AllocError) -> Self {
        CheckRefused::Memory
    }
}

impl<T: Drop> From<AllocFailed<T>> for CheckRefused {
    ghost from_gives = { λ _ e. e ≡ Memory };

    fn from(_: AllocFailed<T>) -> Self {
        CheckRefused::Memory
    }
}
