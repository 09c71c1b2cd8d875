//! Why a text has no circuit.

ghost use Rattle.std.specs.Prelude.{◌≡◌};
ghost use Rattle.arr_compile.specs.declared.refused.CompileRefused.TheVariants.{Memory};

use arr_ast::ProgramKind;
use thiserror::Error;

/// Why a text is no program that runs.
#[derive(Clone, Copy, PartialEq, Eq, Debug)]
pub enum BadProgram {
    /// Where the text is refused, in bytes from 0, and by which rule.
    At { at: usize, kind: ProgramKind },
    /// The circuit would have this many layers above the input.
    Deep { levels: usize },
    /// The lowest height with too many positions, and how many it has before padding.
    Wide { height: usize, width: usize },
}

/// What stands in the way of a program.
#[derive(Clone, Copy, PartialEq, Eq, Debug, Error)]
pub enum CompileRefused {
    #[error("the text is no program: {0:?}")]
    Bad(BadProgram),
    #[error("out of memory")]
    Memory,
}
