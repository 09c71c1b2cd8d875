//! The kinds of refusals of a program.

/// Why a program is refused.
#[derive(Clone, Copy, PartialEq, Eq, Debug)]
pub enum ProgramKind {
    /// A byte begins no token, or a digit breaks the rule for numbers.
    Lex,
    /// A token that continues no program, or the end of one that isn't whole.
    Syntax,
    /// A level of brackets and negations past the deepest.
    Nesting,
    /// A name that isn't in scope, or in an index expression no loop variable.
    Unknown,
    /// A name declared twice, or a loop variable assigned.
    Taken,
    /// A shape that doesn't fit.
    Shape,
    /// An index outside its dimension.
    Index,
    /// A part of an index expression that is too large.
    IndexSize,
    /// Bounds of a loop that are no range.
    Bounds,
    /// A step too many.
    Steps,
    /// A node too many.
    Nodes,
    /// A definition too many.
    Defs,
    /// A dimension outside its limits.
    Dims,
    /// An output too many.
    Outputs,
    /// No output at all.
    NoOutput,
}
