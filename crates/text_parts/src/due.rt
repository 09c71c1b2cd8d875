//! What may be due in a text.

/// What was due where a byte wasn't taken.
#[derive(Clone, Copy, Debug, PartialEq, Eq)]
pub enum DueKind {
    /// The first line.
    Header,
    /// Another fixed word with its space or line end, or the line end after the program.
    Section,
    /// A digit of a number, or the space or line end after it.
    Number,
    /// A digit that takes a value to the field's size or past it.
    Range,
    /// A digit that takes a count or a length past its limit.
    Length,
    /// A hex digit, or the line end after them.
    Hex,
    /// The bytes end where a part is due.
    End,
    /// Bytes follow the whole text.
    Rest,
}
