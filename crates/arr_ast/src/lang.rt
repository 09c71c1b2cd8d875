//! The languages.

/// A language of programs. A text that the first accepts means the same in the second.
#[derive(Clone, Copy, PartialEq, Eq, Debug)]
pub enum Lang {
    /// No definitions, and smaller limits.
    One,
    /// Definitions and their calls, and larger limits.
    Two,
}
