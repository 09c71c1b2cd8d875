//! The forms of cases.

/// Which lines a case has after its inputs: neither outputs nor proof, both, or each or not.
#[derive(Clone, Copy, Debug, PartialEq, Eq)]
pub enum Form {
    /// Neither outputs nor a proof.
    Plain,
    /// Outputs and a proof.
    Full,
    /// Outputs or not, and a proof or not: the first byte of a line picks.
    Any,
}
