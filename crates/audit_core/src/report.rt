//! What an audit says.

use crate::place::Place;
use field_ext::Ext;
use gkr_layers::Verdict;

/// What an audit finds.
#[derive(Clone, Copy, Debug, PartialEq, Eq)]
pub struct Audit {
    /// The verifier's answer.
    pub verdict: Verdict,
    /// Whether the outputs are those that the circuit has.
    pub same: bool,
    /// The first message that differs from the true polynomial, at the challenges that were drawn.
    pub message: Option<Place>,
    /// The first challenge that is exceptional, by its number, counted from 0, and its value.
    pub challenge: Option<(u32, Ext)>,
}
