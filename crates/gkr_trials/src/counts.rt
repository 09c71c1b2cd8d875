//! How many cases went which way.

use crate::trial::Outcome;

/// The cases so far, by their ends.
#[derive(Clone, Copy, Debug)]
pub struct Counts {
    /// Refused by `eval` or `prove`.
    pub refused: u64,
    /// Proved and accepted; then, with a byte changed, refused as text, program, numbers or proof.
    pub spoiled_refused: u64,
    /// The same, rejected by an equation.
    pub spoiled_rejected: u64,
    /// The same, accepted with outputs that are the program's meaning.
    pub harmless: u64,
    /// Something that must hold doesn't.
    pub broken: u64,
}

impl Counts {
    /// No case yet.
    pub fn new() -> Counts {
        Counts {
            refused: 0,
            spoiled_refused: 0,
            spoiled_rejected: 0,
            harmless: 0,
            broken: 0,
        }
    }

    /// How many were proved and accepted.
    pub fn accepted(&self) -> u64 {
        self.spoiled_refused
            .saturating_add(self.spoiled_rejected)
            .saturating_add(self.harmless)
    }

    /// Counts one more.
    pub fn add(&mut self, trial: Outcome) {
        let count = match trial {
            Outcome::Refused => &mut self.refused,
            Outcome::SpoiledRefused => &mut self.spoiled_refused,
            Outcome::SpoiledRejected => &mut self.spoiled_rejected,
            Outcome::Harmless => &mut self.harmless,
            Outcome::Broken(_) => &mut self.broken,
        };
        *count = count.saturating_add(1);
    }
}
