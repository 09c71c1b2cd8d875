//! Ratios as they are printed.

use std::fmt;

/// The most of what a ratio is taken of, and the most that it is taken to.
const MOST: u64 = 1_000_000_000_000;

/// A ratio in hundredths, printed with two digits after the point.
#[derive(Clone, Copy)]
pub struct Ratio(u64);

impl Ratio {
    /// The ratio of a number to another, each taken to be at most `10^12`, the other at least 1.
    pub fn of(number: u64, other: u64) -> Ratio {
        Ratio(number.min(MOST) * 100 / other.clamp(1, MOST))
    }
}

impl fmt::Display for Ratio {
    fn fmt<W: fmt::Write>(&self, f: &mut fmt::Formatter<W>) -> fmt::Result {
        write!(f, "{}.{:02}", self.0 / 100, self.0 % 100)
    }
}
