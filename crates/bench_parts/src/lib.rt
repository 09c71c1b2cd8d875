//! What the benchmarks share: clocks, numbers and gates to measure with, and ratios as they are printed.
#![tactic(auto)]

mod clock;
mod random;
mod ratio;

pub use clock::{microseconds_since, nanoseconds_since};
pub use random::{Random, numbers};
pub use ratio::Ratio;
