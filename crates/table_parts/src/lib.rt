//! The parts of a phase's working tables, each with the same range of all three.
//!
//! A phase of a layer's sumcheck sums the product of the extensions of two tables plus that of a third. The tables are cut into
//! parts of at most 2,048 values, so that a round can be summed and bound part by part, in any order. A table of scales or shifts
//! that is all zeros isn't kept. Source: Xie, Zhang, Zhang, Papamanthou and Song, "Libra" (2019), 3; Thaler, "Proofs, Arguments,
//! and Zero-Knowledge", 4.6.
//!
//! ```text
//! fill_parts(&mut parts, size, &table, &scales, &shifts, base);
//! let message = parts[0].sum();       // what the pairs of the first give to a round
//! parts[0].fold(challenge);
//! ```
#![tactic(auto)]

mod column;
mod folding;
mod pairs;
mod part;
mod parts;
mod reading;

pub use part::Part;
pub use parts::{PART_VALUES, cut_count, fill_parts, fit_parts, fold_parts, merge_parts};
