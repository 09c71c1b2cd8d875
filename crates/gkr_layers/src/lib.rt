//! The Goldwasser-Kalai-Rothblum protocol as definitions and laws, for its prover and its verifier alike.
//!
//! The claim on a layer is at a point, or at two points, the second with a weight. Two rounds of sumcheck for each
//! coordinate of the layer below, and one last message, lead to a claim on that layer: a line through both operands'
//! points, or the pair of values there. `specs/` defines for both forms the summand and the true polynomials, the
//! equations of all layers, the challenges that let a false claim pass, and the honest messages; [`laws`] has completeness
//! and soundness. Source: Thaler, "Proofs, Arguments, and Zero-Knowledge", 4.6, for lines; for pairs, the combination of
//! two claims by a random weight as in Xie and others, "Libra" (2019).
//!
//! ```text
//! laws::honest_is_accepted();     // from here on a contract knows that honest messages meet every equation
//! ```
#![tactic(auto)]

mod claim_place;
mod counts;
pub mod examples;
pub mod laws;
mod verdict;

pub use claim_place::ClaimPlace;
pub use counts::{bound_sum, bound_sum_pair, challenge_count, width_below};
pub use verdict::Verdict;
