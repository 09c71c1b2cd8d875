//! The verifier of the Goldwasser-Kalai-Rothblum protocol, by lines and by pairs.
//!
//! [`check`] follows the claim on the outputs down the layers: sumcheck's rounds for each layer, the end of the rounds by
//! the wiring polynomials, a point on the line between the two operands' points, and at last the inputs. Its answer is
//! the first equation that fails, or [`Verdict::Accepted`]; where false outputs are accepted, some challenge was one of
//! the few that are exceptional. [`check_pair`] is the same body for proofs in which the claim goes on at both operands'
//! points. Source: Thaler, "Proofs, Arguments, and Zero-Knowledge", 4.6; for pairs Xie and others, "Libra" (2019).
//!
//! ```text
//! let verdict = check(alloc, &circuit, &inputs, &outputs, &messages, &mut challenges)?;
//! ```
//!
//! A proof of version 2 leaves out a coefficient of each round, the one that the claim determines. [`fill`] puts it back, and
//! [`check_two`] is [`check`] of the messages so filled; [`first_sum`] says whether messages are those that would be filled
//! in, by the first round that does not add to its claim.
#![tactic(auto)]

mod blocks;
mod both;
mod buffers;
mod claim_place;
mod end;
mod extension;
mod filling;
mod kept;
pub mod laws;
mod layer;
mod layers;
mod rounds;
mod short;
mod sums;
mod tables;
mod verifier;

pub use buffers::CheckBuffers;
pub use filling::fill;
pub use gkr_layers::{Verdict, bound_sum, challenge_count};
pub use short::check_two;
pub use sums::{LayerSum, first_sum};
pub use verifier::{check, check_as, check_pair};
