//! The prover's message of a round of sumcheck, and the binding of its coordinate.
//!
//! The message is the true polynomial of the round, of degree at most 2, as its three coefficients: the sum of what the
//! pieces of the round give, which workers claim and sum in any order; wide tables are folded by workers, too. [`advance_by`] folds and
//! sums in one pass, [`gather_by`] gathers the gates of a phase, and [`line_by`] gives the line that ends the layer, by the same workers.
//! Source: Thaler, "Proofs, Arguments, and Zero-Knowledge", 4.1 and 4.6.
//!
//! A round, with the verifier of `sumcheck_verify`:
//!
//! ```text
//! let mut rounds = Rounds::start(claim);                     // the verifier begins with the claim
//! let message = round(rt, alloc, &tables, 4, &OpenGate)?;    // the prover: coefficients of 1, X and X²
//! rounds.take(message)?;                                     // the verifier: a SumFault where the sum is wrong
//! rounds.bind(challenge);                                    // both bind the round's coordinate
//! bind_round(rt, alloc, &mut tables, challenge, 4, &OpenGate)?;
//! ```
#![tactic(auto)]

mod adding;
mod advancing;
mod binding;
mod entry;
mod gathering;
mod jobs;
mod lines;
mod message;
mod pieces;
mod workers;

pub use adding::round_alone;
pub use advancing::{Advanced, advance_by};
pub use binding::bind_round;
pub use entry::{AtGate, Entry};
pub use gathering::{GatherJobs, gather_by};
pub use jobs::{Job, jobs_for};
pub use lines::{LineJobs, line_by};
pub use message::{round, round_in};
pub use workers::Workers;
