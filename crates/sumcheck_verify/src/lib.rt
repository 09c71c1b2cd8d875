//! The verifier's rounds of a sumcheck.
//!
//! A round's message is a polynomial of three coefficients, constant first. Its values at 0 and at 1 have to add to the
//! claim, and the next claim is its value at the round's challenge. Source: Thaler, "Proofs, Arguments, and
//! Zero-Knowledge", 4.1 (Lund, Fortnow, Karloff and Nisan).
//!
//! A round, with the prover of `sumcheck_prove`:
//!
//! ```text
//! let mut rounds = Rounds::start(claim);                     // the verifier begins with the claim
//! let message = round(rt, alloc, &tables, 4, &OpenGate)?;    // the prover: coefficients of 1, X and X²
//! rounds.take(message)?;                                     // the verifier: a SumFault where the sum is wrong
//! rounds.bind(challenge);                                    // both bind the round's coordinate
//! tables.bind(challenge);
//! ```
#![tactic(auto)]

mod rounds;

pub use rounds::{Rounds, SumFault};
