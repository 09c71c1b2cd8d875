//! The interactive protocol, live: a verifier and a prover as state machines over bytes.
//!
//! [`LiveVerifier`] sends challenges of 8 bytes, which it was given at its start, and takes the prover's messages, an element
//! in 8 bytes; after the last it sends one byte, 1 where it accepts. [`LiveProver`] takes those and sends the honest
//! messages. What an end sends and answers is a function of the bytes that it was fed, however they were cut into pieces, so
//! that any transport will do. Challenges that the other end can't foresee need no hash. Source: Goldwasser, Kalai and
//! Rothblum (2008); Thaler, "Proofs, Arguments, and Zero-Knowledge", 4.6.
//!
//! ```text
//! let mut verifier = LiveVerifier::start(alloc, &circuit, &inputs, &outputs, &words)?;
//! let progress = verifier.feed(&bytes)?;      // Progress::Waiting, or Ended with the verdict
//! ```
#![tactic(auto)]

mod course;
mod ending;
mod intake;
pub mod laws;
mod layout;
mod progress;
mod prover;
mod verifier;

pub use progress::{LiveFault, Progress, ProverStop};
pub use prover::LiveProver;
pub use verifier::LiveVerifier;
