//! Sources of challenges, and the Fiat-Shamir transcript.
//!
//! [`Challenges`] is what a prover and a verifier draw from: it takes each message in, and gives the next challenge.
//! [`Transcript`] makes the protocol non-interactive (Fiat and Shamir; Thaler, ch. 5): each challenge is a SHA-256
//! hash (FIPS 180-4) over the [`Statement`] and all messages before it. [`Given`] hands out a list, for tests and
//! worked examples.
//!
//! ```
//! let mut transcript = Transcript::start(&Statement::of(text, inputs, outputs));
//! transcript.absorb(&message);
//! let challenge = transcript.challenge();
//! ```
#![tactic(auto)]

mod challenges;
mod drawing;
mod feeding;
mod given;
pub mod laws;
mod point;
mod statement;
mod transcript;

pub use challenges::Challenges;
pub use given::Given;
pub use point::draw_point;
pub use statement::Statement;
pub use transcript::Transcript;
