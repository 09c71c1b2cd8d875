//! A live session on a case, both ends of it over memory.
//!
//! `session_case` lays out the case's program, takes its meaning on the case's inputs as the claimed outputs, and lets the
//! verifier, which sends the words that it is given, and the honest prover hand each other bytes in pieces, until the prover
//! has the last byte. The definitions say what each end has sent by then, whatever the pieces are; `laws` says that the
//! verifier accepts, and that neither end waits for the other before.
//!
//! ```text
//! session_case(&rt, alloc, &session, 7, 1, &OpenGate)?      // SessionSizes { challenges: 4, to_prover: 33, to_verifier: 64 }
//! ```
#![tactic(auto)]

mod challenges;
mod exchange;
pub mod laws;
mod refused;
mod session;

pub use refused::SessionRefused;
pub use session::session_case;
