//! Five callers of the crates below, each proved from their public contracts.
//!
//! They show how the parts are used without the commands: a prover and a verifier that talk to each other, a verifier over the
//! bytes of a proof, one with a given list of challenges, a table that is folded and evaluated, and a case that is written
//! and read again. What each of them promises follows from the clauses and laws of what it calls.
//!
//! ```text
//! prove_and_check(rt, alloc, &circuit, &statement, 4)?      // Verdict::Accepted
//! ```
#![tactic(auto)]

mod bytes;
mod cases;
mod checking;
mod folding;
mod given;
mod honest;

pub use bytes::accepts_bytes;
pub use cases::write_and_read;
pub use folding::fold_and_evaluate;
pub use given::check_with;
pub use honest::prove_and_check;
