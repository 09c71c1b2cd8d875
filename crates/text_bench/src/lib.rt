//! What texts take: programs, of which `programs` writes some of given sizes, cases, and the bytes of proofs.
//!
//! The functions of `evaluating` and `texts` print their figures for a size, and are run by hand through `gkr_bench`;
//! `docs/benchmarks.md` has what they printed. Of these functions nothing is proved but that they are safe.
#![tactic(auto)]

pub mod evaluating;
pub mod programs;
pub mod texts;
