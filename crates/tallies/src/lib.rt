//! Counting what several threads know and have drawn.
//!
//! The rule of a structure that threads share speaks of all that they know at once: of totals over their views, and of
//! how often a number is in their lists. This crate has these counts as definitions (`specs/Tallies.antt`), what a
//! step of one thread does to them as lemmas (`proofs/Totals.antt`), and laws on lists of numbers below n, each of them
//! once: such a list is a permutation of 0 to n - 1, and the other way round.
//!
//! ```text
//! total (λ view. view.shares) views ≡ shares           -- what is given to all threads is what there is
//! total (λ view. times x view.drawn) views ≤ 1         -- no two threads have drawn x
//! ```
#![tactic(auto)]

pub mod laws;
