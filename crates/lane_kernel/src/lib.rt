//! Kernels over several pairs of numbers at a time.
//!
//! Elements of the complex extension of the field of p = 2^31 - 1 are kept in two slices of numbers below p, their real and their
//! imaginary parts. [`fold_pairs`] binds the first coordinate of a table, and [`pair_sums`] adds up what the pairs of three
//! tables give to a round of sumcheck. Four pairs are worked at once by vectors. Source: Xie, Zhang, Zhang, Papamanthou and
//! Song, "Libra" (2019), 3.
//!
//! ```text
//! let mut re = [1, 2, 3, 4];
//! let mut im = [0, 0, 0, 0];
//! fold_pairs(&mut re, &mut im, (5, 0));      // re begins with 6, 8
//! ```
#![tactic(auto)]

mod fold;
mod lanes;
mod sums;

pub use fold::fold_pairs;
pub use sums::pair_sums;
