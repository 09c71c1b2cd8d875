//! What one layer takes: its rounds, their stages, the loops that vector kernels would take the place of, and a table's fold.
//!
//! Each public function prints its figures for a size, and is run by hand through `gkr_bench`; `docs/benchmarks.md` has
//! what they printed. Of these functions nothing is proved but that they are safe.
#![tactic(auto)]

pub mod kernels;
mod plain_layer;
pub mod proving;
pub mod stages;
pub mod tables;
