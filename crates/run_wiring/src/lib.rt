//! Wiring polynomials by runs of gates.
//!
//! The gates of most layers fall into few runs: of one kind, with operands that move by the same step. A run's share of a
//! wiring polynomial is a sum over the places t of products of three equality polynomials, at `first + t`,
//! `left + t * lstep` and `right + t * rstep`; it is summed over the binary digits of t, with a table entry for what the
//! low digits carry over. So the time follows the runs of a layer and the length of its points, and not its gates. The
//! polynomials are those of Thaler, "Proofs, Arguments, and Zero-Knowledge", 4.6.
//!
//! ```text
//! let wirings = wirings(alloc, &circuit)?;                           // the runs of each layer that has few
//! let (add, mul) = wirings[layer].at(&circuit, layer, &z, &b, &c);    // as `wiring_poly::wiring_at`
//! ```
#![tactic(auto)]

mod carries;
mod column;
mod digit_sum;
mod greedy;
mod layer_runs;
mod layer_wiring;
mod run;
mod wiring;

pub use layer_runs::{RunLayer, runs_of, wiring_runs};
pub use layer_wiring::{LayerWiring, wirings};
pub use run::Run;
