//! The circuit of a batch: many copies of one circuit side by side, as one layered circuit.
//!
//! An instance is one run of a program on inputs of its own. `specs/` defines the copies of a circuit's gates and tables and
//! the claim that each instance has the outputs given for it; [`laws`] has what makes that claim cheap to check: wiring
//! polynomials of copies are those of one copy times a product over the copies' coordinates, and values of copies are the
//! copies' values. Source: Thaler, "Time-Optimal Interactive Proofs for Circuit Evaluation" (2013), on data-parallel
//! computation.
//!
//! ```text
//! laws::product_form();     // from here on a contract knows the wiring of copies by that of one copy
//! ```
#![tactic(auto)]

mod copied_wiring;
mod copies;
pub mod examples;
mod instances;
pub mod laws;
mod sums;
mod value_weights;
mod weights;

pub use copied_wiring::{same_copy, wiring_of_copies};
pub use copies::copy_exponent;
pub use instances::{Instances, claimed_extension, input_extension};
pub use weights::fill_weights;
