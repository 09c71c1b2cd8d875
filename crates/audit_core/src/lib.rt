//! Audits of proofs, by whoever can recompute them.
//!
//! A verifier accepts or names the first equation that fails. An auditor has the circuit's values, runs the honest prover
//! at the challenges that were drawn, and reports more: [`audit`] says whether the outputs are the circuit's, which message is
//! the first that isn't the true polynomial, and which challenge is the first that is exceptional, so that a false claim may
//! pass at it. An accepted proof of false outputs always has such a challenge ([`laws`]). Source: Thaler, "Proofs, Arguments,
//! and Zero-Knowledge", 4.1 and 4.6, whose proof of soundness it follows along one run.
//!
//! ```text
//! let values = layer_values_alone(alloc, &circuit, &inputs)?;
//! let audit = audit(alloc, &circuit, &values, &outputs, &messages, &mut challenges)?;
//! audit.challenge      // by its number and value
//! ```
#![tactic(auto)]

mod auditor;
mod comparing;
mod drawing;
mod found;
mod inputs;
pub mod laws;
mod outputs;
mod place;
mod report;

pub use auditor::{audit, audit_as};
pub use gkr_layers::Verdict;
pub use place::Place;
pub use report::Audit;
