//! What the commands do with one case.
//!
//! `eval_case` reads the program of a case and gives its outputs: the program's meaning on the case's inputs.
//! `circuit_case` lays the program out as a circuit and gives its sizes. `prove_case` gives the case with its outputs and
//! their proof, by lines or by pairs, `prove_case_alone` the same on the calling thread, and `verify_case` the verdict on the case's proof, whose fourth byte tells its form.
//! `audit_case` reports of a proof by lines what an auditor finds who runs the honest prover beside it, and `convert_case` writes
//! such a proof in another version. The refusals come in one order: the program, the number of inputs, that of outputs, and
//! the proof's bytes. `laws` says that what is proved is accepted, is one for its kind and has a text short enough to be read,
//! and that what is converted has the verdicts of the case.
//!
//! ```text
//! the case of `input a; output a;` with the input 5       // the output 5
//! the same with the inputs 5 6                            // refused as Input { have: 2, need: 1 }
//! ```
#![tactic(auto)]

mod answered;
mod auditing;
mod circuit;
mod converting;
mod evaluation;
pub mod laws;
mod proving;
mod proving_alone;
mod read_proof;
mod refused;
mod started;
mod verification;

pub use answered::{Answered, answer_case};
pub use audit_core::{Audit, Place};
pub use auditing::audit_case;
pub use circuit::{circuit_case, circuit_of};
pub use converting::{Converted, convert_case};
pub use evaluation::eval_case;
pub use proving::{meant_outputs, prove_case, prove_laid_out};
pub use proving_alone::prove_case_alone;
pub use refused::Refused;
pub use verification::{verify_case, verify_laid_out};
