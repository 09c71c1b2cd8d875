//! The jobs of a script, answered by the proving service.
//!
//! Each job's case is proved, or refused, as `prove` does it, and the replies are in the script's order. How many
//! workers a proof has, how many threads prove and how many submit changes no reply. `serve_script_history` also gives the
//! history that the service's table had, in which a client may have withdrawn jobs.
//!
//! ```text
//! serve_script(rt, alloc, script, Threading { workers: 2, provers: 2, clients: 3 }, &OpenGate)
//! ```
#![tactic(auto)]

mod history;
mod prover;
mod script;

pub use history::serve_script_history;
pub use script::{Threading, serve_script};
