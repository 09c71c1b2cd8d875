//! One run of programs, over any kind of arrays, for both languages.
//!
//! A call of a definition runs its body in a scope of its own, which has only the parameters, and the body may call only earlier
//! definitions. So calls are nested no deeper than there are definitions, and a run of them ends.
#![tactic(auto)]

mod defined;
mod expression;
mod factor;
mod machine;
mod operation;
mod place;
mod program;
mod statement;
mod task;

pub use machine::Machine;
pub use program::{Ran, run};
