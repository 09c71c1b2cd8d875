//! The commands of the program: one function from the words and the input to the status and the
//! reply.
//!
//! `gkr_run` reads the whole input where the command reads a case, makes the whole reply, and then
//! writes it. Its contract is the theorem of the program (`specs/Headline.antt`): status and bytes
//! are the reply that the definitions give, and a failing source or sink is named exactly where it
//! failed. `run_program` ends a process with the number of that status. `run_alone` runs all
//! commands but `serve`, whose threads wait for each other, and returns. `run_command` and `run_here`
//! run the commands on a case with no handle, for a library.
//!
//! ```text
//! gkr_run(&rt, alloc, &words, &mut source, &mut sink, &OpenGate)      // Status::Done
//! ```
#![tactic(auto)]

mod answering;
mod demo;
mod here;
mod input;
pub mod laws;
mod output;
mod program;
mod reply_error;
mod replying;
mod reported;
mod run;
mod serving;
mod session;
mod status;

pub use here::{run_command, run_here};
pub use program::{NoWords, run_program};
pub use run::{gkr_run, run_alone};
pub use status::Status;
