//! Script text: cases of clients.
//!
//! A script is a line `client N` with a number from 1 to 64, and the text of a Plain case after it, for each of at most
//! 256 jobs, and then a line `done`. Reading takes the bytes one by one, each by the part that is due, so a refusal has one
//! place and one kind, as for a case. The format is this project's own. In a script that is read for a printed history,
//! a line `withdraw` may come after each case.
//!
//! ```text
//! client 1\ngkr case 1\nprogram 9\noutput 7;\ninput 0\nend\ndone\n
//! ```
#![tactic(auto)]

mod history;
mod jobs;
pub mod laws;
mod reading;
mod script;

pub use history::read_history_script;
pub use jobs::read_script;
pub use script::{MarkedJob, ScriptJob};
