//! Gates for tests: one that counts who passes, and one that sees whether two come to a piece at one time.
//!
//! A test lends one to workers in place of the open gate, and asks it afterwards.
#![tactic(auto)]

mod counting;
mod meeting;

pub use counting::CountingGate;
pub use meeting::MeetingGate;
