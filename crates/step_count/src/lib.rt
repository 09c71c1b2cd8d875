//! A count of steps that contracts see and that takes no time.
//!
//! A call that is lent a `Steps` ticks once for each of its steps, so that a clause can say how many it takes. The count is
//! a number in the proof alone: nothing of it is left in the program.
//!
//! ```text
//! let mut steps = Steps::<L>::start(blank);
//! tables.bind_counted(challenge, &mut steps);     // its clause says how many steps that took
//! ```
#![tactic(auto)]

mod steps;

pub use steps::Steps;
