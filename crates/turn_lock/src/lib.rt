//! A lock round one state, whose history threads add to in turns.
//!
//! A thread draws a ticket, waits until it is served, takes the state out, and gives it back with at most one entry
//! more in its history. What a turn knows is a beginning of one history for all turns (`seen`), and each place of the
//! history is owned by one turn (`mine`). So a structure over the lock can say of every answer that it is the answer
//! of one history, and what the caller's own entries were.
//!
//! The lock is a ticket lock (Mellor-Crummey and Scott, "Algorithms for scalable synchronization on shared-memory
//! multiprocessors", 1991) over three words and a slot of `atomic_table`: the next ticket, the ticket that is served,
//! the length of the history, and the state. A thread that waits looks for a short time and then sleeps.
//!
//! ```text
//! let state = lock.turn(rt, &mut turn);          // the history begins with all that the turn has seen
//! ..                                             // add an entry, or none
//! lock.give_back(&mut turn, state, added);       // the turn has seen it, and owns the new place
//! ```
#![tactic(auto)]

mod lock;
mod rule;
mod storied;

pub use lock::{Turn, TurnLock};
pub use storied::Storied;
