//! Numbered work, done by workers that claim it piece by piece.
//!
//! [`run`] works the pieces 0 to n - 1 with up to 64 workers, each in a thread of its own, and gathers what they give in the
//! order of the pieces. Each piece is claimed from a board, passed through a gate and worked once, whatever the number of
//! workers and the order of their claims: the result is always the outputs in order.
//!
//! ```text
//! struct Squares;
//! impl PieceWork for Squares { .. fn work(&self, alloc, k) -> Result<u64, AllocError> { Ok(u64::from(k) * u64::from(k)) } }
//! let squares = run(rt, alloc, 5, 4, &Squares, &OpenGate)?;        // 0, 1, 4, 9, 16
//! ```
//!
//! [`run_parts`] changes numbered parts in place instead. They lie in the slots of a board: a worker that claims a part takes it
//! out, works it, and puts it back at its place.
#![tactic(auto)]

mod gathering;
mod part_workers;
mod phase;
mod work;
mod workers;

pub use phase::{run, run_parts};
pub use work::{PartWork, PieceWork};
