//! Pieces that threads claim by number, each once.
//!
//! A [`ChunkBoard`] of n pieces hands out the numbers 0 to n - 1. Claimers draw them from any number of threads, each by
//! one `fetch_add`, without waiting and without memory. A [`Claimer`] carries shares of the board and what it drew. It can be
//! split between threads and joined again, and the one with all shares closes the board and learns whether all was drawn.
//!
//! The board is the claim machine of `specs/ClaimMachine.antt`: its word is the machine's `next`, its claimers are the
//! workers, and a claim is one step, as the clause `step` of [`ChunkBoard::claim`] says. [`laws`] has what holds of every
//! list of the machine's steps.
//!
//! A [`PartBoard`] is the same machine with a part in a slot for each number: a claim takes the part out of its slot, and it is
//! put back at its place. So a part is in one claimer's hand or at home. Closing the board gives the parts in their order.
//!
//! ```text
//! let (board, mut mine) = ChunkBoard::new(alloc, pieces, 2)?;
//! let mut theirs = board.split(&mut mine, 1);
//! while let Some(k) = board.claim(&mut mine) { .. }      // another thread does the same with `theirs`
//! board.join(&mut mine, theirs);
//! let all = board.close(mine);
//!
//! let (board, mut mine) = PartBoard::new(alloc, parts, 1)?;
//! while let Some((k, part)) = board.claim_part(&mut mine) {
//!     board.put_back(&mut mine, k, worked(part));
//! }
//! let Parts { all, parts } = board.close(mine);
//! ```
#![tactic(auto)]

mod board;
pub mod laws;
mod part_board;
mod part_rule;
mod rule;
mod slots;

pub use board::{ChunkBoard, Claimer};
pub use part_board::{PartBoard, PartClaimer, Parts};
