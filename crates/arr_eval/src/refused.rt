//! Why an evaluation is refused.

use thiserror::Error;

/// Why an evaluation is refused.
#[derive(Clone, Copy, PartialEq, Eq, Debug, Error)]
pub enum EvalRefused {
    /// There are `have` numbers, and the program's inputs take `need`.
    #[error("the program takes {need} numbers, and there are {have}")]
    InputCount { have: u64, need: u64 },
    /// Memory ran out.
    #[error("out of memory")]
    Memory,
}
