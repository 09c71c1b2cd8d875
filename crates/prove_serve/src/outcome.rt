//! How a job ended whose client may have withdrawn it.

use job_core::Entry;

/// How a job ended: with an answer, out of memory, or withdrawn before any thread took it.
#[derive(Drop)]
pub enum HistoryOutcome<A> {
    Answer(A),
    Memory,
    Withdrawn,
}

/// The outcomes of a script's jobs, in its order, and a history of the table with them.
#[derive(Drop)]
pub struct Run<A> {
    pub outcomes: Vec<HistoryOutcome<A>>,
    /// Each step of the table, with the number of its job.
    pub history: Vec<Entry>,
    /// The place in the script, from 0, of each number.
    pub places: Vec<u32>,
}
