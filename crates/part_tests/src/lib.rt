//! A toy format by the parts of texts, as a pattern for the next one.
//!
//! A note has three lines: `note 1\npages 7\nend\n`. Its definition is `specs/Notes.antt`: the text by its pieces, and the
//! parts in order. `proofs/Notes.antt` has one row a part; that a reader takes exactly the notes, and that no note begins
//! another, follow from the laws of the parts.
#![tactic(auto)]

pub mod laws;
mod note;
#[cfg(test)]
mod tests;

pub use note::read_note;
