//! Parts of texts: a text is read from its beginning, one part after the other.
//!
//! A part takes bytes from the beginning and answers its value and the bytes left, or a [`Stop`]: how many bytes are left
//! from the first that wasn't taken on, and what was due there. The bytes left are the cursor, and [`Stop::place`] its
//! place in the whole. The parts are a fixed [`word`], a [`decimal`] by its [`Rule`] and [`counted_bytes`]; a choice by
//! the first byte, what is optional, items one after another, and the [`end`] are made of them. Each has one law: it
//! takes exactly what it spells, or stops at the longest prefix with which some text begins. A format is then its list of
//! parts, and what holds of its reader follows from theirs.
//!
//! ```
//! let rest = word(DueKind::Section, b"input ", bytes)?;
//! let (count, rest) = decimal(rule, rest)?;
//! ```
#![tactic(auto)]

mod due;
pub mod laws;
mod parts;
mod rule;
mod stop;

pub use due::DueKind;
pub use parts::{counted_bytes, decimal, end, word};
pub use rule::Rule;
pub use stop::{ReadError, Stop, stop_at};
