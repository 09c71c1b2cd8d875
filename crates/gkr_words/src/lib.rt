//! The words of the command line, and the command that they name.
//!
//! `named_command` reads them with `clap`; the definitions say what the command line offers and which command words name,
//! and `laws` which words name `eval`, `prove --workers 4` and the like, for every number.
//!
//! ```text
//! named_command(alloc, &words)?      // Some(Command::OfCase(CaseCommand::Eval)) for `gkr eval`
//! ```
#![tactic(auto)]

pub mod laws;
mod words;

pub use words::{CaseCommand, Command, named_command};
