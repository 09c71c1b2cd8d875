//! The checks of a program of the array language: its run over shapes alone, without values.
//!
//! `arr_run` goes through statements and loops as they would be evaluated, and counts steps, nodes of the circuit to come and outputs. The
//! first thing that breaks a rule is the refusal, with the byte that it names; `docs/language.md` has the rules. A program that
//! nothing refuses comes back as `Checked`, with its counts. Here arrays are nothing at all, so only shapes and counts are left.
//!
//! `input v[2]; output v+1;` is refused as Shape at the `+`, byte 20.
#![tactic(auto)]

mod checked;
mod checking;
pub mod laws;
mod shapes;

pub use arr_scope::{CheckKind, CheckRefused};
pub use checked::Checked;
pub use checking::check;
