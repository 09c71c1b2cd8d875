//! From the text of a program to the program that runs, and to its circuit: lexing, reading,
//! checking, lowering and layout, one after another.
//!
//! The whole text is lexed, then all of its tokens are read by the grammar of its language, and
//! then the tree is checked by its run over shapes. A circuit is laid out from the nodes of the
//! checked tree. The first refusal is the answer, with its kind and its place in the text, or with
//! the sizes that are too large. `laws` says that a text has in a language one reading and one
//! circuit, which computes what the text means, that white space between tokens changes neither
//! tree nor meaning, and that the second language keeps what the first accepts.
//!
//! ```text
//! read_program(alloc, b"input a; output a;", Lang::One)?.inputs // 1
//! read_program(alloc, b"output 3 4;", Lang::One)                // refused as Syntax at 9
//! compile(alloc, b"input a; output a;", Lang::One)?.circuit     // one layer above the inputs
//! ```
#![tactic(auto)]

mod compiling;
mod kinds;
pub mod laws;
mod reading;
mod refused;

pub use compiling::{Compiled, compile};
pub use reading::read_program;
pub use refused::{BadProgram, CompileRefused};
