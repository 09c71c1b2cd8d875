//! The tokens of the array language: its words, numbers and signs, each with its place in the text.
//!
//! Space, tab, CR and LF separate tokens. A name is a letter or `_`, then letters, digits and `_`; a number is 0, or digits
//! without a leading 0, up to 2147483646. At each place the longest token is taken, so `..` is one sign, and a `.` alone is none.
//! `laws::spans` says so of a text's tokens, with nothing but white space around them. The language is this project's own;
//! `docs/language.md` has its grammar.
//!
//! `output 7;` has the word `output` at bytes 0 to 6, the number 7 at 7 to 8, and `;` at 8 to 9.
#![tactic(auto)]

mod byte;
pub mod laws;
mod lexer;
mod number;
mod refused;
mod token;
mod word;

pub use lexer::tokens;
pub use refused::LexRefused;
pub use token::{Symbol, Token};
