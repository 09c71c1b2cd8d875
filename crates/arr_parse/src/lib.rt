//! From the tokens of a program to its tree, for the array language.
//!
//! The grammar is predictive: the next token decides which row of the part that is due is taken. `*` binds tighter than `+` and
//! `-`, and both join from the left. An open bracket and a unary `-` whose operand isn't ended are one level each; more than 64
//! levels are refused, so no call here, and no drop of a tree, recurses deeper than a small multiple of that.
//! The grammar is that of the text's language, by one parser for both.
//! The tree is the only one whose spelling is the tokens, and the first refusal is the one that reading from the left gives:
//! `specs/Reading.antt` says how. A name's tree keeps no bytes: it has a number, the place of the first token that is this name,
//! so numbers are equal exactly where the bytes are (`specs/Names.antt`). `laws` joins the two: tokens that reading doesn't
//! refuse have a tree, the tokens of a tree are refused for nesting alone, and a text has at most one tree, which depends on
//! places in nothing but places. What the first language reads has the same tree in the second.
//!
//! `output 1 + 2 * 3;` is an output of a sum whose second term is a product.
#![tactic(auto)]

mod boxed;
mod cursor;
mod definition;
mod expression;
mod index;
mod indices;
mod input;
pub mod laws;
mod program;
mod refused;
mod source;
mod statement;

pub use program::parse;
pub use refused::ParseRefused;
