//! Small circuits and elements by numbers, for tests.
//!
//! A test builds its circuit and its rows of them, and compares with values worked by hand.
#![tactic(auto)]

mod circuits;
mod elements;

pub use circuits::{copy, gate, product};
pub use elements::{number, numbers};
