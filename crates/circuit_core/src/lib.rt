//! Layered circuits of add and multiply gates (Thaler, "Proofs, Arguments, and Zero-Knowledge", ch. 4).
//!
//! Layer 0 holds the outputs and layer H the leaves. Layer i has `2^k` positions, and each of its gates has two operands
//! in layer i + 1. Position 0 of each layer, and the padding, are `add(0, 0)`, so that they stand for 0. The type keeps
//! that operands are in range, that sizes are powers of two, and that there is an output; `Circuit::of` is the test.
//!
//! ```text
//! Circuit::of(alloc, layers, 4, leaves, 2, 1)     // refused at the first fault, in a fixed order
//! ```
#![tactic(auto)]

mod circuit;
mod fault;
mod gate;
mod lists;
mod shape;
mod value;

pub use circuit::Circuit;
pub use fault::{BadCircuit, CircuitRefused};
pub use gate::{CircuitGate, Kind, Layer, Leaf};
pub use shape::Shape;
pub use value::{gate_value, leaf_value};

/// The most layers above the input.
pub const GREATEST_HEIGHT: usize = 1024;

/// A layer has two to the power of at most this many positions.
pub const GREATEST_EXPONENT: u32 = 20;
