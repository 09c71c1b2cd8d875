//! The nodes of a program.

use circuit_core::CircuitGate;
use field_ext::Fp;

/// An input, a constant, or an operation on nodes that were made before it.
#[derive(Clone, Copy, Debug, PartialEq, Eq)]
pub enum Node {
    /// The input of this number, from 0.
    Input(u32),
    /// A constant of the program.
    Constant(Fp),
    /// A sum or a product of the nodes whose numbers are the gate's operands.
    Operation(CircuitGate),
}
