//! Gates, layers and leaves.

ghost use Rattle.std.specs.Prelude.{◌≡◌, ◌<◌, length, slice_get, Some};

use field_ext::Fp;
use std::marker::Model;

/// What a gate does with its operands.
#[derive(Clone, Copy, Debug, PartialEq, Eq)]
pub enum Kind {
    Add,
    Mul,
}

/// A gate over two positions of the layer below.
#[derive(Clone, Copy, Debug, PartialEq, Eq)]
pub struct CircuitGate {
    pub kind: Kind,
    pub left: u32,
    pub right: u32,
}

/// What is at a position of the input layer.
#[derive(Clone, Copy, Debug, PartialEq, Eq)]
pub enum Leaf {
    /// The input of this number, from 0.
    Input(u32),
    /// A constant of the program.
    Const(Fp),
}

/// The gates of a layer, by position.
#[derive(Drop)]
pub struct Layer {
    gates: Vec<CircuitGate>,
}

impl Model for Layer {
    ghost use Rattle.std.specs.Prelude.{List};
    ghost use Rattle.circuit_core.specs.declared.gate.CircuitGate.{CircuitGate};

    ghost Value = { List CircuitGate };

    ghost view = { λ l. l.gates.items };
}

impl Layer {
    /// The layer of these gates.
    pub fn of(gates: Vec<CircuitGate>) -> Layer
        ensures { result ≡ gates.items }
    {
        Layer { gates }
    }

    /// The gates, by position.
    pub fn gates(&self) -> &[CircuitGate]
        ensures { result.now ≡ self.now }
    {
        self.gates.as_slice()
    }

    /// How many positions it has.
    pub fn width(&self) -> usize
        ensures { result ≡ length self.now }
    {
        self.gates.len()
    }
}
