//! What makes a circuit faulty.

use std::alloc::AllocError;

/// The first fault of a circuit.
#[derive(Clone, Copy, Debug, PartialEq, Eq)]
pub enum BadCircuit {
    /// There is no layer of gates, or more than 1,024.
    Depth {
        layers: usize,
    },
    /// A layer's size is no power of two from 2 to 1,048,576, or the layer can't hold position 0 and its outputs or leaves.
    Width {
        layer: usize,
        width: usize,
    },
    /// Gate 0 of a layer, or a gate of layer 0 past the outputs, isn't `add(0, 0)`.
    Zero {
        layer: usize,
        gate: usize,
    },
    /// An operand isn't a position of the layer below, which has `width` of them. Left comes before right.
    Operand {
        layer: usize,
        gate: usize,
        operand: u32,
        width: usize,
    },
    /// The leaf at a position names an input that there isn't.
    Leaf {
        position: usize,
    },
}

/// Why there is no circuit.
#[derive(Clone, Copy, Debug, PartialEq, Eq)]
pub enum CircuitRefused {
    /// The first fault.
    Bad(BadCircuit),
    /// No memory was found. Nothing is known of the circuit.
    Memory,
}

impl From<AllocError> for CircuitRefused {
    ghost use Rattle.std.specs.Prelude.{◌≡◌};
    ghost use Rattle.circuit_core.specs.declared.fault.CircuitRefused.TheVariants.{Memory};

    ghost from_gives = { λ _ e. e ≡ Memory };

    fn from(_: AllocError) -> CircuitRefused {
        CircuitRefused::Memory
    }
}
