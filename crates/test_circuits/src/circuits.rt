//! Two small circuits.

ghost use Rattle.std.specs.Prelude.{◌≡◌};

use circuit_core::{Circuit, CircuitGate, CircuitRefused, Kind, Layer, Leaf};
use std::alloc::{AllocError, Global};

/// A gate of this kind over two positions.
pub fn gate(kind: Kind, left: u32, right: u32) -> CircuitGate
    ensures left { result.left ≡ left }
    ensures right { result.right ≡ right }
{
    CircuitGate { kind, left, right }
}

/// A layer of the zero gate and one more.
fn layer(alloc: Global, second: CircuitGate) -> Result<Layer, AllocError> {
    Ok(Layer::of(Vec::from_slice(alloc, &[gate(Kind::Add, 0, 0), second])?))
}

/// The circuit of `input a; output a;`.
pub fn copy(alloc: Global) -> Result<Circuit, CircuitRefused> {
    let first = layer(alloc, gate(Kind::Add, 1, 0))?;
    let layers = vec![in alloc; first].map_err(|_| CircuitRefused::Memory)?;
    let leaves = Vec::from_slice(alloc, &[Leaf::Input(0)])?;
    Circuit::of(alloc, layers, 2, leaves, 1, 1)
}

/// The circuit of `input a; input b; output a * b;`, with one layer that copies.
pub fn product(alloc: Global) -> Result<Circuit, CircuitRefused> {
    let first = layer(alloc, gate(Kind::Add, 1, 0))?;
    let second = layer(alloc, gate(Kind::Mul, 1, 2))?;
    let layers = vec![in alloc; first, second].map_err(|_| CircuitRefused::Memory)?;
    let leaves = Vec::from_slice(alloc, &[Leaf::Input(0), Leaf::Input(1)])?;
    Circuit::of(alloc, layers, 4, leaves, 2, 1)
}
