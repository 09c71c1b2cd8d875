//! The values of gates and leaves.

ghost use Rattle.std.specs.Prelude.{◌≡◌, ◌<◌, length};
ghost use Rattle.circuit_core.specs.Parts.{gate_value, leaf_value};
ghost use Rattle.circuit_core.specs.Faults.{IsLeafWithin};

use crate::gate::{CircuitGate, Kind, Leaf};
use field_ext::Fp;

/// What a gate makes of the values of the layer below.
pub fn gate_value(below: &[Fp], gate: &CircuitGate) -> Fp
    requires left { gate.now.left < length below.now }
    requires right { gate.now.right < length below.now }
    ensures { result ≡ gate_value below.now gate.now }
{
    let left = below[gate.left as usize];
    let right = below[gate.right as usize];
    match gate.kind {
        Kind::Add => left + right,
        Kind::Mul => left * right,
    }
}

/// What is at a leaf: the input that it names, or its constant.
pub fn leaf_value(inputs: &[Fp], leaf: Leaf) -> Fp
    requires { IsLeafWithin (length inputs.now) leaf }
    ensures { result ≡ leaf_value inputs.now leaf }
{
    match leaf {
        Leaf::Input(j) => inputs[j as usize],
        Leaf::Const(value) => value,
    }
}
