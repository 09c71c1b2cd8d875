//! Sums and products, as gates of a circuit and as nodes of a list.

ghost use Rattle.std.specs.Prelude.{◌≡◌};
ghost use Rattle.circuit_core.specs.declared.gate.Kind.TheVariants as kind;
ghost use Rattle.node_core.specs.declared.node.Node.TheVariants as node;

use circuit_core::{CircuitGate, Kind};
use node_core::Node;

/// The sum of two positions.
pub(crate) fn add(left: u32, right: u32) -> CircuitGate
    ensures { result ≡ record { kind = kind.Add; left = left; right = right } }
{
    CircuitGate {
        kind: Kind::Add,
        left,
        right,
    }
}

/// The product of two positions.
pub(crate) fn mul(left: u32, right: u32) -> CircuitGate
    ensures { result ≡ record { kind = kind.Mul; left = left; right = right } }
{
    CircuitGate {
        kind: Kind::Mul,
        left,
        right,
    }
}

/// The sum of two nodes.
pub(crate) fn add_node(left: u32, right: u32) -> Node
    ensures { result ≡ node.Operation (record { kind = kind.Add; left = left; right = right }) }
{
    Node::Operation(add(left, right))
}

/// The product of two nodes.
pub(crate) fn mul_node(left: u32, right: u32) -> Node
    ensures { result ≡ node.Operation (record { kind = kind.Mul; left = left; right = right }) }
{
    Node::Operation(mul(left, right))
}
