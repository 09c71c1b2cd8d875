//! The values of nodes.

ghost use Rattle.std.specs.Prelude.{◌≡◌, ◌<◌, ◌≤◌, ◌^◌, ℕ, length, IfOk, slice_index_or};
ghost use Rattle.circuit_core.specs.Parts.{combined, gate_value, leaf_value};
ghost use Rattle.node_core.specs.Nodes.{node_value, IsFineAt};
ghost use Rattle.node_core.specs.Order.{made_in_order};
ghost use Rattle.node_core.specs.declared.node.Node.TheVariants as node;

use crate::node::Node;
use circuit_core::gate_value;
use field_ext::Fp;
use std::alloc::{AllocError, Global};

/// The values of nodes, each of which depends on earlier ones.
pub fn node_values(alloc: Global, nodes: &[Node], inputs: &[Fp]) -> Result<Vec<Fp>, AllocError>
    requires { (k : ℕ) → k < length nodes.now
        → IsFineAt (length inputs.now) k (slice_index_or nodes.now k (node.Input 0)) }
    ensures { IfOk result (λ v. v.items ≡ made_in_order (node_value inputs.now) nodes.now) }
{
    let mut values: Vec<Fp> = Vec::new(alloc);
    for node in nodes {
        values.push(node_value(inputs, &values, node))?;
    }
    Ok(values)
}

/// The value of a node that depends on those before it.
fn node_value(inputs: &[Fp], earlier: &[Fp], node: &Node) -> Fp
    requires { IsFineAt (length inputs.now) (length earlier.now) node.now }
    ensures { result ≡ node_value inputs.now earlier.now node.now }
{
    match node {
        Node::Input(j) => inputs[*j as usize],
        Node::Constant(value) => *value,
        Node::Operation(gate) => gate_value(earlier, gate),
    }
}
