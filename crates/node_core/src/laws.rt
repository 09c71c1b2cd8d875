//! Laws of node values. Each function does nothing: its contract is a law that is proved.

ghost use Rattle.std.specs.Prelude.{◌≡◌, ◌<◌, ℕ, List, length, slice_index_or};
ghost use Rattle.field_ext.specs.Field.{F};
ghost use Rattle.circuit_core.specs.Parts.{zero_f};
ghost use Rattle.node_core.specs.Nodes.{Nodes, IsNodeList, node_at, node_value, values};

/// A program has a value for each node.
pub fn one_value_a_node()
    ensures { (n : Nodes) (inputs : List F) → length (values n inputs) ≡ length n.nodes }
{}

/// A node's value is that of its input or constant, or its operation on the values of its operands.
pub fn values_by_operands()
    ensures { (n : Nodes) (inputs : List F) (k : ℕ) → IsNodeList n → k < length n.nodes
        → slice_index_or (values n inputs) k zero_f ≡ node_value inputs (values n inputs)
        (node_at n k) }
{}
