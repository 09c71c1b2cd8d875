//! Lists of nodes.

ghost use Rattle.std.specs.Prelude.{◌≡◌, ◌<◌, ◌≤◌, ◌^◌, length, IfOk, slice_index_or};
ghost use Rattle.field_ext.specs.Field.{F};

use crate::node::Node;
use crate::values::node_values;
use field_ext::Fp;
use std::alloc::{AllocError, Global};
use std::marker::Model;

/// The leaves and operations of a program in order of making, and its outputs.
#[derive(Drop)]
pub struct NodeList {
    inputs: u32,
    nodes: Vec<Node>,
    outputs: Vec<u32>,
}

impl Model for NodeList {
    ghost use Rattle.node_core.specs.Nodes.{Nodes, IsNodeList};

    ghost Value = { Nodes };

    ghost view = { λ l. record {
      inputs = l.inputs;
      nodes = l.nodes.items;
      outputs = l.outputs.items;
    } };

    ghost invariant = { λ l. IsNodeList (record {
      inputs = l.inputs;
      nodes = l.nodes.items;
      outputs = l.outputs.items;
    }) };
}

impl NodeList {
    ghost use Rattle.node_core.specs.Nodes.{IsNodeList, values};

    /// The list of these nodes and outputs, which have to be in order.
    pub fn of(inputs: u32, nodes: Vec<Node>, outputs: Vec<u32>) -> NodeList
        requires { IsNodeList (record {
          inputs = inputs;
          nodes = nodes.items;
          outputs = outputs.items;
        }) }
        ensures { result ≡ record {
          inputs = inputs;
          nodes = nodes.items;
          outputs = outputs.items;
        } }
    {
        NodeList {
            inputs,
            nodes,
            outputs,
        }
    }

    /// How many inputs there are.
    pub fn inputs(&self) -> u32
        ensures { result ≡ self.now.inputs }
    {
        self.inputs
    }

    /// The nodes by number, of which each depends on earlier ones.
    pub fn nodes(&self) -> &[Node]
        ensures value { result.now ≡ self.now.nodes }
        ensures fine { IsNodeList self.now }
    {
        self.nodes.as_slice()
    }

    /// The numbers of the nodes that are outputs, in order; a node may be there more than once.
    pub fn outputs(&self) -> &[u32]
        ensures value { result.now ≡ self.now.outputs }
        ensures fine { IsNodeList self.now }
    {
        self.outputs.as_slice()
    }

    /// The values of all nodes by number, for inputs of the right count.
    pub fn values(&self, alloc: Global, inputs: &[Fp]) -> Result<Vec<Fp>, AllocError>
        requires { length inputs.now ≡ self.now.inputs }
        ensures { IfOk result (λ v. v.items ≡ values self.now inputs.now) }
    {
        node_values(alloc, self.nodes(), inputs)
    }
}
