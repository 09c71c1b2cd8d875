//! Making lists of nodes.

ghost use Rattle.std.specs.Prelude.{◌≡◌, ◌<◌, ◌≤◌, ◌+◌, ◌^◌, ◌++◌, ◌∷◌, [], length, OnOk, OnErr, IfOk};
ghost use Rattle.node_core.specs.Nodes.{IsFineAt};

use crate::list::NodeList;
use crate::node::Node;
use std::alloc::{AllocError, Global};
use std::marker::Model;

/// A list of nodes that grows. Where memory runs out it stays as it was.
#[derive(Drop)]
pub struct NodeListBuilder {
    inputs: u32,
    nodes: Vec<Node>,
    outputs: Vec<u32>,
}

impl Model for NodeListBuilder {
    ghost use Rattle.node_core.specs.Nodes.{Nodes, IsOpenList};

    ghost Value = { Nodes };

    ghost view = { λ l. record {
      inputs = l.inputs;
      nodes = l.nodes.items;
      outputs = l.outputs.items;
    } };

    ghost invariant = { λ l. IsOpenList (record {
      inputs = l.inputs;
      nodes = l.nodes.items;
      outputs = l.outputs.items;
    }) };
}

impl NodeListBuilder {
    /// A list with no node and no output yet, of a program with so many inputs.
    pub fn new(alloc: Global, inputs: u32) -> Self
        ensures { result ≡ record { inputs = inputs; nodes = []; outputs = [] } }
    {
        NodeListBuilder {
            inputs,
            nodes: Vec::new(alloc),
            outputs: Vec::new(alloc),
        }
    }

    /// Adds a node, and answers its number. It may only name inputs that there are, and nodes that were added before.
    pub fn push(&mut self, node: Node) -> Result<u32, AllocError>
        requires fine { IsFineAt self.old.inputs (length self.old.nodes) node }
        requires capacity { length self.old.nodes + 1 < 2 ^ 32 }
        ensures ok { OnOk result (self.new ≡ record self.old {
          nodes = self.old.nodes ++ node ∷ [];
        }) }
        ensures number { IfOk result (λ k. k ≡ length self.old.nodes) }
        ensures err { OnErr result (self.new ≡ self.old) }
    {
        let number = self.nodes.len() as u32;
        self.nodes.push(node)?;
        Ok(number)
    }

    /// Makes a node the next output.
    pub fn output(&mut self, node: u32) -> Result<(), AllocError>
        requires there { node < length self.old.nodes }
        requires capacity { length self.old.outputs + 1 < 2 ^ 32 }
        ensures ok { OnOk result (self.new ≡ record self.old {
          outputs = self.old.outputs ++ node ∷ [];
        }) }
        ensures err { OnErr result (self.new ≡ self.old) }
    {
        self.outputs.push(node)?;
        Ok(())
    }

    /// The list, once it has an output.
    pub fn finish(self) -> NodeList
        requires { 1 ≤ length self.outputs }
        ensures { result ≡ self }
    {
        let NodeListBuilder {
            inputs,
            nodes,
            outputs,
        } = self;
        NodeList::of(inputs, nodes, outputs)
    }
}
