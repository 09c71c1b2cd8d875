//! The nodes made so far.

ghost use Rattle.std.specs.Prelude.{◌≡◌, ◌+◌, ◌<◌, ◌^◌, [], ◌∷◌, ◌++◌, None, Bool, false, IfOk, OnOk, length};
ghost use Rattle.std.specs.List.{position};
ghost use Rattle.field_ext.specs.Field.{F};
ghost use Rattle.node_core.specs.declared.node.Node.TheVariants as node;
ghost use Rattle.arr_lower.specs.Operations.{is_constant, constant_node, operation_node, leaf_nodes};

use circuit_core::{CircuitGate, Kind};
use field_ext::Fp;
use node_core::Node;
use std::alloc::{AllocError, Global};
use std::collections::BTreeMap;
use std::marker::Model;

/// A list of nodes that grows.
///
/// A map from each constant to its node is kept beside the list, so a constant is found in time
/// logarithmic in their number. A node's number is a `u32`: where there are as many nodes as that
/// has numbers, a call answers as if out of memory. The checks let far fewer pass, as a law says.
#[derive(Drop)]
pub struct Nodes {
    nodes: Vec<Node>,
    places: BTreeMap<u32, u32>,
}

impl Model for Nodes {
    ghost use Rattle.std.specs.Prelude.{List, ◌<◌, ◌^◌, length};
    ghost use Rattle.node_core.specs.declared.node.Node.{Node};
    ghost use Rattle.arr_lower.specs.ConstantPlaces.{Answers};

    ghost Value = { List Node };

    ghost view = { λ n. n.nodes.items };

    ghost invariant = { λ n. (length n.nodes.items < 2 ^ 32) × Answers n.places n.nodes.items };
}

impl Nodes {
    /// No nodes.
    pub fn new(alloc: Global) -> Nodes
        ensures { result ≡ [] }
    {
        Nodes {
            nodes: Vec::new(alloc),
            places: BTreeMap::new(alloc),
        }
    }

    /// The node of a constant, modulo the prime, which is made where there is none.
    pub fn constant(&mut self, value: u32) -> Result<u32, AllocError>
        ensures { IfOk result (λ item. constant_node value self.old ≡ record {
          item = item;
          nodes = self.new;
        }) }
    {
        let constant = Fp::reduce(u64::from(value));
        match self.places.get(&constant.value()).copied() {
            Some(place) => Ok(place),
            None => self.new_constant(constant),
        }
    }

    /// A constant that has no node.
    fn new_constant(&mut self, constant: Fp) -> Result<u32, AllocError>
        requires { position (is_constant constant) self.old ≡ None }
        ensures number { IfOk result (λ item. item ≡ length self.old) }
        ensures nodes { OnOk result (self.new ≡ self.old ++ node.Constant constant ∷ []) }
    {
        let place = self.next()?;
        self.nodes.push(Node::Constant(constant))?;
        match self.places.insert(constant.value(), place) {
            Ok(_) => Ok(place),
            Err(_) => {
                self.nodes.pop();
                Err(AllocError)
            }
        }
    }

    /// A sum or a product of two nodes, which is made.
    pub fn operation(&mut self, kind: Kind, left: u32, right: u32) -> Result<u32, AllocError>
        ensures { IfOk result (λ item. operation_node kind (left, right) self.old ≡ record {
          item = item;
          nodes = self.new;
        }) }
    {
        self.add(Node::Operation(CircuitGate { kind, left, right }))
    }

    /// A leaf, which is made, of the input that has its number.
    pub fn leaf(&mut self) -> Result<u32, AllocError>
        ensures number { IfOk result (λ item. item ≡ length self.old) }
        ensures nodes { OnOk result (self.new ≡ self.old ++ node.Input (length self.old) ∷ []) }
    {
        let number = self.next()?;
        self.add(Node::Input(number))
    }

    /// One more node, which isn't a constant.
    fn add(&mut self, node: Node) -> Result<u32, AllocError>
        requires { (x : F) → is_constant x node ≡ false }
        ensures number { IfOk result (λ item. item ≡ length self.old) }
        ensures nodes { OnOk result (self.new ≡ self.old ++ node ∷ []) }
    {
        let place = self.next()?;
        self.nodes.push(node)?;
        Ok(place)
    }

    /// The number of the next node.
    fn next(&self) -> Result<u32, AllocError>
        ensures number { IfOk result (λ item. item ≡ length self.now) }
        ensures capacity { IfOk result (λ item. item + 1 < 2 ^ 32) }
    {
        if self.nodes.len() >= u32::MAX as usize {
            return Err(AllocError);
        }
        Ok(self.nodes.len() as u32)
    }

    /// The nodes.
    pub fn finish(self) -> Vec<Node>
        ensures { result.items ≡ self }
    {
        let Nodes { nodes, .. } = self;
        nodes
    }
}

/// So many leaves, which are made.
pub fn leaves(nodes: &mut Nodes, alloc: Global, count: u64) -> Result<Vec<u32>, AllocError>
    ensures { IfOk result (λ found. leaf_nodes count nodes.old ≡ record {
      items = found.items;
      nodes = nodes.new;
    }) }
{
    let mut found = Vec::new(alloc);
    'each: for number in 0..count {
        found.push(nodes.leaf()?)?;
    }
    Ok(found)
}
