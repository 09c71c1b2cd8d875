//! The gates of each height, over the places of the height below.

ghost use Rattle.std.specs.Prelude.{◌≡◌, ◌<◌, ◌-◌, ◌++◌, ◌∷◌, All, List, suc, map, length, replicate, OnOk, IfOk};
ghost use Rattle.circuit_core.specs.Parts.{zero_gate};
ghost use Rattle.node_core.specs.Nodes.{node_at};
ghost use Rattle.layer_compile.specs.Levels.{level, height_of};
ghost use Rattle.layer_compile.specs.Rows.{IsAbove, ArePlaces};
ghost use Rattle.circuit_core.specs.declared.gate.Kind.TheVariants.{Add};
ghost use Rattle.circuit_core.specs.declared.gate.CircuitGate.{CircuitGate};
ghost use Rattle.layer_compile.specs.Circuits.{gate_above, AreGatesAbove, placed, padded, size_for, leaf_of};

use crate::adding::add;
use crate::plan::Plan;
use crate::sizes::size_for;
use circuit_core::{CircuitGate, Kind, Layer, Leaf};
use field_ext::Fp;
use node_core::Node;
use std::alloc::{AllocError, Global};

/// The gate at position 0 and in the padding.
pub const ZERO_GATE: CircuitGate = CircuitGate {
    kind: Kind::Add,
    left: 0,
    right: 0,
};

impl<'a> Plan<'a> {
    /// The gate of position 0, and those of the nodes of the height above one, from the places of that one's nodes.
    pub fn gates_above(
        &self,
        alloc: Global,
        places: &[u32],
        height: usize,
        nodes: &[u32],
    ) -> Result<Vec<CircuitGate>, AllocError>
        requires places { ArePlaces self.now.list.now height places.now }
        requires capacity { length places.now ≡ length self.now.list.now.nodes }
        requires under { height < height_of self.now.list.now }
        requires nodes { All (IsAbove self.now.list.now height) nodes.now }
        ensures { IfOk result (λ v. AreGatesAbove self.now.list.now height nodes.now v.items) }
    {
        let mut gates = Vec::with_capacity(alloc, size_for(1 + nodes.len()))?;
        add(&mut gates, ZERO_GATE)?;
        for k in nodes {
            add(&mut gates, self.gate_above(places, height, *k))?;
        }
        Ok(gates)
    }

    /// The gate at the next height of a node that is there.
    fn gate_above(&self, places: &[u32], height: usize, k: u32) -> CircuitGate
        requires places { ArePlaces self.now.list.now height places.now }
        requires capacity { length places.now ≡ length self.now.list.now.nodes }
        requires under { height < height_of self.now.list.now }
        requires node { IsAbove self.now.list.now height k }
        ensures { result ≡ gate_above self.now.list.now height k }
    {
        if self.level(k as usize) == height + 1 {
            self.placed(places, height, k as usize)
        } else {
            carried(places[k as usize])
        }
    }

    /// An operation on the places of its operands.
    pub fn placed(&self, places: &[u32], height: usize, k: usize) -> CircuitGate
        requires places { ArePlaces self.now.list.now height places.now }
        requires capacity { length places.now ≡ length self.now.list.now.nodes }
        requires node { IsAbove self.now.list.now height k }
        requires own { level self.now.list.now k ≡ suc height }
        ensures { result ≡ placed self.now.list.now height (node_at self.now.list.now k) }
    {
        match &self.list.nodes()[k] {
            Node::Input(_) | Node::Constant(_) => ZERO_GATE,
            Node::Operation(gate) => CircuitGate {
                kind: gate.kind,
                left: places[gate.left as usize],
                right: places[gate.right as usize],
            },
        }
    }

    /// The leaves that nodes are.
    pub fn leaves_of(&self, alloc: Global, nodes: &[u32]) -> Result<Vec<Leaf>, AllocError>
        requires { All (λ k. k < length self.now.list.now.nodes) nodes.now }
        ensures { IfOk result (λ v. v.items ≡ map (λ k. leaf_of (node_at self.now.list.now k))
            nodes.now) }
    {
        let mut leaves = Vec::new(alloc);
        for k in nodes {
            add(&mut leaves, leaf_of(&self.list.nodes()[*k as usize]))?;
        }
        Ok(leaves)
    }
}

/// The gate that carries the value of a position up.
#[inline]
pub fn carried(place: u32) -> CircuitGate
    ensures { result ≡ record { kind = Add; left = place; right = 0 } }
{
    CircuitGate {
        kind: Kind::Add,
        left: place,
        right: 0,
    }
}

fn leaf_of(node: &Node) -> Leaf
    ensures { result ≡ leaf_of node.now }
{
    match node {
        Node::Input(j) => Leaf::Input(*j),
        Node::Constant(value) => Leaf::Const(*value),
        Node::Operation(_) => Leaf::Const(Fp::zero()),
    }
}

/// The layer of these gates, filled up to its size.
pub fn padded(mut gates: Vec<CircuitGate>) -> Result<Layer, AllocError>
    ensures { (nodes : List CircuitGate) → gates.items ≡ zero_gate ∷ nodes
        → IfOk result (λ l. l ≡ padded nodes) }
{
    pad(&mut gates)?;
    Ok(Layer::of(gates))
}

/// Fills gates up to the size of a layer.
fn pad(gates: &mut Vec<CircuitGate>) -> Result<(), AllocError>
    ensures { OnOk result (gates.new.items ≡ gates.old.items ++ replicate
        (size_for (length gates.old.items) - length gates.old.items) zero_gate) }
{
    let size = size_for(gates.len());
    if gates.len() < size {
        gates.resize(size, ZERO_GATE)?;
    }
    Ok(())
}
