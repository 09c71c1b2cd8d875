//! Which nodes are at each height.

ghost use Rattle.std.specs.Prelude.{◌≡◌, ◌≤◌, ◌<◌, ◌+◌, ◌^◌, ◌++◌, ◌∷◌, [], suc, length, OnOk, IfOk, if◌then◌else◌};
ghost use Rattle.circuit_core.specs.Parts.{zero_gate};
ghost use Rattle.node_core.specs.Nodes.{IsNodeList};
ghost use Rattle.layer_compile.specs.Levels.{level, levels, height_of, is_used_above};
ghost use Rattle.layer_compile.specs.Next.{IsNext, has_level};
ghost use Rattle.layer_compile.specs.Rows.{row, place, ArePlaces, IsMerged};
ghost use Rattle.layer_compile.specs.Circuits.{AreGatesAbove};

use crate::adding::add;
use crate::gates::{ZERO_GATE, carried};
use crate::plan::Plan;
use crate::sizes::size_for;
use circuit_core::CircuitGate;
use std::alloc::{AllocError, Global};

/// The nodes at positions 1, 2, .. of a height, and the gates of position 0 and of these.
#[derive(Drop)]
pub struct Row {
    pub nodes: Vec<u32>,
    pub gates: Vec<CircuitGate>,
}

impl<'a> Plan<'a> {
    /// The leaves, by number.
    pub fn row_of_leaves(&self, alloc: Global) -> Result<Vec<u32>, AllocError>
        ensures { IfOk result (λ v. v.items ≡ row self.now.list.now 0) }
    {
        let mut row = Vec::new(alloc);
        for k in 0..self.list.nodes().len() {
            if self.level(k) == 0 {
                add(&mut row, k as u32)?;
            }
        }
        Ok(row)
    }

    /// The nodes at positions 1, 2, .. of the next height, and its gates over the places of this one's nodes.
    pub fn next_row(
        &self,
        alloc: Global,
        places: &[u32],
        height: usize,
        below: &[u32],
    ) -> Result<Row, AllocError>
        requires fine { IsNodeList self.now.list.now }
        requires places { ArePlaces self.now.list.now height places.now }
        requires capacity { length places.now ≡ length self.now.list.now.nodes }
        requires under { height < height_of self.now.list.now }
        requires below { below.now ≡ row self.now.list.now height }
        ensures nodes { IfOk result (λ r. r.nodes.items ≡ row self.now.list.now (suc height)) }
        ensures gates { IfOk result
            (λ r. AreGatesAbove self.now.list.now height r.nodes.items r.gates.items) }
    {
        let top = self.top;
        if height + 1 == top {
            let nodes = Vec::from_slice(alloc, self.list.outputs())?;
            let gates = self.gates_above(alloc, places, height, &nodes)?;
            Ok(Row { nodes, gates })
        } else {
            self.merged_row(alloc, places, height, below)
        }
    }

    /// The nodes of the next level that are used, among those of the row below that are still used.
    fn merged_row(
        &self,
        alloc: Global,
        places: &[u32],
        height: usize,
        below: &[u32],
    ) -> Result<Row, AllocError>
        requires places { ArePlaces self.now.list.now height places.now }
        requires capacity { length places.now ≡ length self.now.list.now.nodes }
        requires under { height + 1 < height_of self.now.list.now }
        requires below { below.now ≡ row self.now.list.now height }
        ensures nodes { IfOk result (λ r. r.nodes.items ≡ row self.now.list.now (suc height)) }
        ensures gates { IfOk result
            (λ r. AreGatesAbove self.now.list.now height r.nodes.items r.gates.items) }
    {
        let many = self.list.nodes().len();
        let mut above = begun(alloc, below.len())?;
        let mut new = self.first_of_level(height + 1);
        let mut taken = self.keep(&mut above, height, below, 0, 0, new)?;
        while (new as usize) < many {
            self.add_new(&mut above, places, height, new)?;
            let next = self.next_of_level(new);
            taken = self.keep(&mut above, height, below, taken, new as usize + 1, next)?;
            new = next;
        }
        Ok(above)
    }

    /// Adds a node of the next level where it is used above that.
    fn add_new(
        &self,
        above: &mut Row,
        places: &[u32],
        height: usize,
        k: u32,
    ) -> Result<(), AllocError>
        requires inside { k < length self.now.list.now.nodes }
        requires own { level self.now.list.now k ≡ suc height }
        requires places { ArePlaces self.now.list.now height places.now }
        requires capacity { length places.now ≡ length self.now.list.now.nodes }
        requires under { height + 1 < height_of self.now.list.now }
        requires gates { AreGatesAbove self.now.list.now height above.old.nodes.items
            above.old.gates.items }
        ensures nodes { OnOk result (above.new.nodes.items ≡ above.old.nodes.items
            ++ (if is_used_above self.now.list.now (height + 1) k then k ∷ [] else [])) }
        ensures gates { OnOk result (AreGatesAbove self.now.list.now height above.new.nodes.items
            above.new.gates.items) }
    {
        if self.is_used_above(height + 1, k as usize) {
            add(&mut above.nodes, k)?;
            add(&mut above.gates, self.placed(places, height, k as usize))?;
        }
        Ok(())
    }

    /// Adds a node that is at a place of this height where it is used above the next.
    fn add_carried(&self, above: &mut Row, height: usize, k: u32, at: u32) -> Result<(), AllocError>
        requires inside { k < length self.now.list.now.nodes }
        requires low { level self.now.list.now k ≤ height }
        requires at { at ≡ place self.now.list.now height k }
        requires under { height + 1 < height_of self.now.list.now }
        requires gates { AreGatesAbove self.now.list.now height above.old.nodes.items
            above.old.gates.items }
        ensures nodes { OnOk result (above.new.nodes.items ≡ above.old.nodes.items
            ++ (if is_used_above self.now.list.now (height + 1) k then k ∷ [] else [])) }
        ensures gates { OnOk result (AreGatesAbove self.now.list.now height above.new.nodes.items
            above.new.gates.items) }
    {
        if self.is_used_above(height + 1, k as usize) {
            add(&mut above.nodes, k)?;
            add(&mut above.gates, carried(at))?;
        }
        Ok(())
    }

    /// Keeps the nodes of the row below from one number to another that are still used.
    fn keep(
        &self,
        above: &mut Row,
        height: usize,
        below: &[u32],
        taken: usize,
        mut from: usize,
        to: u32,
    ) -> Result<usize, AllocError>
        requires under { height + 1 < height_of self.now.list.now }
        requires below { below.now ≡ row self.now.list.now height }
        requires new { IsNext (has_level (levels self.now.list.now) (suc height))
            (length self.now.list.now.nodes) from to }
        requires merged { IsMerged self.now.list.now height from taken above.old.nodes.items }
        requires gates { AreGatesAbove self.now.list.now height above.old.nodes.items
            above.old.gates.items }
        ensures merged { IfOk result
            (λ t. IsMerged self.now.list.now height to t above.new.nodes.items) }
        ensures gates { OnOk result (AreGatesAbove self.now.list.now height above.new.nodes.items
            above.new.gates.items) }
    {
        for i in taken..below.len() {
            let k = below[i];
            if k >= to {
                return Ok(i);
            }
            self.add_carried(above, height, k, i as u32 + 1)?;
            from = k as usize + 1;
        }
        Ok(below.len())
    }
}

/// A row with no node yet, with capacity for so many.
fn begun(alloc: Global, nodes: usize) -> Result<Row, AllocError>
    requires { nodes < 2 ^ 32 }
    ensures nodes { IfOk result (λ r. r.nodes.items ≡ []) }
    ensures gates { IfOk result (λ r. r.gates.items ≡ zero_gate ∷ []) }
{
    let mut gates = Vec::with_capacity(alloc, size_for(1 + nodes))?;
    add(&mut gates, ZERO_GATE)?;
    Ok(Row {
        nodes: Vec::with_capacity(alloc, nodes)?,
        gates,
    })
}
