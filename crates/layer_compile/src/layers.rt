//! The layers of all heights.

ghost use Rattle.std.specs.Prelude.{◌≡◌, ◌≤◌, ◌+◌, ◌++◌, ◌∷◌, [], None, Some, length, OnOk, IfOk, IfErr};
ghost use Rattle.node_core.specs.Nodes.{IsNodeList};
ghost use Rattle.layer_compile.specs.Levels.{height_of};
ghost use Rattle.layer_compile.specs.Rows.{row};
ghost use Rattle.layer_compile.specs.Circuits.{layers_from, too_wide, refusal_of, IsCauseOf};

use crate::adding::add;
use crate::gates::padded;
use crate::limits::Limits;
use crate::plan::Plan;
use crate::refused::LayerRefused;
use crate::rows::Row;
use circuit_core::Layer;
use std::alloc::{AllocError, Global};

/// The most gates that a circuit's layers may have in all. With the values of its layers a proof of such a circuit takes about
/// 700 MB, and what is larger is refused as if no memory were found.
pub const MOST_GATES: usize = 1 << 25;

impl<'a> Plan<'a> {
    /// The layers of all heights above the leaves, the highest first, or the first height with too many positions.
    pub fn layers(
        &self,
        alloc: Global,
        limits: &Limits,
        leaves: Vec<u32>,
        places: &mut [u32],
    ) -> Result<Vec<Layer>, LayerRefused>
        requires fine { IsNodeList self.now.list.now }
        requires low { height_of self.now.list.now ≤ limits.now.height }
        requires leaves { leaves.items ≡ row self.now.list.now 0 }
        requires narrow { too_wide limits.now self.now.list.now 0 ≡ None }
        requires capacity { length places.old ≡ length self.now.list.now.nodes }
        ensures made { IfOk result
            (λ v. v.items ≡ layers_from self.now.list.now (height_of self.now.list.now)) }
        ensures accepted { OnOk result (refusal_of limits.now self.now.list.now ≡ None) }
        ensures refused { IfErr result (IsCauseOf limits.now self.now.list.now) }
    {
        let mut layers = Vec::new(alloc);
        let mut below = leaves;
        let mut left = MOST_GATES;
        for height in 0..self.top {
            self.write_places(places, height, &below);
            let above = self.next_row(alloc, places, height, &below)?;
            let Row { nodes, gates } = above;
            self.fits(limits, height + 1, &nodes)?;
            let layer = padded(gates)?;
            let Some(rest) = left.checked_sub(layer.width()) else {
                return Err(LayerRefused::Memory);
            };
            left = rest;
            add(&mut layers, layer)?;
            below = nodes;
        }
        layers.reverse();
        Ok(layers)
    }

    /// Sees that a height's positions are no more than a layer may have.
    pub fn fits(&self, limits: &Limits, height: usize, nodes: &[u32]) -> Result<(), LayerRefused>
        requires { nodes.now ≡ row self.now.list.now height }
        ensures fits { OnOk result (too_wide limits.now self.now.list.now height ≡ None) }
        ensures wide { IfErr result
            (λ refusal. too_wide limits.now self.now.list.now height ≡ Some refusal) }
    {
        let width = 1 + nodes.len();
        if width > 1 << limits.exponent() {
            Err(LayerRefused::Wide { height, width })
        } else {
            Ok(())
        }
    }
}
