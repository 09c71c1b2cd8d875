//! The circuit of a list of nodes.

ghost use Rattle.std.specs.Prelude.{◌≡◌, ◌≤◌, ◌+◌, None, List, length, map, IfOk, IfErr, OnOk};
ghost use Rattle.field_ext.specs.Field.{F};
ghost use Rattle.circuit_core.specs.Parts.{layer_values, padded_values};
ghost use Rattle.circuit_core.specs.Faults.{fault_of};
ghost use Rattle.circuit_core.specs.Sound.{greatest};
ghost use Rattle.node_core.specs.Nodes.{IsNodeList, node_at};
ghost use Rattle.layer_compile.specs.Levels.{height_of};
ghost use Rattle.layer_compile.specs.Rows.{row};
ghost use Rattle.layer_compile.specs.Circuits.{circuit_of, layers_from, leaf_of, refusal_of, size_for, output_values, AreKept, IsCauseOf};

use crate::chains::linked;
use crate::levels::{greatest_level, levels};
use crate::limits::Limits;
use crate::plan::Plan;
use crate::refused::LayerRefused;
use crate::sizes::size_for;
use crate::uses::uses;
use circuit_core::{Circuit, Layer, Leaf};
use node_core::NodeList;
use std::alloc::{AllocError, Global};

/// The circuit that a list of nodes is laid out as, within limits.
///
/// Layer i is height H - i of the table of positions. A list is refused as Deep where H is more than the limits' height,
/// and otherwise as Wide at the lowest height that needs more positions, before padding, than a layer may have.
pub fn layer(alloc: Global, list: &NodeList, limits: Limits) -> Result<Circuit, LayerRefused>
    ensures accepted { OnOk result (refusal_of limits list.now ≡ None) }
    ensures circuit { IfOk result (λ c. c.parts ≡ circuit_of list.now) }
    ensures refused { IfErr result (IsCauseOf limits list.now) }

    // The output layer's values are 0, those of the outputs, and zeros.
    ensures outputs { IfOk result (λ c. (inputs : List F) → layer_values c.parts inputs 0
        ≡ padded_values (size_for (1 + length list.now.outputs)) (output_values list.now inputs)) }
{
    let plan = plan_of(alloc, list)?;
    if plan.top > limits.height() {
        return Err(LayerRefused::Deep { levels: plan.top });
    }
    plan.circuit(alloc, &limits)
}

fn plan_of<'a>(alloc: Global, list: &'a NodeList) -> Result<Plan<'a>, AllocError>
    ensures list { IfOk result (λ plan. plan.list.now ≡ list.now) }
    ensures fine { OnOk result (IsNodeList list.now) }
{
    let node_levels = levels(alloc, list)?;
    let top = greatest_level(&node_levels, list.outputs()) + 1;
    let node_uses = uses(alloc, list, &node_levels, top)?;
    let by_level = linked(alloc, &node_levels)?;
    Ok(Plan {
        list,
        node_levels,
        node_uses,
        by_level,
        top,
    })
}

impl<'a> Plan<'a> {
    fn circuit(&self, alloc: Global, limits: &Limits) -> Result<Circuit, LayerRefused>
        requires kept { AreKept limits.now }
        requires low { height_of self.now.list.now ≤ limits.now.height }
        ensures accepted { OnOk result (refusal_of limits.now self.now.list.now ≡ None) }
        ensures made { IfOk result (λ c. c.parts ≡ circuit_of self.now.list.now) }
        ensures refused { IfErr result (IsCauseOf limits.now self.now.list.now) }
    {
        let many = self.list.nodes().len();
        let row = self.row_of_leaves(alloc)?;
        self.fits(limits, 0, &row)?;
        let leaves = self.leaves_of(alloc, &row)?;
        let mut places = vec![in alloc; 0; many]?;
        let layers = self.layers(alloc, limits, row, &mut places)?;
        let circuit = self.of_lists(alloc, layers, leaves)?;
        Ok(circuit)
    }

    /// The circuit of these layers and leaves, which have no fault.
    fn of_lists(
        &self,
        alloc: Global,
        layers: Vec<Layer>,
        leaves: Vec<Leaf>,
    ) -> Result<Circuit, AllocError>
        requires layers { layers.items ≡ layers_from self.now.list.now
            (height_of self.now.list.now) }
        requires leaves { leaves.items ≡ map (λ k. leaf_of (node_at self.now.list.now k))
            (row self.now.list.now 0) }
        requires faultless { fault_of greatest (circuit_of self.now.list.now) ≡ None }
        ensures { IfOk result (λ c. c.parts ≡ circuit_of self.now.list.now) }
    {
        let input_width = size_for(1 + leaves.len()) as u32;
        let inputs = self.list.inputs();
        let outputs = self.list.outputs().len() as u32;
        Circuit::of_faultless(alloc, layers, input_width, leaves, inputs, outputs)
    }
}
