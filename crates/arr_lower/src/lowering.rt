//! The nodes of a checked program.

ghost use Rattle.std.specs.Prelude.{◌≡◌, ◌<◌, ◌^◌, Some, IfOk};
ghost use Rattle.arr_ast.specs.ProgramTree.{program_tree};
ghost use Rattle.node_core.specs.Nodes.{IsNodeList};
ghost use Rattle.arr_lower.specs.Lowering.{nodes_of};

use crate::machine::Lowering;
use crate::nodes::Nodes;
use arr_check::Checked;
use arr_run::run;
use arr_scope::CheckRefused;
use node_core::NodeList;
use std::alloc::{AllocError, Global};

/// The nodes of a program: its leaves, then constants and operations in the order of their making.
///
/// The only error is out of memory. The time is meant to be linear in the elements that are
/// computed, the steps that are run and the parts of index expressions, but for the search of
/// constants, which is logarithmic in their number.
pub fn lower(alloc: Global, checked: &Checked) -> Result<NodeList, AllocError>
    ensures nodes { IfOk result (λ list. nodes_of checked.now.lang
        (program_tree checked.now.program)
        ≡ Some list) }
    ensures in_order { IfOk result (λ list. IsNodeList list) }
{
    let mut lowering = Lowering {
        alloc,
        nodes: Nodes::new(alloc),
        outputs: Vec::new(alloc),
    };
    match run(alloc, &mut lowering, &checked.program, checked.lang) {
        Ok(_) => Ok(list_of(checked, lowering)),
        Err(CheckRefused::Memory) => Err(AllocError),
        Err(CheckRefused::Bad { .. }) => unreachable!(),
    }
}

/// The list of what a run has made.
fn list_of(checked: &Checked, lowering: Lowering) -> NodeList
    requires few { checked.now.inputs < 2 ^ 32 }
    requires made { nodes_of checked.now.lang (program_tree checked.now.program) ≡ Some (record {
      inputs = checked.now.inputs;
      nodes = lowering.nodes;
      outputs = lowering.outputs;
    }) }
    ensures nodes { nodes_of checked.now.lang (program_tree checked.now.program) ≡ Some result }
    ensures in_order { IsNodeList result }
{
    let inputs = checked.inputs as u32;
    let Lowering { nodes, outputs, .. } = lowering;
    let nodes = nodes.finish();
    NodeList::of(inputs, nodes, outputs)
}
