//! The heights up to which nodes are used.

ghost use Rattle.std.specs.Prelude.{◌≡◌, ◌≤◌, ◌<◌, ◌+◌, ℕ, max, ◌&&◌, nat_lt, if◌then◌else◌, length, slice_index, IfOk, All, slice_set, ◌==◌, replicate};
ghost use Rattle.std.specs.List.{list_any};
ghost use Rattle.layer_compile.specs.Levels.{levels, height_of, AreUses, OperandsBefore, has_operand};

use node_core::{Node, NodeList};
use std::alloc::{AllocError, Global};

/// For each node, the greatest height at which an output or a needed node uses it.
pub fn uses(
    alloc: Global,
    list: &NodeList,
    node_levels: &[usize],
    top: usize,
) -> Result<Vec<usize>, AllocError>
    requires levels { node_levels.now ≡ levels list.now }
    requires top { top ≡ height_of list.now }
    ensures uses { IfOk result (λ v. AreUses list.now v.items) }
    ensures len { IfOk result (λ v. length v.items ≡ length list.now.nodes) }
{
    let mut uses = vec![in alloc; 0; list.nodes().len()]?;
    mark_uses(&mut uses, list, node_levels, top);
    Ok(uses)
}

/// Marks the outputs, and then the operands of each node from the last.
fn mark_uses(uses: &mut [usize], list: &NodeList, node_levels: &[usize], top: usize)
    requires zeros { uses.old ≡ replicate (length list.now.nodes) 0 }
    requires levels { node_levels.now ≡ levels list.now }
    requires top { top ≡ height_of list.now }
    ensures { AreUses list.now uses.new }
{
    let nodes = list.nodes();
    mark_outputs(uses, list.outputs(), top);
    for m in (0..nodes.len()).rev() {
        mark_operands(uses, m, &nodes[m], node_levels[m]);
    }
}

/// An output is used at the height of the outputs.
fn mark_outputs(uses: &mut [usize], outputs: &[u32], height: usize)
    requires { All (λ output. output < length uses.old) outputs.now }
    ensures { (k : ℕ) → k < length uses.old
        → slice_index uses.new k ≡ (if list_any (λ output. output == k) outputs.now then height
        else slice_index uses.old k) }
{
    for output in outputs {
        uses[*output as usize] = height;
    }
}

/// The operands of a needed node are used at its level.
fn mark_operands(uses: &mut [usize], number: usize, node: &Node, level: usize)
    requires inside { number < length uses.old }
    requires before { OperandsBefore number node.now }
    ensures { (k : ℕ) → k < length uses.old
        → slice_index uses.new k
        ≡ (if nat_lt 0 (slice_index uses.old number) && has_operand node.now k
        then max (slice_index uses.old k) level else slice_index uses.old k) }
{
    if uses[number] == 0 {
        return;
    }
    if let Node::Operation(gate) = node {
        raise(uses, gate.left as usize, level);
        raise(uses, gate.right as usize, level);
    }
}

fn raise(uses: &mut [usize], k: usize, level: usize)
    requires { k < length uses.old }
    ensures { uses.new ≡ slice_set uses.old k (max (slice_index uses.old k) level) }
{
    uses[k] = uses[k].max(level);
}
