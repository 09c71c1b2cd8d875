//! The levels of nodes.

ghost use Rattle.std.specs.Prelude.{◌≡◌, ◌≤◌, ◌<◌, ◌+◌, All, length, slice_index, IfOk};
ghost use Rattle.layer_compile.specs.Levels.{levels, level_of, greatest, OperandsBefore};

use crate::adding::add;
use node_core::{Node, NodeList};
use std::alloc::{AllocError, Global};

/// The level of each node.
pub fn levels(alloc: Global, list: &NodeList) -> Result<Vec<usize>, AllocError>
    ensures { IfOk result (λ v. v.items ≡ levels list.now) }
{
    let mut levels: Vec<usize> = Vec::new(alloc);
    for node in list.nodes() {
        let level = level_of(&levels, node);
        add(&mut levels, level)?;
    }
    Ok(levels)
}

/// One more than the levels of the operands.
fn level_of(earlier: &[usize], node: &Node) -> usize
    requires before { OperandsBefore (length earlier.now) node.now }
    requires small { All (λ level. level ≤ length earlier.now) earlier.now }
    ensures value { result ≡ level_of earlier.now node.now }
    ensures small { result ≤ length earlier.now + 1 }
{
    match node {
        Node::Input(_) | Node::Constant(_) => 0,
        Node::Operation(gate) => 1 + earlier[gate.left as usize].max(earlier[gate.right as usize]),
    }
}

/// The greatest level of an output.
pub fn greatest_level(levels: &[usize], outputs: &[u32]) -> usize
    requires { All (λ output. output < length levels.now) outputs.now }
    ensures { result ≡ greatest (slice_index levels.now) outputs.now }
{
    let mut greatest = 0;
    for output in outputs {
        greatest = levels[*output as usize].max(greatest);
    }
    greatest
}
