//! The nodes of sums and of dot products.

ghost use Rattle.std.specs.Prelude.{◌≡◌, IfOk};
ghost use Rattle.std.specs.List.{zip};
ghost use Rattle.arr_lower.specs.Operations.{sum_node, dot_node};

use crate::nodes::Nodes;
use crate::operation::pairwise;
use circuit_core::Kind;
use std::alloc::{AllocError, Global};

/// The sum of a list, by halves. The sum of nothing is the constant 0.
pub fn sum(nodes: &mut Nodes, items: &[u32]) -> Result<u32, AllocError>
    ensures { IfOk result (λ item. sum_node items.now nodes.old ≡ record {
      item = item;
      nodes = nodes.new;
    }) }
{
    if items.is_empty() {
        return nodes.constant(0);
    }
    if items.len() == 1 {
        return Ok(items[0]);
    }
    let half = items.len() - items.len() / 2;
    let (front, rest) = items.split_at(half);
    let left = sum(nodes, front)?;
    let right = sum(nodes, rest)?;
    nodes.operation(Kind::Add, left, right)
}

/// The dot product of two lists: their products, place by place, then the sum of those.
pub fn dot(nodes: &mut Nodes, alloc: Global, left: &[u32], right: &[u32]) -> Result<u32, AllocError>
    ensures { IfOk result (λ item. dot_node (zip left.now right.now) nodes.old ≡ record {
      item = item;
      nodes = nodes.new;
    }) }
{
    let products = pairwise(nodes, alloc, Kind::Mul, left, right)?;
    sum(nodes, products.as_slice())
}
