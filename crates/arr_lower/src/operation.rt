//! The nodes of operators, element by element.

ghost use Rattle.std.specs.Prelude.{◌≡◌, IfOk};
ghost use Rattle.std.specs.List.{zip};
ghost use Rattle.circuit_core.specs.declared.gate.Kind.TheVariants.{Mul};
ghost use Rattle.arr_lower.specs.Operations.{made_each, operation_node, difference_node, pairwise_nodes, scaled_nodes, negated_nodes, difference_nodes};

use crate::nodes::Nodes;
use circuit_core::Kind;
use std::alloc::{AllocError, Global};

/// p - 1, which is -1.
const MINUS_ONE: u32 = 2_147_483_646;

/// The sums or products of two lists, place by place.
pub fn pairwise(
    nodes: &mut Nodes,
    alloc: Global,
    kind: Kind,
    left: &[u32],
    right: &[u32],
) -> Result<Vec<u32>, AllocError>
    ensures { IfOk result (λ items. pairwise_nodes kind left.now right.now nodes.old
        ≡ record { items = items.items; nodes = nodes.new }) }
{
    let mut items = Vec::new(alloc);
    'each: for (a, b) in left.iter().zip(right) {
        items.push(nodes.operation(kind, *a, *b)?)?;
    }
    Ok(items)
}

/// The differences of two lists, place by place: the right side is taken times -1.
pub fn differences(
    nodes: &mut Nodes,
    alloc: Global,
    left: &[u32],
    right: &[u32],
) -> Result<Vec<u32>, AllocError>
    ensures { IfOk result (λ items. difference_nodes left.now right.now nodes.old ≡ record {
      items = items.items;
      nodes = nodes.new;
    }) }
{
    let factor = nodes.constant(MINUS_ONE)?;
    differences_by(nodes, alloc, factor, left, right)
}

fn differences_by(
    nodes: &mut Nodes,
    alloc: Global,
    factor: u32,
    left: &[u32],
    right: &[u32],
) -> Result<Vec<u32>, AllocError>
    ensures { IfOk result (λ items.
        made_each (difference_node factor) (zip left.now right.now) nodes.old ≡ record {
          items = items.items;
          nodes = nodes.new;
        }) }
{
    let mut items = Vec::new(alloc);
    'each: for (a, b) in left.iter().zip(right) {
        items.push(difference(nodes, factor, *a, *b)?)?;
    }
    Ok(items)
}

/// A difference, by a factor that is -1.
fn difference(nodes: &mut Nodes, factor: u32, left: u32, right: u32) -> Result<u32, AllocError>
    ensures { IfOk result (λ item. difference_node factor (left, right) nodes.old ≡ record {
      item = item;
      nodes = nodes.new;
    }) }
{
    let opposite = nodes.operation(Kind::Mul, right, factor)?;
    nodes.operation(Kind::Add, left, opposite)
}

/// The negations of a list: each is taken times -1.
pub fn negations(nodes: &mut Nodes, alloc: Global, items: &[u32]) -> Result<Vec<u32>, AllocError>
    ensures { IfOk result (λ found. negated_nodes items.now nodes.old ≡ record {
      items = found.items;
      nodes = nodes.new;
    }) }
{
    let factor = nodes.constant(MINUS_ONE)?;
    negations_by(nodes, alloc, factor, items)
}

fn negations_by(
    nodes: &mut Nodes,
    alloc: Global,
    factor: u32,
    items: &[u32],
) -> Result<Vec<u32>, AllocError>
    ensures { IfOk result (λ found.
        made_each (λ item. operation_node Mul (item, factor)) items.now nodes.old ≡ record {
          items = found.items;
          nodes = nodes.new;
        }) }
{
    let mut found = Vec::new(alloc);
    'each: for item in items {
        found.push(nodes.operation(Kind::Mul, *item, factor)?)?;
    }
    Ok(found)
}

/// The products of one node with each of a list.
pub fn scaled(
    nodes: &mut Nodes,
    alloc: Global,
    factor: u32,
    items: &[u32],
) -> Result<Vec<u32>, AllocError>
    ensures { IfOk result (λ found. scaled_nodes factor items.now nodes.old ≡ record {
      items = found.items;
      nodes = nodes.new;
    }) }
{
    let mut found = Vec::new(alloc);
    'each: for item in items {
        found.push(nodes.operation(Kind::Mul, factor, *item)?)?;
    }
    Ok(found)
}
