//! The nodes of operators and functions of lists that others may hold too.

ghost use Rattle.std.specs.Prelude.{◌≡◌, IfOk};
ghost use Rattle.arr_lower.specs.Operations.{pairwise_nodes, signed_nodes, difference_nodes, negated_nodes, single_nodes, pair_nodes};

use crate::matrix::matrix_product;
use crate::nodes::Nodes;
use crate::operation::{differences, negations, pairwise, scaled};
use crate::sum::{dot, sum};
use arr_ast::{PairFunction, ShapeOf, Sign, SingleFunction};
use circuit_core::Kind;
use shared_list::SharedList;
use std::alloc::{AllocError, Global};

/// The sums or products of two lists, place by place.
pub fn combined(
    nodes: &mut Nodes,
    alloc: Global,
    kind: Kind,
    left: &SharedList<u32>,
    right: &SharedList<u32>,
) -> Result<SharedList<u32>, AllocError>
    ensures { IfOk result (λ items. pairwise_nodes kind left.now right.now nodes.old
        ≡ record { items = items; nodes = nodes.new }) }
{
    match (left.only(), right.only()) {
        (Some(a), Some(b)) => {
            let item = nodes.operation(kind, a, b)?;
            Ok(SharedList::one(item))
        }
        _ => combined_lists(nodes, alloc, kind, left, right),
    }
}

fn combined_lists(
    nodes: &mut Nodes,
    alloc: Global,
    kind: Kind,
    left: &SharedList<u32>,
    right: &SharedList<u32>,
) -> Result<SharedList<u32>, AllocError>
    ensures { IfOk result (λ items. pairwise_nodes kind left.now right.now nodes.old
        ≡ record { items = items; nodes = nodes.new }) }
{
    let left = left.in_order(alloc)?;
    let right = right.in_order(alloc)?;
    let items = pairwise(nodes, alloc, kind, &left, &right)?;
    SharedList::new(alloc, items)
}

/// A sum or a difference, place by place.
pub fn signed(
    nodes: &mut Nodes,
    alloc: Global,
    sign: Sign,
    left: &SharedList<u32>,
    right: &SharedList<u32>,
) -> Result<SharedList<u32>, AllocError>
    ensures { IfOk result (λ items. signed_nodes sign left.now right.now nodes.old
        ≡ record { items = items; nodes = nodes.new }) }
{
    match sign {
        Sign::Plus => combined(nodes, alloc, Kind::Add, left, right),
        Sign::Minus => subtracted(nodes, alloc, left, right),
    }
}

/// The differences of two lists, place by place.
fn subtracted(
    nodes: &mut Nodes,
    alloc: Global,
    left: &SharedList<u32>,
    right: &SharedList<u32>,
) -> Result<SharedList<u32>, AllocError>
    ensures { IfOk result (λ items. difference_nodes left.now right.now nodes.old ≡ record {
      items = items;
      nodes = nodes.new;
    }) }
{
    let left = left.in_order(alloc)?;
    let right = right.in_order(alloc)?;
    let items = differences(nodes, alloc, &left, &right)?;
    SharedList::new(alloc, items)
}

/// The negations of a list.
pub fn negated(
    nodes: &mut Nodes,
    alloc: Global,
    array: &SharedList<u32>,
) -> Result<SharedList<u32>, AllocError>
    ensures { IfOk result (λ items. negated_nodes array.now nodes.old ≡ record {
      items = items;
      nodes = nodes.new;
    }) }
{
    let items = array.in_order(alloc)?;
    let found = negations(nodes, alloc, &items)?;
    SharedList::new(alloc, found)
}

/// A function of a list of this shape.
pub fn single(
    nodes: &mut Nodes,
    alloc: Global,
    function: SingleFunction,
    shape: ShapeOf,
    array: SharedList<u32>,
) -> Result<SharedList<u32>, AllocError>
    ensures { IfOk result (λ items. single_nodes function shape array nodes.old ≡ record {
      items = items;
      nodes = nodes.new;
    }) }
{
    match (function, shape) {
        (SingleFunction::Sum, _) => {
            let items = array.in_order(alloc)?;
            let item = sum(nodes, &items)?;
            Ok(SharedList::one(item))
        }
        (SingleFunction::Transpose, ShapeOf::Matrix(n, m)) => {
            array.transposed(alloc, n as usize, m as usize, 0)
        }
        _ => Ok(array),
    }
}

/// A function of two lists of these shapes.
pub fn pair(
    nodes: &mut Nodes,
    alloc: Global,
    function: PairFunction,
    left_shape: ShapeOf,
    right_shape: ShapeOf,
    left: &SharedList<u32>,
    right: &SharedList<u32>,
) -> Result<SharedList<u32>, AllocError>
    ensures { IfOk result (λ items.
        pair_nodes function left_shape right_shape left.now right.now nodes.old
        ≡ record { items = items; nodes = nodes.new }) }
{
    match (function, left_shape, right_shape) {
        (PairFunction::Scale, _, _) => {
            let right = right.in_order(alloc)?;
            let items = scaled(nodes, alloc, left.item_or(0, 0), &right)?;
            SharedList::new(alloc, items)
        }
        (PairFunction::Dot, _, _) => {
            let left = left.in_order(alloc)?;
            let right = right.in_order(alloc)?;
            let item = dot(nodes, alloc, &left, &right)?;
            Ok(SharedList::one(item))
        }
        (PairFunction::MatMul, ShapeOf::Matrix(n, m), ShapeOf::Matrix(_, q)) => {
            let (n, m, q) = (n as usize, m as usize, q as usize);
            let left = left.in_order(alloc)?;
            let right = right.in_order(alloc)?;
            let items = matrix_product(nodes, alloc, n, m, q, &left, &right)?;
            SharedList::new(alloc, items)
        }
        _ => SharedList::new(alloc, Vec::new(alloc)),
    }
}
