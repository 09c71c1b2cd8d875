//! The nodes of matrices, which are held row by row.

ghost use Rattle.std.specs.Prelude.{◌≡◌, ◌<◌, ◌^◌, ◌*◌, ◌+◌, IfOk, map, get_or};
ghost use Rattle.std.specs.List.{range_with_len};
ghost use Rattle.circuit_core.specs.declared.gate.Kind.TheVariants.{Mul};
ghost use Rattle.arr_lower.specs.Operations.{made_each, operation_node, dot_node, product_pairs, matmul_nodes};

use crate::nodes::Nodes;
use crate::sum::sum;
use circuit_core::Kind;
use std::alloc::{AllocError, Global};

/// n rows of m nodes times m rows of q.
pub fn matrix_product(
    nodes: &mut Nodes,
    alloc: Global,
    n: usize,
    m: usize,
    q: usize,
    left: &[u32],
    right: &[u32],
) -> Result<Vec<u32>, AllocError>
    requires n { n < 2 ^ 32 }
    requires m { m < 2 ^ 32 }
    requires q { q < 2 ^ 32 }
    ensures { IfOk result (λ found. matmul_nodes n m q left.now right.now nodes.old
        ≡ record { items = found.items; nodes = nodes.new }) }
{
    let mut found = Vec::new(alloc);
    'each: for k in 0..n * q {
        found.push(product(nodes, alloc, m, q, left, right, k / q, k % q)?)?;
    }
    Ok(found)
}

/// Row i of rows of m nodes times column j of rows of q.
fn product(
    nodes: &mut Nodes,
    alloc: Global,
    m: usize,
    q: usize,
    left: &[u32],
    right: &[u32],
    i: usize,
    j: usize,
) -> Result<u32, AllocError>
    requires m { m < 2 ^ 32 }
    requires q { q < 2 ^ 32 }
    requires i { i < 2 ^ 32 }
    requires j { j < 2 ^ 32 }
    ensures { IfOk result (λ item.
        dot_node (map (λ l. (get_or left.now (i * m + l) 0, get_or right.now (l * q + j) 0))
        (range_with_len 0 m)) nodes.old
        ≡ record { item = item; nodes = nodes.new }) }
{
    let products = products(nodes, alloc, m, q, left, right, i, j)?;
    sum(nodes, products.as_slice())
}

/// The products of row i of rows of m nodes with column j of rows of q.
fn products(
    nodes: &mut Nodes,
    alloc: Global,
    m: usize,
    q: usize,
    left: &[u32],
    right: &[u32],
    i: usize,
    j: usize,
) -> Result<Vec<u32>, AllocError>
    requires m { m < 2 ^ 32 }
    requires q { q < 2 ^ 32 }
    requires i { i < 2 ^ 32 }
    requires j { j < 2 ^ 32 }
    ensures { IfOk result (λ found.
        made_each (operation_node Mul)
        (map (λ l. (get_or left.now (i * m + l) 0, get_or right.now (l * q + j) 0))
        (range_with_len 0 m)) nodes.old
        ≡ record { items = found.items; nodes = nodes.new }) }
{
    let mut found = Vec::new(alloc);
    'each: for l in 0..m {
        let a = item_at(left, i * m + l);
        let b = item_at(right, l * q + j);
        found.push(nodes.operation(Kind::Mul, a, b)?)?;
    }
    Ok(found)
}

/// The node at a place, or 0 past the end.
fn item_at(items: &[u32], place: usize) -> u32
    ensures { result ≡ get_or items.now place 0 }
{
    match items.get(place) {
        Some(found) => *found,
        None => 0,
    }
}
