//! Matrices, held row by row.

ghost use Rattle.std.specs.Prelude.{◌≡◌, ◌<◌, ◌^◌, ◌*◌, ◌+◌, IfOk, OnOk};
ghost use Rattle.field_ext.specs.Field.{of, mul_f};
ghost use Rattle.arr_eval.specs.Numbers.{at_places, product_at, product_place, matmul_of};

use crate::numbers::element_at;
use field_ext::Fp;
use std::alloc::{AllocError, Global};

const MASK: u64 = 2_147_483_647;

/// n rows of m elements times m rows of q.
pub fn matrix_product(
    alloc: Global,
    n: usize,
    m: usize,
    q: usize,
    left: &[Fp],
    right: &[Fp],
) -> Result<Vec<Fp>, AllocError>
    requires n { n < 2 ^ 32 }
    requires m { m < 2 ^ 32 }
    requires q { q < 2 ^ 32 }
    ensures { IfOk result (λ found. found.items ≡ matmul_of n m q left.now right.now) }
{
    let mut found = Vec::new(alloc);
    'each: for i in 0..n {
        add_row(&mut found, m, q, left, right, i)?;
    }
    Ok(found)
}

/// Row i of a product, after the rows before it.
fn add_row(
    found: &mut Vec<Fp>,
    m: usize,
    q: usize,
    left: &[Fp],
    right: &[Fp],
    i: usize,
) -> Result<(), AllocError>
    requires m { m < 2 ^ 32 }
    requires q { q < 2 ^ 32 }
    requires i { i < 2 ^ 32 }
    requires so_far { found.old.items ≡ at_places (i * q) (product_place m q left.now right.now) }
    ensures { OnOk result (found.new.items ≡ at_places ((i + 1) * q)
        (product_place m q left.now right.now)) }
{
    'each: for j in 0..q {
        found.push(product(m, q, left, right, i, j))?;
    }
    Ok(())
}

/// Row i of rows of m elements times column j of rows of q. The sum is reduced once, at its end.
fn product(m: usize, q: usize, left: &[Fp], right: &[Fp], i: usize, j: usize) -> Fp
    requires m { m < 2 ^ 32 }
    requires q { q < 2 ^ 32 }
    requires i { i < 2 ^ 32 }
    requires j { j < 2 ^ 32 }
    ensures { result ≡ product_at m q left.now right.now i j }
{
    let mut total = 0;
    'each: for l in 0..m {
        total += folded_product(element_at(left, i * m + l), element_at(right, l * q + j));
    }
    Fp::reduce(total)
}

/// A number below 2 ^ 32 that stands for the product, since 2 ^ 31 is 1 modulo the prime.
fn folded_product(a: Fp, b: Fp) -> u64
    ensures small { result < 2 ^ 32 }
    ensures value { of result ≡ mul_f a b }
{
    let product = u64::from(a.value()) * u64::from(b.value());
    (product & MASK) + (product >> 31)
}
