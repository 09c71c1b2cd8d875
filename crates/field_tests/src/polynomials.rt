//! Polynomials by hand.

use crate::numbers::{P, element, number};
use field_ext::Ext;
use poly_roots::Poly;
use std::alloc::{AllocError, Global};
use std::process::Abort;

/// The polynomial with these coefficients, modulo the prime.
fn poly(alloc: Global, numbers: &[u64]) -> Result<Poly, AllocError> {
    let mut coefficients = Vec::new(alloc);
    for n in numbers {
        coefficients.push(number(*n))?;
    }
    Ok(Poly::of_coeffs(coefficients))
}

/// Sees the value of a polynomial at a point, and the sum of its values at 0 and at 1.
fn has_values<R: Abort>(rt: &R, p: &Poly, point: u64, value: u64, sum: u64) {
    assert!(rt; p.value_at(number(point)) == number(value));
    assert!(rt; p.sum01() == number(sum));
}

#[test]
fn evaluates_by_hand(rt: HostRuntime) -> Result<(), AllocError> {
    let p = poly(rt.alloc(), &[1, 2, 3])?;
    has_values(&rt, &p, 2, 17, 7);
    Ok(())
}

#[test]
fn evaluates_no_coefficients(rt: HostRuntime) -> Result<(), AllocError> {
    let none = poly(rt.alloc(), &[])?;
    has_values(&rt, &none, 5, 0, 0);
    Ok(())
}

/// Sees the coefficients of a polynomial.
fn has_coefficients<R: Abort>(rt: &R, p: &Poly, want: &[Ext]) {
    assert!(rt; p.coefficients() == want);
}

/// Sees the coefficients of a product.
fn multiplies<R: Abort + AllocGlobal>(
    rt: &R,
    left: &Poly,
    right: &Poly,
    want: &[Ext],
) -> Result<(), AllocError> {
    let product = left.mul(rt.alloc(), right)?;
    has_coefficients(rt, &product, want);
    Ok(())
}

/// Sees the coefficients of a sum.
fn adds<R: Abort + AllocGlobal>(
    rt: &R,
    left: &Poly,
    right: &Poly,
    want: &[Ext],
) -> Result<(), AllocError> {
    let sum = left.add(rt.alloc(), right)?;
    has_coefficients(rt, &sum, want);
    Ok(())
}

#[test]
fn multiplies_by_hand(rt: HostRuntime) -> Result<(), AllocError> {
    let left = poly(rt.alloc(), &[1, 1])?;
    let right = poly(rt.alloc(), &[1, P - 1])?;
    let product = [number(1), number(0), number(P - 1)];
    multiplies(&rt, &left, &right, &product)
}

#[test]
fn multiplies_no_coefficients(rt: HostRuntime) -> Result<(), AllocError> {
    let left = poly(rt.alloc(), &[])?;
    let right = poly(rt.alloc(), &[1, 2])?;
    multiplies(&rt, &left, &right, &[])
}

#[test]
fn adds_by_hand(rt: HostRuntime) -> Result<(), AllocError> {
    let left = poly(rt.alloc(), &[1, 2])?;
    let right = poly(rt.alloc(), &[3, 4])?;
    adds(&rt, &left, &right, &[number(4), number(6)])
}

#[test]
fn adds_more_coefficients(rt: HostRuntime) -> Result<(), AllocError> {
    let left = poly(rt.alloc(), &[5])?;
    let right = poly(rt.alloc(), &[1, 2, 3])?;
    adds(&rt, &left, &right, &[number(6), number(2), number(3)])
}

/// Sees the product of two elements, in either order, and of the constants that they are.
fn multiplies_constants<R: Abort + AllocGlobal>(
    rt: &R,
    x: Ext,
    y: Ext,
    product: Ext,
) -> Result<(), AllocError> {
    assert!(rt; x * y == product && y * x == product);
    let left = Poly::of_coeffs(Vec::from_slice(rt.alloc(), &[x])?);
    let right = Poly::of_coeffs(Vec::from_slice(rt.alloc(), &[y])?);
    multiplies(rt, &left, &right, &[product])
}

#[test]
fn multiplies_constants_at_the_edges(rt: HostRuntime) -> Result<(), AllocError> {
    // All pairs of 0, 1, p - 1 and i, by the rule i i = -1.
    let rows = [
        ((0, 0), (0, 0), (0, 0)),
        ((0, 0), (1, 0), (0, 0)),
        ((0, 0), (P - 1, 0), (0, 0)),
        ((0, 0), (0, 1), (0, 0)),
        ((1, 0), (1, 0), (1, 0)),
        ((1, 0), (P - 1, 0), (P - 1, 0)),
        ((1, 0), (0, 1), (0, 1)),
        ((P - 1, 0), (P - 1, 0), (1, 0)),
        ((P - 1, 0), (0, 1), (0, P - 1)),
        ((0, 1), (0, 1), (P - 1, 0)),
    ];
    for ((a, b), (c, d), (re, im)) in rows {
        multiplies_constants(&rt, element(a, b), element(c, d), element(re, im))?;
    }
    Ok(())
}
