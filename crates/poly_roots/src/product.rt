//! Coefficients of sums and products.

ghost use Rattle.std.specs.Prelude.{◌≡◌, ◌<◌, ◌≤◌, ◌+◌, ℕ, length, slice_index_or, IfOk};
ghost use Rattle.field_ext.specs.Field.{k_ops, zero_k, add_k, mul_k};
ghost use Rattle.field_ext.specs.Polynomial.{sum_of, product_of};

use crate::value::coefficient;
use field_ext::Ext;
use std::alloc::{AllocError, Global};

/// The sum, coefficient by coefficient.
pub(crate) fn sum(alloc: Global, left: &[Ext], right: &[Ext]) -> Result<Vec<Ext>, AllocError>
    ensures { IfOk result (λ v. v.items ≡ sum_of k_ops left.now right.now) }
{
    let size = left.len().max(right.len());
    let mut sums = Vec::with_capacity(alloc, size)?;
    for i in 0..size {
        sums.push_reserved(coefficient(left, i) + coefficient(right, i));
    }
    Ok(sums)
}

/// The product.
pub(crate) fn product(alloc: Global, left: &[Ext], right: &[Ext]) -> Result<Vec<Ext>, AllocError>
    ensures { IfOk result (λ v. v.items ≡ product_of k_ops left.now right.now) }
{
    if left.len() == 0 {
        return Ok(Vec::new(alloc));
    }
    if right.len() == 0 {
        return Ok(Vec::new(alloc));
    }
    if usize::MAX - left.len() < right.len() {
        return Err(AllocError);
    }
    let mut products = vec![in alloc; Ext::zero(); left.len() + right.len() - 1]?;
    add_rows(&mut products, left, right);
    Ok(products)
}

/// Adds the multiples of the right factor to zeros, that of the left factor's last coefficient first.
fn add_rows(buffer: &mut [Ext], left: &[Ext], right: &[Ext])
    requires factors { (0 < length left.now) × (0 < length right.now) }
    requires size { length buffer.old + 1 ≡ length left.now + length right.now }
    requires zeros { (k : ℕ) → slice_index_or buffer.old k zero_k ≡ zero_k }
    ensures { buffer.new ≡ product_of k_ops left.now right.now }
{
    for done in 0..left.len() {
        let row = left.len() - 1 - done;
        add_row(buffer, row, left[row], right);
    }
}

/// Adds `c` times the coefficients to the buffer from `row` on.
fn add_row(buffer: &mut [Ext], row: usize, c: Ext, coefficients: &[Ext])
    requires { row + length coefficients.now ≤ length buffer.old }
    ensures before { (k : ℕ) → k < row
        → slice_index_or buffer.new k zero_k ≡ slice_index_or buffer.old k zero_k }
    ensures from { (k : ℕ) → slice_index_or buffer.new (row + k) zero_k
        ≡ add_k (slice_index_or buffer.old (row + k) zero_k)
        (mul_k c (slice_index_or coefficients.now k zero_k)) }
{
    for i in 0..coefficients.len() {
        let sum = buffer[row + i] + c * coefficients[i];
        buffer[row + i] = sum;
    }
}
