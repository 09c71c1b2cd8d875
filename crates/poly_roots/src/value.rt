//! Values of lent coefficients.

ghost use Rattle.std.specs.Prelude.{◌≡◌, slice_index_or};
ghost use Rattle.field_ext.specs.Field.{k_ops, zero_k, one_k, add_k};
ghost use Rattle.field_ext.specs.Polynomial.{value_at};

use field_ext::Ext;

/// The value at `e` of the polynomial with these coefficients, constant first; 0 where there are none.
pub fn value_at(coefficients: &[Ext], e: Ext) -> Ext
    ensures { result ≡ value_at k_ops coefficients.now e }
{
    let mut value = Ext::zero();
    for done in 0..coefficients.len() {
        let coefficient = coefficients[coefficients.len() - 1 - done];
        value = coefficient + e * value;
    }
    value
}

/// The value at 0 plus the value at 1 of the polynomial with these coefficients, constant first.
pub fn sum01(coefficients: &[Ext]) -> Ext
    ensures { result ≡ add_k (value_at k_ops coefficients.now zero_k)
        (value_at k_ops coefficients.now one_k) }
{
    coefficient(coefficients, 0) + value_at_one(coefficients)
}

/// The coefficient of the i-th power, 0 past the last.
#[inline]
pub(crate) fn coefficient(coefficients: &[Ext], i: usize) -> Ext
    ensures { result ≡ slice_index_or coefficients.now i zero_k }
{
    if i < coefficients.len() {
        coefficients[i]
    } else {
        Ext::zero()
    }
}

/// The sum of the coefficients.
fn value_at_one(coefficients: &[Ext]) -> Ext
    ensures { result ≡ value_at k_ops coefficients.now one_k }
{
    let mut value = Ext::zero();
    for done in 0..coefficients.len() {
        value = coefficients[coefficients.len() - 1 - done] + value;
    }
    value
}
