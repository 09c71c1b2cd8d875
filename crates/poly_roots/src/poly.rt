//! Polynomials that own their coefficients.

ghost use Rattle.std.specs.Prelude.{◌≡◌, IfOk, List};
ghost use Rattle.field_ext.specs.Field.{K, k_ops, zero_k, one_k, add_k};
ghost use Rattle.field_ext.specs.Polynomial.{value_at, sum_of, product_of};

use crate::{product, value};
use field_ext::Ext;
use std::alloc::{AllocError, Global};
use std::marker::Model;

/// A polynomial: its coefficients, constant first. There may be none, and the last may be 0.
#[derive(Drop)]
pub struct Poly {
    coefficients: Vec<Ext>,
}

impl Model for Poly {
    ghost Value = { List K };

    ghost view = { λ p. p.coefficients.items };
}

impl Poly {
    /// The polynomial with these coefficients, constant first.
    pub fn of_coeffs(coefficients: Vec<Ext>) -> Poly
        ensures { result ≡ coefficients.items }
    {
        Poly { coefficients }
    }

    /// The coefficients, constant first.
    pub fn coefficients(&self) -> &[Ext]
        ensures { result.now ≡ self.now }
    {
        self.coefficients.as_slice()
    }

    /// The value at `e`.
    pub fn value_at(&self, e: Ext) -> Ext
        ensures { result ≡ value_at k_ops self.now e }
    {
        value::value_at(self.coefficients.as_slice(), e)
    }

    /// The value at 0 plus the value at 1.
    pub fn sum01(&self) -> Ext
        ensures { result ≡ add_k (value_at k_ops self.now zero_k) (value_at k_ops self.now one_k) }
    {
        value::sum01(self.coefficients.as_slice())
    }

    /// The sum, with as many coefficients as the longer one has. Err only where no memory is found.
    pub fn add(&self, alloc: Global, other: &Poly) -> Result<Poly, AllocError>
        ensures { IfOk result (λ p. p ≡ sum_of k_ops self.now other.now) }
    {
        let coefficients = product::sum(
            alloc,
            self.coefficients.as_slice(),
            other.coefficients.as_slice(),
        )?;
        Ok(Poly { coefficients })
    }

    /// The product of m and n coefficients, with m + n - 1 or, where one has none, no coefficients. Err only where no memory
    /// is found.
    pub fn mul(&self, alloc: Global, other: &Poly) -> Result<Poly, AllocError>
        ensures { IfOk result (λ p. p ≡ product_of k_ops self.now other.now) }
    {
        let coefficients = product::product(
            alloc,
            self.coefficients.as_slice(),
            other.coefficients.as_slice(),
        )?;
        Ok(Poly { coefficients })
    }
}
