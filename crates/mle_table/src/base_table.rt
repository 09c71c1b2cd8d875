//! Tables of a power of two of numbers of the base field.

ghost use Rattle.std.specs.Prelude.{◌≡◌, ◌<◌, ◌^◌, ℕ, length, map, Some, IfOk, slice_get, vec_len};
ghost use Rattle.field_ext.specs.Field.{k_ops, embed_k};
ghost use Rattle.field_ext.specs.Multilinear.{extension_at};

use crate::values;
use field_ext::{Ext, Fp};
use std::alloc::{AllocError, Global};
use std::marker::Model;

/// A table of `2^k` values of K that all lie in the base field, and are kept at four bytes each.
#[derive(Drop)]
pub struct BaseTable {
    k: u32,
    values: Vec<Fp>,
    ghost whole: { vec_len values ≡ 2 ^ k },
}

impl Model for BaseTable {
    ghost use Rattle.std.specs.Prelude.{ℕ, ◌≡◌, ◌^◌, map, vec_len};
    ghost use Rattle.std.proofs.Common.{◌∙◌, sym};
    ghost use Rattle.std.proofs.lemmas.List.{length-map};
    ghost use Rattle.field_ext.specs.Field.{embed_k};
    ghost use Rattle.mle_table.specs.Shape.{TableValues};

    ghost Value = { TableValues };

    ghost view = { λ a. record {
      k = a.k;
      items = map embed_k a.values.items;
      whole = length-map a.values.items embed_k ∙ sym a.values.ok.0 ∙ a.whole;
    } };
}

impl BaseTable {
    /// The table of these numbers, of which there is a power of two.
    pub fn of(values: Vec<Fp>) -> BaseTable
        requires { (k : ℕ) × (vec_len values ≡ 2 ^ k) }
        ensures { result.items ≡ map embed_k values.items }
    {
        BaseTable {
            k: values.len().ilog2(),
            values,
        }
    }

    /// How many coordinates the table has: it has `2^k` values.
    pub fn k(&self) -> u32
        ensures { result ≡ self.now.k }
    {
        self.k
    }

    /// The value at index `i`.
    #[inline]
    pub fn at(&self, i: usize) -> Ext
        requires { i < 2 ^ self.now.k }
        ensures { slice_get self.now.items i ≡ Some result }
    {
        Ext::embed(self.values[i])
    }

    /// The numbers that the values are, by index.
    #[inline]
    pub fn values(&self) -> &[Fp]
        ensures { self.now.items ≡ map embed_k result.now }
    {
        self.values.as_slice()
    }

    /// The values as elements of K. Err only where no memory is found.
    pub fn elements(&self, alloc: Global) -> Result<Vec<Ext>, AllocError>
        ensures { IfOk result (λ found. found.items ≡ self.now.items) }
    {
        values::embedded(alloc, &self.values)
    }

    /// The value of the multilinear extension at a point of k coordinates. Err only where no memory is found.
    pub fn eval_at(&self, alloc: Global, point: &[Ext]) -> Result<Ext, AllocError>
        requires { length point.now ≡ self.now.k }
        ensures { IfOk result
            (λ x. x ≡ extension_at k_ops k_ops (λ y. y) self.now.items point.now) }
    {
        let values = self.elements(alloc)?;
        Ok(values::eval_values(values, point))
    }
}
