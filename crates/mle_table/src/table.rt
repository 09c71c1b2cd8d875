//! Tables of a power of two of values.

ghost use Rattle.std.specs.Prelude.{◌≡◌, ◌≤◌, ◌*◌, ◌<◌, ◌^◌, ◌+◌, ◌↔◌, ℕ, length, vec_len, slice_get, Some, IsOk, IfOk, IfErr};
ghost use Rattle.field_ext.specs.Field.{k_ops};
ghost use Rattle.field_ext.specs.Multilinear.{folded, extension_at};
ghost use Rattle.mle_table.specs.Equality.{IsEqTable};

use crate::equality::fill_equality;
use crate::values;
use field_ext::Ext;
use std::alloc::{AllocError, Global};
use std::marker::Model;

/// A table of `2^k` values of K.
#[derive(Drop)]
pub struct Table {
    k: u32,
    values: Vec<Ext>,
    ghost whole: { vec_len values ≡ 2 ^ k },
}

impl Model for Table {
    ghost use Rattle.std.specs.Prelude.{ℕ, ◌≡◌, ◌^◌, vec_len};
    ghost use Rattle.std.proofs.Common.{◌∙◌, sym};
    ghost use Rattle.mle_table.specs.Shape.{TableValues};

    ghost Value = { TableValues };

    ghost view = { λ a. record {
      k = a.k;
      items = a.values.items;
      whole = sym a.values.ok.0 ∙ a.whole;
    } };
}

/// The values that are no table, since how many they are is no power of two.
#[derive(Drop)]
pub struct NotPower {
    pub values: Vec<Ext>,
}

impl Table {
    /// The table of these values. `NotPower` comes exactly where their number is no power of two, and gives them back.
    pub fn of_values(values: Vec<Ext>) -> Result<Table, NotPower>
        ensures accepted { IsOk result ↔ ((k : ℕ) × (vec_len values ≡ 2 ^ k)) }
        ensures table { IfOk result (λ t. t.items ≡ values.items) }
        ensures back { IfErr result (λ e. e.values ≡ values) }
    {
        if values.len() == 0 {
            return Err(NotPower { values });
        }
        let k = values.len().ilog2();
        if values.len() == 1usize << k {
            Ok(Table { k, values })
        } else {
            Err(NotPower { values })
        }
    }

    /// How many coordinates the table has: it has `2^k` values.
    pub fn k(&self) -> u32
        ensures { result ≡ self.now.k }
    {
        self.k
    }

    /// The value at index `i`.
    #[inline]
    pub fn at(&self, i: usize) -> Ext
        requires { i < 2 ^ self.now.k }
        ensures { slice_get self.now.items i ≡ Some result }
    {
        self.values[i]
    }

    /// The values, by index.
    #[inline]
    pub fn values(&self) -> &[Ext]
        ensures { result.now ≡ self.now.items }
    {
        self.values.as_slice()
    }

    /// Binds the first coordinate to `r`, in place: half as many values, the line through two neighbours at `r`.
    pub fn fold(&mut self, r: Ext)
        requires { 1 ≤ self.old.k }
        ensures items { self.new.items ≡ folded k_ops self.old.items r }
        ensures k { self.new.k + 1 ≡ self.old.k }
    {
        values::fold_values(&mut self.values, r);
        self.k -= 1;
    }

    /// Writes the table with its first coordinate bound to `r` into a buffer for half of the values.
    pub fn fold_into(&self, r: Ext, buffer: &mut [Ext])
        requires { length buffer.old * 2 ≡ 2 ^ self.now.k }
        ensures { buffer.new ≡ folded k_ops self.now.items r }
    {
        values::fold_slice(self.values.as_slice(), r, buffer);
    }

    /// The value of the multilinear extension at a point of k coordinates. Err only where no memory is found.
    pub fn eval_at(&self, alloc: Global, point: &[Ext]) -> Result<Ext, AllocError>
        requires { length point.now ≡ self.now.k }
        ensures { IfOk result
            (λ x. x ≡ extension_at k_ops k_ops (λ y. y) self.now.items point.now) }
    {
        let values = Vec::from_slice(alloc, self.values.as_slice())?;
        Ok(values::eval_values(values, point))
    }

    /// The table of the equality polynomial at a point of at most 20 coordinates. Err only where no memory is found.
    pub fn eq_table(alloc: Global, point: &[Ext]) -> Result<Table, AllocError>
        requires { length point.now ≤ 20 }
        ensures k { IfOk result (λ t. t.k ≡ length point.now) }
        ensures items { IfOk result (λ t. IsEqTable k_ops point.now t.items) }
    {
        let mut values = vec![in alloc; Ext::zero(); 1usize << point.len()]?;
        fill_equality(&mut values, point);
        Ok(Table {
            k: point.len() as u32,
            values,
        })
    }
}
