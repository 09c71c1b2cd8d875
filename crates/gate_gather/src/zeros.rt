//! Tables of zeros.

ghost use Rattle.std.specs.Prelude.{◌≡◌, ◌≤◌, ◌+◌, ◌↔◌, ℕ, IsTrue, length, slice_index_or};
ghost use Rattle.field_ext.specs.Field.{zero_k};
ghost use Rattle.gate_gather.specs.Scaling.{AreZeros};

use field_ext::Ext;

/// Sets every value to 0.
pub fn clear(table: &mut [Ext])
    ensures { (x : ℕ) → slice_index_or table.new x zero_k ≡ zero_k }
{
    for value in table.iter_mut() {
        *value = Ext::zero();
    }
}

/// Whether `count` values of a table, from the place `from` on, are all 0.
pub fn is_zero(table: &[Ext], from: usize, count: usize) -> bool
    requires { from + count ≤ length table.now }
    ensures { IsTrue result ↔ AreZeros table.now from count }
{
    let mut most: u32 = 0;
    for i in 0..count {
        let value = table[from + i];
        most = most.max(value.re().value()).max(value.im().value());
    }
    most == 0
}
