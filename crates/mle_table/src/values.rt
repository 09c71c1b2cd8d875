//! Lists of values: as elements of K, and folded.

ghost use Rattle.std.specs.Prelude.{◌≡◌, ◌≤◌, ◌*◌, ◌<◌, ◌^◌, ◌+◌, ℕ, length, map, vec_len, IfOk};
ghost use Rattle.field_ext.specs.Field.{k_ops, embed_k};
ghost use Rattle.field_ext.specs.Multilinear.{folded, extension_at};

use field_ext::{Ext, Fp};
use std::alloc::{AllocError, Global};

/// Values of the base field as elements of K.
pub(crate) fn embedded(alloc: Global, values: &[Fp]) -> Result<Vec<Ext>, AllocError>
    ensures { IfOk result (λ v. v.items ≡ map embed_k values.now) }
{
    let mut items = vec![in alloc; Ext::zero(); values.len()]?;
    embed_into(values, &mut items);
    Ok(items)
}

/// Writes numbers of the base field as elements of K.
pub fn embed_into(values: &[Fp], items: &mut [Ext])
    requires { length items.old ≡ length values.now }
    ensures { items.new ≡ map embed_k values.now }
{
    for i in 0..values.len() {
        items[i] = Ext::embed(values[i]);
    }
}

/// Binds the first coordinate of a table to r.
pub(crate) fn fold_values(values: &mut Vec<Ext>, r: Ext)
    requires { (half : ℕ) × (vec_len values.old ≡ half * 2) }
    ensures folded { values.new.items ≡ folded k_ops values.old.items r }
    ensures size { vec_len values.new * 2 ≡ vec_len values.old }
{
    let half = values.len() / 2;
    for j in 0..half {
        let low = values[2 * j];
        let high = values[2 * j + 1];
        values[j] = low + r * (high - low);
    }
    values.truncate(half);
}

/// Writes the table with its first coordinate bound to r.
pub(crate) fn fold_slice(values: &[Ext], r: Ext, buffer: &mut [Ext])
    requires { length values.now ≡ length buffer.old * 2 }
    ensures { buffer.new ≡ folded k_ops values.now r }
{
    for j in 0..buffer.len() {
        let low = values[2 * j];
        let high = values[2 * j + 1];
        buffer[j] = low + r * (high - low);
    }
}

/// The value of a table's extension at a point; the table is used up.
pub(crate) fn eval_values(mut values: Vec<Ext>, point: &[Ext]) -> Ext
    requires { vec_len values ≡ 2 ^ length point.now }
    ensures { result ≡ extension_at k_ops k_ops (λ x. x) values.items point.now }
{
    for r in point {
        fold_values(&mut values, *r);
    }
    values[0]
}
