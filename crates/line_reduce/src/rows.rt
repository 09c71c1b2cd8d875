//! Rows of coefficients, folded in pairs where they lie.

ghost use Rattle.std.specs.Prelude.{◌≡◌, ◌≤◌, ◌<◌, ◌+◌, ◌-◌, ◌*◌, ◌^◌, ℕ, List, length, slice_index_or};
ghost use Rattle.field_ext.specs.Field.{K, k_ops, add_k, mul_k, zero_k};
ghost use Rattle.line_reduce.specs.Parts.{most_coordinates};
ghost use Rattle.line_reduce.specs.Rows.{row_value, between, AreFolded, HaveFolds};

use field_ext::Ext;

/// Folds the two rows of `n` coefficients at `at` by the polynomial `start + step X`, into the row of `n + 1` at `to`.
fn fold_row(rows: &mut [Ext], at: usize, n: usize, start: Ext, step: Ext, to: usize)
    requires some { 1 ≤ n }
    requires to { to ≤ at }
    requires at { at + 2 * n ≤ length rows.old }
    ensures row { (e : K) → row_value k_ops rows.new to (n + 1) e
        ≡ between k_ops (row_value k_ops rows.old at n e) (row_value k_ops rows.old (at + n) n e)
        (add_k start (mul_k e step)) }
    ensures before { (x : ℕ) → x < to
        → slice_index_or rows.new x zero_k ≡ slice_index_or rows.old x zero_k }
    ensures after { (x : ℕ) → at + 2 * n ≤ x
        → slice_index_or rows.new x zero_k ≡ slice_index_or rows.old x zero_k }
{
    let mut carry = Ext::zero();
    for i in 0..n {
        let low = rows[at + i];
        let difference = rows[at + n + i] - low;
        rows[to + i] = low + start * difference + carry;
        carry = step * difference;
    }
    rows[to + n] = carry;
}

/// Folds the first `count` pairs of rows of `n` coefficients by the polynomial `start + step X`, into as many rows of `n + 1`.
fn fold_rows(rows: &mut [Ext], n: usize, count: usize, start: Ext, step: Ext)
    requires some { 1 ≤ n }
    requires few { n ≤ most_coordinates }
    requires size { 2 * count * n ≤ length rows.old }
    ensures { AreFolded k_ops count n start step rows.old rows.new }
{
    for p in 0..count {
        fold_row(rows, 2 * p * n, n, start, step, p * (n + 1));
    }
}

/// Folds rows for the coordinates before `from` by the line's polynomials at those from there on, to one row. It lies first.
pub(crate) fn fold_by_line(rows: &mut [Ext], from: usize, b: &[Ext], c: &[Ext])
    requires most { length b.now ≤ most_coordinates }
    requires end { length c.now ≡ length b.now }
    requires from { from ≤ length b.now }
    requires size { 2 ^ (length b.now - from) * (from + 1) ≤ length rows.old }
    ensures { (t : List K) (e : K)
        → HaveFolds k_ops from (2 ^ (length b.now - from)) rows.old t b.now c.now e
        → HaveFolds k_ops (length b.now) 1 rows.new t b.now c.now e }
{
    let mut count = 1usize << (b.len() - from);
    for j in from..b.len() {
        count /= 2;
        fold_rows(rows, j + 1, count, b[j], c[j] - b[j]);
    }
}
