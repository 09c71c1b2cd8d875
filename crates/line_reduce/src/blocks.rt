//! Lines of tables whose values lie in the base field: several coordinates at once.
//!
//! Of each block of values the row is the sum of its values times rows of weights, those of the equality polynomial at the
//! coordinates. Four products of numbers below p fit 64 bits and are reduced together, while to fold reduces each.

ghost use Rattle.std.specs.Prelude.{◌≡◌, ◌≤◌, ◌<◌, ◌+◌, ◌-◌, ◌*◌, ◌^◌, ℕ, length, map, take, slice_index_or};
ghost use Rattle.field_ext.specs.Field.{k_ops, zero_k, embed_k};
ghost use Rattle.field_ext.specs.Polynomial.{coefficients};
ghost use Rattle.gkr_layers.specs.Sumcheck.{line_polynomial};
ghost use Rattle.line_reduce.specs.Parts.{most_coordinates};
ghost use Rattle.line_reduce.specs.Rows.{most_known, weighted_sum};

use crate::rows::fold_by_line;
use crate::weights::fill_weights;
use field_ext::{Ext, Fp};

/// Four values of the base field from `at` on, each times the weight at the next of the places `from`, `from + n`, ..
fn four(values: &[Fp], at: usize, weights: &[Ext], from: usize, n: usize) -> Ext
    requires values { at + 4 ≤ length values.now }
    requires weights { from + 3 * n < length weights.now }
    ensures { result ≡ weighted_sum k_ops (map embed_k values.now) at weights.now from n 4 }
{
    let a0 = values[at].value() as u64;
    let a1 = values[at + 1].value() as u64;
    let a2 = values[at + 2].value() as u64;
    let a3 = values[at + 3].value() as u64;
    let w0 = weights[from];
    let w1 = weights[from + n];
    let w2 = weights[from + 2 * n];
    let w3 = weights[from + 3 * n];
    let (c0, d0) = (w0.re().value() as u64, w0.im().value() as u64);
    let (c1, d1) = (w1.re().value() as u64, w1.im().value() as u64);
    let (c2, d2) = (w2.re().value() as u64, w2.im().value() as u64);
    let (c3, d3) = (w3.re().value() as u64, w3.im().value() as u64);
    Ext::of(
        Fp::reduce(a0 * c0 + a1 * c1 + a2 * c2 + a3 * c3),
        Fp::reduce(a0 * d0 + a1 * d1 + a2 * d2 + a3 * d3),
    )
}

/// As many values of the base field from `at` on, each times the weight in a column of rows of `n`.
fn weighted(values: &[Fp], at: usize, weights: &[Ext], column: usize, n: usize, fours: usize) -> Ext
    requires values { at + 4 * fours ≤ length values.now }
    requires column { column < n }
    requires weights { 4 * fours * n ≤ length weights.now }
    ensures { result ≡ weighted_sum k_ops (map embed_k values.now) at weights.now column n (4 * fours) }
{
    let mut sum = Ext::zero();
    for i in 0..fours {
        sum = sum + four(values, at + 4 * i, weights, column + 4 * i * n, n);
    }
    sum
}

/// Writes the row of `n` coefficients of a block of values.
fn fill_row(
    values: &[Fp],
    at: usize,
    weights: &[Ext],
    n: usize,
    fours: usize,
    rows: &mut [Ext],
    to: usize,
)
    requires values { at + 4 * fours ≤ length values.now }
    requires weights { 4 * fours * n ≤ length weights.now }
    requires capacity { to + n ≤ length rows.old }
    ensures row { (j : ℕ) → j < n → slice_index_or rows.new (to + j) zero_k
        ≡ weighted_sum k_ops (map embed_k values.now) at weights.now j n (4 * fours) }
    ensures before { (x : ℕ) → x < to
        → slice_index_or rows.new x zero_k ≡ slice_index_or rows.old x zero_k }
{
    for j in 0..n {
        rows[to + j] = weighted(values, at, weights, j, n, fours);
    }
}

/// Writes the rows of `n` coefficients of `count` blocks of values, one after another.
fn fill_rows(values: &[Fp], weights: &[Ext], n: usize, fours: usize, count: usize, rows: &mut [Ext])
    requires few { n ≤ most_known + 1 }
    requires some { 1 ≤ fours }
    requires values { length values.now ≡ count * (4 * fours) }
    requires weights { 4 * fours * n ≤ length weights.now }
    requires capacity { count * n ≤ length rows.old }
    ensures { (p j : ℕ) → p < count → j < n → slice_index_or rows.new (p * n + j) zero_k
        ≡ weighted_sum k_ops (map embed_k values.now) (p * (4 * fours)) weights.now j n (4 * fours) }
{
    for p in 0..count {
        fill_row(values, p * (4 * fours), weights, n, fours, rows, p * n);
    }
}

/// Writes the line of a table of the base field, the first `known` coordinates at once. Its coefficients lie first in `rows`. The
/// buffers are for as many rows as there are blocks, and for as many weights as a block has values. It takes no memory.
pub(crate) fn fill_line(
    values: &[Fp],
    known: usize,
    b: &[Ext],
    c: &[Ext],
    weights: &mut [Ext],
    rows: &mut [Ext],
)
    requires most { length b.now ≤ most_coordinates }
    requires end { length c.now ≡ length b.now }
    requires size { length values.now ≡ 2 ^ length b.now }
    requires some { 2 ≤ known }
    requires few { known ≤ most_known }
    requires known { known ≤ length b.now }
    requires weights { 2 ^ known * (known + 1) ≤ length weights.old }
    requires rows { 2 ^ (length b.now - known) * (known + 1) ≤ length rows.old }
    ensures { take (length b.now + 1) rows.new ≡ coefficients k_ops (length b.now + 1)
        (line_polynomial k_ops (map embed_k values.now) b.now c.now) }
{
    fill_weights(weights, known, b, c);
    let size = 1usize << known;
    fill_rows(
        values,
        weights,
        known + 1,
        size / 4,
        values.len() / size,
        rows,
    );
    fold_by_line(rows, known, b, c);
}
