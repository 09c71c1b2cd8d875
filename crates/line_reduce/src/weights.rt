//! Rows of weights: the values of the equality polynomial along a line.

ghost use Rattle.std.specs.Prelude.{◌≡◌, ◌≤◌, ◌<◌, ◌+◌, ◌*◌, ◌^◌, ℕ, length, slice_index_or};
ghost use Rattle.field_ext.specs.Field.{K, k_ops, add_k, sub_k, mul_k, zero_k};
ghost use Rattle.line_reduce.specs.Rows.{most_known, row_value, AreWeights};

use field_ext::Ext;

/// Splits the row of `n` coefficients at `at` in two of `n + 1`: that times `start + step X` at `to`, and what is left at `at`.
fn split_row(rows: &mut [Ext], at: usize, n: usize, start: Ext, step: Ext, to: usize)
    requires apart { at + n < to }
    requires to { to + n < length rows.old }
    ensures high { (e : K) → row_value k_ops rows.new to (n + 1) e
        ≡ mul_k (add_k start (mul_k e step)) (row_value k_ops rows.old at n e) }
    ensures low { (e : K) → row_value k_ops rows.new at (n + 1) e
        ≡ sub_k (row_value k_ops rows.old at n e) (row_value k_ops rows.new to (n + 1) e) }
    ensures before { (x : ℕ) → x < at
        → slice_index_or rows.new x zero_k ≡ slice_index_or rows.old x zero_k }
    ensures middle { (x : ℕ) → at + n < x → x < to
        → slice_index_or rows.new x zero_k ≡ slice_index_or rows.old x zero_k }
    ensures after { (x : ℕ) → to + n < x
        → slice_index_or rows.new x zero_k ≡ slice_index_or rows.old x zero_k }
{
    let mut carry = Ext::zero();
    for i in 0..n {
        let here = rows[at + i];
        let high = start * here + carry;
        carry = step * here;
        rows[to + i] = high;
        rows[at + i] = here - high;
    }
    rows[to + n] = carry;
    rows[at + n] = Ext::zero() - carry;
}

/// Splits `size` rows of `n` coefficients, a row every `width` places: what each is times `start + step X` comes after all.
fn split_rows(rows: &mut [Ext], size: usize, width: usize, n: usize, start: Ext, step: Ext)
    requires wide { n < width }
    requires fits { 2 * size * width ≤ length rows.old }
    ensures high { (e : K) (q : ℕ) → q < size
        → row_value k_ops rows.new ((size + q) * width) (n + 1) e
        ≡ mul_k (add_k start (mul_k e step)) (row_value k_ops rows.old (q * width) n e) }
    ensures low { (e : K) (q : ℕ) → q < size → row_value k_ops rows.new (q * width) (n + 1) e
        ≡ sub_k (row_value k_ops rows.old (q * width) n e)
        (mul_k (add_k start (mul_k e step)) (row_value k_ops rows.old (q * width) n e)) }
{
    for q in 0..size {
        split_row(rows, q * width, n, start, step, (size + q) * width);
    }
}

/// Writes the weights for the first `known` coordinates of the line: `2^known` rows of `known + 1` coefficients.
pub(crate) fn fill_weights(weights: &mut [Ext], known: usize, b: &[Ext], c: &[Ext])
    requires few { known ≤ most_known }
    requires known { known ≤ length b.now }
    requires end { length c.now ≡ length b.now }
    requires size { 2 ^ known * (known + 1) ≤ length weights.old }
    ensures { (e : K) → AreWeights k_ops known (known + 1) weights.new b.now c.now e }
{
    weights[0] = Ext::one();
    let mut size = 1;
    for j in 0..known {
        split_rows(weights, size, known + 1, j + 1, b[j], c[j] - b[j]);
        size *= 2;
    }
}
