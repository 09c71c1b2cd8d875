//! What the pairs of a round sum to.

ghost use Rattle.std.specs.Prelude.{◌≡◌, ◌≤◌, ◌<◌, ◌*◌, ◌+◌, ◌^◌, ℕ, length, slice_index_or};
ghost use Rattle.field_ext.specs.Field.{K, k_ops, zero_k};
ghost use Rattle.field_ext.specs.Polynomial.{value_at};
ghost use Rattle.field_ext.specs.Sums.{sum_below};
ghost use Rattle.gate_gather.specs.LazySum.{element_of, IsBelow};
ghost use Rattle.table_parts.specs.Columns.{zeros};
ghost use Rattle.table_parts.specs.Tables.{pair_at, quadratic_at};

use crate::column::Column;
use crate::reading::{KeptTable, Reading, ZeroTable};
use field_ext::Ext;
use gate_gather::{LazySum, Operand};
use std::sync::ledger::Ledger;
use step_count::Steps;

/// A quadratic polynomial by its values at 0 and 1 and its last coefficient.
#[derive(Clone, Copy)]
struct Samples {
    at_zero: LazySum,
    at_one: LazySum,
    square: LazySum,
}

/// What one pair of each table gives.
#[inline]
fn pair<V: Operand, S: Reading, T: Reading>(
    table: &[Ext],
    scales: &S,
    shifts: &T,
    j: usize,
) -> Samples
    requires table { 2 * j + 1 < length table.now }
    requires scales { 2 * j + 1 < length (S.items scales.now) }
    requires shifts { 2 * j + 1 < length (T.items shifts.now) }
    requires values { (i : ℕ) → V.holds (slice_index_or table.now i zero_k) }
    ensures value { (e : K) → quadratic_at k_ops (element_of result.at_zero)
        (element_of result.at_one) (element_of result.square) e ≡ pair_at k_ops table.now
        (S.items scales.now) (T.items shifts.now) e j }
    ensures at_zero { IsBelow (2 ^ 35) result.at_zero }
    ensures at_one { IsBelow (2 ^ 35) result.at_one }
    ensures square { IsBelow (2 ^ 35) result.square }
{
    let table_low = table[2 * j];
    let table_high = table[2 * j + 1];
    let scale_low = scales.at(2 * j);
    let scale_high = scales.at(2 * j + 1);
    Samples {
        at_zero: V::product(table_low, scale_low).plus(shifts.at(2 * j)),
        at_one: V::product(table_high, scale_high).plus(shifts.at(2 * j + 1)),
        square: V::product(V::difference(table_high, table_low), scale_high - scale_low),
    }
}

/// The coefficients of 1, X and X² of the sum of what the first pairs give, at a step for each of them.
fn pair_sum<V: Operand, S: Reading, T: Reading, L: Ledger>(
    table: &[Ext],
    scales: &S,
    shifts: &T,
    pairs: usize,
    steps: &mut Steps<L>,
) -> [Ext; 3]
    requires few { pairs ≤ 1024 }
    requires table { 2 * pairs ≤ length table.now }
    requires scales { 2 * pairs ≤ length (S.items scales.now) }
    requires shifts { 2 * pairs ≤ length (T.items shifts.now) }
    requires values { (i : ℕ) → V.holds (slice_index_or table.now i zero_k) }
    ensures three { length result ≡ 3 }
    ensures sum { (e : K) → value_at k_ops result e ≡ sum_below k_ops pairs
        (λ j. pair_at k_ops table.now (S.items scales.now) (T.items shifts.now) e j) }
    ensures steps { steps.new ≡ steps.old + pairs }
{
    let mut at_zero = LazySum::zero();
    let mut at_one = LazySum::zero();
    let mut square = LazySum::zero();
    for j in 0..pairs {
        let samples = pair::<V, S, T>(table, scales, shifts, j);
        at_zero = at_zero.add(samples.at_zero);
        at_one = at_one.add(samples.at_one);
        square = square.add(samples.square);
        steps.tick();
    }
    through(at_zero.reduced(), at_one.reduced(), square.reduced())
}

/// The coefficients of the polynomial with these values at 0 and 1 and this last coefficient.
fn through(at_zero: Ext, at_one: Ext, square: Ext) -> [Ext; 3]
    ensures three { length result ≡ 3 }
    ensures value { (e : K) → value_at k_ops result e ≡ quadratic_at k_ops at_zero at_one square e }
{
    [at_zero, at_one - (at_zero + square), square]
}

/// The coefficients of a sum over so many pairs that give nothing, at a step for each of them.
fn no_pairs<L: Ledger>(pairs: usize, steps: &mut Steps<L>) -> [Ext; 3]
    ensures three { length result ≡ 3 }
    ensures value { (e : K) → value_at k_ops result e ≡ zero_k }
    ensures steps { steps.new ≡ steps.old + pairs }
{
    for _ in 0..pairs {
        steps.tick();
    }
    through(Ext::zero(), Ext::zero(), Ext::zero())
}

/// The same, where the third table may be zeros.
fn scaled_sum<V: Operand, S: Reading, L: Ledger>(
    table: &[Ext],
    scales: &S,
    shifts: &Column,
    pairs: usize,
    steps: &mut Steps<L>,
) -> [Ext; 3]
    requires few { pairs ≤ 1024 }
    requires table { 2 * pairs ≤ length table.now }
    requires scales { 2 * pairs ≤ length (S.items scales.now) }
    requires shifts { 2 * pairs ≤ length shifts.now.items }
    requires values { (i : ℕ) → V.holds (slice_index_or table.now i zero_k) }
    ensures three { length result ≡ 3 }
    ensures sum { (e : K) → value_at k_ops result e ≡ sum_below k_ops pairs
        (λ j. pair_at k_ops table.now (S.items scales.now) shifts.now.items e j) }
    ensures steps { steps.new ≡ steps.old + pairs }
{
    match shifts.values() {
        Some(values) => {
            let shifts = KeptTable { values };
            pair_sum::<V, S, KeptTable<'_>, L>(table, scales, &shifts, pairs, steps)
        }
        None => {
            let shifts = ZeroTable {
                count: shifts.len(),
            };
            pair_sum::<V, S, ZeroTable, L>(table, scales, &shifts, pairs, steps)
        }
    }
}

/// The same, where the second table is `count` zeros.
fn unscaled_sum<V: Operand, L: Ledger>(
    table: &[Ext],
    count: usize,
    shifts: &Column,
    pairs: usize,
    steps: &mut Steps<L>,
) -> [Ext; 3]
    requires few { pairs ≤ 1024 }
    requires table { 2 * pairs ≤ length table.now }
    requires scales { 2 * pairs ≤ count }
    requires shifts { 2 * pairs ≤ length shifts.now.items }
    requires values { (i : ℕ) → V.holds (slice_index_or table.now i zero_k) }
    ensures three { length result ≡ 3 }
    ensures sum { (e : K) → value_at k_ops result e ≡ sum_below k_ops pairs
        (λ j. pair_at k_ops table.now (zeros count) shifts.now.items e j) }
    ensures steps { steps.new ≡ steps.old + pairs }
{
    match shifts.values() {
        Some(values) => {
            let scales = ZeroTable { count };
            let shifts = KeptTable { values };
            pair_sum::<V, ZeroTable, KeptTable<'_>, L>(table, &scales, &shifts, pairs, steps)
        }
        None => no_pairs(pairs, steps),
    }
}

/// The same, where the second table and the third may be zeros.
pub(crate) fn columns_sum<V: Operand, L: Ledger>(
    table: &[Ext],
    scales: &Column,
    shifts: &Column,
    pairs: usize,
    steps: &mut Steps<L>,
) -> [Ext; 3]
    requires few { pairs ≤ 1024 }
    requires table { 2 * pairs ≤ length table.now }
    requires scales { 2 * pairs ≤ length scales.now.items }
    requires shifts { 2 * pairs ≤ length shifts.now.items }
    requires values { (i : ℕ) → V.holds (slice_index_or table.now i zero_k) }
    ensures three { length result ≡ 3 }
    ensures sum { (e : K) → value_at k_ops result e ≡ sum_below k_ops pairs
        (λ j. pair_at k_ops table.now scales.now.items shifts.now.items e j) }
    ensures steps { steps.new ≡ steps.old + pairs }
{
    match scales.values() {
        Some(values) => {
            let scales = KeptTable { values };
            scaled_sum::<V, KeptTable<'_>, L>(table, &scales, shifts, pairs, steps)
        }
        None => unscaled_sum::<V, L>(table, scales.len(), shifts, pairs, steps),
    }
}
