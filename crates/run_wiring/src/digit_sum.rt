//! The sum of a run's weights, digit by digit.

ghost use Rattle.std.specs.Prelude.{◌≡◌, ◌≤◌, ◌<◌, ◌+◌, ◌*◌, ℕ, length, max, slice_index_or};
ghost use Rattle.field_ext.specs.Field.{K, k_ops, zero_k, add_k, mul_k};
ghost use Rattle.field_ext.specs.Sums.{sum_below};
ghost use Rattle.run_wiring.specs.Entries.{AreSmall, HasDigits, carries_of, carried, weight, weighed, before_column, share};
ghost use Rattle.run_wiring.specs.Weights.{AreWeights};
ghost use Rattle.run_wiring.specs.Runs.{HasSmallSteps, IsWithin};
ghost use Rattle.run_wiring.specs.declared.carries.Carries.{Carries};

use crate::carries::Carries;
use crate::column::Column;
use crate::run::Run;
use field_ext::Ext;
use std::sync::ledger::Ledger;
use step_count::Steps;

/// One transition: a value goes on from an entry of one table to one of the next.
fn pass_on(
    next: &mut [Ext],
    value: Ext,
    from: Carries,
    digit: u32,
    column: &Column,
    weights: &[Ext],
)
    requires size { length next.old ≡ 36 }
    requires eight { length weights.now ≡ 8 }
    requires weights { AreWeights column.now weights.now }
    requires digits { HasDigits column.now }
    requires carries { AreSmall from }
    requires digit { digit ≤ 1 }
    ensures { (of : Carries → K) → weighed next.new of ≡ add_k (weighed next.old of)
        (mul_k value (mul_k (weight column.now from digit) (of (carried column.now from digit)))) }
{
    let to = column.carried(from, digit).entry();
    let place = column.weight_place(from, digit);
    next[to] = next[to] + value * weights[place];
}

/// Both transitions of an entry. Where it is 0 there is nothing to pass on.
fn pass_entry<L: Ledger>(
    next: &mut [Ext],
    value: Ext,
    entry: usize,
    column: &Column,
    weights: &[Ext],
    steps: &mut Steps<L>,
)
    requires size { length next.old ≡ 36 }
    requires entry { entry < 36 }
    requires eight { length weights.now ≡ 8 }
    requires weights { AreWeights column.now weights.now }
    requires digits { HasDigits column.now }
    ensures sums { (of : Carries → K) → weighed next.new of ≡ add_k (weighed next.old of)
        (mul_k value (before_column column.now of (carries_of entry))) }
    ensures steps { steps.new ≤ steps.old + 2 }
{
    if value.equals(Ext::zero()) {
        return;
    }
    let from = Carries::of(entry);
    pass_on(next, value, from, 0, column, weights);
    steps.tick();
    pass_on(next, value, from, 1, column, weights);
    steps.tick();
}

/// A table of zeros.
fn clear(table: &mut [Ext])
    ensures { (i : ℕ) → slice_index_or table.new i zero_k ≡ zero_k }
{
    for value in table.iter_mut() {
        *value = Ext::zero();
    }
}

/// The next table, from that of one digit less, in at most 72 steps.
fn add_column<L: Ledger>(table: &[Ext], next: &mut [Ext], column: &Column, steps: &mut Steps<L>)
    requires size { length table.now ≡ 36 }
    requires capacity { length next.old ≡ 36 }
    requires digits { HasDigits column.now }
    ensures sums { (of : Carries → K)
        → weighed next.new of ≡ weighed table.now (before_column column.now of) }
    ensures steps { steps.new ≤ steps.old + 72 }
{
    let mut weights = [Ext::zero(); 8];
    column.fill_weights(&mut weights);
    clear(next);
    for i in 0..36 {
        pass_entry(next, table[i], i, column, &weights, steps);
    }
}

/// The sum of the entries whose places are at most the greatest.
fn sum_within(table: &[Ext]) -> Ext
    requires { length table.now ≡ 36 }
    ensures { result ≡ sum_below k_ops 18 (λ i. slice_index_or table.now (18 + i) zero_k) }
{
    let mut sum = Ext::zero();
    for i in 0..18 {
        sum = sum + table[18 + i];
    }
    sum
}

/// A coordinate of a point, and 0 after the last.
fn coordinate(point: &[Ext], j: usize) -> Ext
    ensures { result ≡ slice_index_or point.now j zero_k }
{
    if j < point.len() {
        point[j]
    } else {
        Ext::zero()
    }
}

/// A run's share of the wiring polynomial of its kind at these points, in at most 72 steps a coordinate of the longest.
pub(crate) fn run_share<L: Ledger>(
    run: &Run,
    z: &[Ext],
    b: &[Ext],
    c: &[Ext],
    steps: &mut Steps<L>,
) -> Ext
    requires steps { HasSmallSteps run.now }
    requires within { IsWithin (length z.now) (length b.now) run.now }
    requires right { length c.now ≡ length b.now }
    ensures value { result ≡ share z.now b.now c.now run.now }
    ensures steps { steps.new ≤ steps.old + 72 * max (length z.now) (length b.now) }
{
    let mut table = [Ext::zero(); 36];
    let mut next = [Ext::zero(); 36];
    table[18] = Ext::one();
    let mut first = run.first;
    let mut left = run.left;
    let mut right = run.right;
    let mut last = run.count - 1;
    for j in 0..z.len().max(b.len()) {
        let column = Column {
            position: first % 2,
            left: left % 2,
            lstep: run.lstep,
            right: right % 2,
            rstep: run.rstep,
            last: last % 2,
            z: coordinate(z, j),
            b: coordinate(b, j),
            c: coordinate(c, j),
        };
        add_column(&table, &mut next, &column, steps);
        table = next;
        first /= 2;
        left /= 2;
        right /= 2;
        last /= 2;
    }
    sum_within(&table)
}
