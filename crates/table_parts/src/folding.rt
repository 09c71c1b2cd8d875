//! Folding in place.

ghost use Rattle.std.specs.Prelude.{◌≡◌, ◌≤◌, ◌<◌, ◌+◌, ◌*◌, ◌/◌, ℕ, length, slice_index_or, vec_capacity};
ghost use Rattle.field_ext.specs.Field.{k_ops, zero_k};
ghost use Rattle.field_ext.specs.Multilinear.{folded};
ghost use Rattle.table_parts.specs.PartTables.{halved};
ghost use Rattle.table_parts.specs.Tables.{IsFolded};

use field_ext::Ext;
use gate_gather::Operand;
use std::sync::ledger::Ledger;
use step_count::Steps;

/// How many folded values are computed before they are written over the table.
const BLOCK: usize = 128;

/// Folds a table, whose values lie in the base field where V says so, and keeps the first half. One of a single value stays.
pub(crate) fn halve<V: Operand, L: Ledger>(values: &mut Vec<Ext>, r: Ext, steps: &mut Steps<L>)
    requires values { (i : ℕ) → V.holds (slice_index_or values.old.items i zero_k) }
    ensures halved { values.new.items ≡ halved r values.old.items }
    ensures capacity { vec_capacity values.new ≡ vec_capacity values.old }
    ensures steps { steps.new ≡ steps.old + length values.old.items / 2 }
{
    let half = values.len() / 2;
    if half == 0 {
        return;
    }
    fold_first::<V, L>(values, half, r, steps);
    values.truncate(half);
}

/// Binds the first coordinate of the table in the first `2 * half` values to `r`.
/// The folded table is in the first `half` values. It takes a step for each pair.
fn fold_first<V: Operand, L: Ledger>(values: &mut [Ext], half: usize, r: Ext, steps: &mut Steps<L>)
    requires pairs { 2 * half ≤ length values.old }
    requires values { (i : ℕ) → V.holds (slice_index_or values.old i zero_k) }
    ensures folded { IsFolded k_ops half values.old r values.new }
    ensures steps { steps.new ≡ steps.old + half }
{
    let mut block = [Ext::zero(); BLOCK];
    for number in 0..half / BLOCK {
        fold_block::<V, L>(values, BLOCK * number, BLOCK, r, &mut block, steps);
    }
    fold_block::<V, L>(
        values,
        half - half % BLOCK,
        half % BLOCK,
        r,
        &mut block,
        steps,
    );
}

/// Folds `count` pairs after the first `from`, by way of a buffer beside the table.
fn fold_block<V: Operand, L: Ledger>(
    values: &mut [Ext],
    from: usize,
    count: usize,
    r: Ext,
    block: &mut [Ext],
    steps: &mut Steps<L>,
)
    requires pairs { 2 * (from + count) ≤ length values.old }
    requires values { (i : ℕ) → from ≤ i → V.holds (slice_index_or values.old i zero_k) }
    requires capacity { count ≤ length block.old }
    ensures before { (i : ℕ) → i < from
        → slice_index_or values.new i zero_k ≡ slice_index_or values.old i zero_k }
    ensures within { (i : ℕ) → from ≤ i → i < from + count
        → slice_index_or values.new i zero_k ≡ slice_index_or (folded k_ops values.old r) i zero_k }
    ensures after { (i : ℕ) → from + count ≤ i
        → slice_index_or values.new i zero_k ≡ slice_index_or values.old i zero_k }
    ensures steps { steps.new ≡ steps.old + count }
{
    fold_into::<V, L>(values, from, count, r, block, steps);
    write_block(values, from, count, block);
}

/// Writes the folds of `count` pairs after the first `from` to the beginning of another buffer.
fn fold_into<V: Operand, L: Ledger>(
    values: &[Ext],
    from: usize,
    count: usize,
    r: Ext,
    block: &mut [Ext],
    steps: &mut Steps<L>,
)
    requires pairs { 2 * (from + count) ≤ length values.now }
    requires values { (i : ℕ) → from ≤ i → V.holds (slice_index_or values.now i zero_k) }
    requires capacity { count ≤ length block.old }
    ensures folds { (i : ℕ) → i < count
        → slice_index_or block.new i zero_k ≡ slice_index_or (folded k_ops values.now r) (from + i)
        zero_k }
    ensures steps { steps.new ≡ steps.old + count }
{
    for i in 0..count {
        let low = values[2 * (from + i)];
        let high = values[2 * (from + i) + 1];
        block[i] = low + V::times(r, V::difference(high, low));
        steps.tick();
    }
}

/// Writes the first `count` values of a block after the first `from` of the table.
fn write_block(values: &mut [Ext], from: usize, count: usize, block: &[Ext])
    requires table { from + count ≤ length values.old }
    requires block { count ≤ length block.now }
    ensures before { (i : ℕ) → i < from
        → slice_index_or values.new i zero_k ≡ slice_index_or values.old i zero_k }
    ensures within { (i : ℕ) → i < count
        → slice_index_or values.new (from + i) zero_k ≡ slice_index_or block.now i zero_k }
    ensures after { (i : ℕ) → from + count ≤ i
        → slice_index_or values.new i zero_k ≡ slice_index_or values.old i zero_k }
{
    for i in 0..count {
        values[from + i] = block[i];
    }
}
