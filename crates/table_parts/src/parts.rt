//! The parts of a phase's tables, all together.

ghost use Rattle.std.specs.Prelude.{◌≡◌, ◌≤◌, ◌<◌, ◌+◌, ◌-◌, ◌*◌, ◌^◌, IfOk, map, length, All};
ghost use Rattle.field_ext.specs.Field.{embed_k};
ghost use Rattle.table_parts.specs.PartTables.{HasSize, HasCapacity, cuts, folded_part, flat_table, flat_scales, flat_shifts};

use crate::part::Part;
use field_ext::{Ext, Fp};
use std::alloc::{AllocError, Global};
use std::sync::ledger::Ledger;
use step_count::Steps;

/// How many values a part has at most.
pub const PART_VALUES: usize = 2048;

const PART_EXPONENT: usize = 11;

/// How often `2^k` values are halved into parts.
pub fn cut_count(k: usize) -> usize
    ensures cuts { result ≡ cuts k }
    ensures few { result ≤ k }
{
    k.saturating_sub(PART_EXPONENT)
}

/// Gives so many parts capacity for so many values each, with parts from the spare ones where there are.
pub fn fit_parts(
    alloc: Global,
    parts: &mut Vec<Part>,
    spare: &mut Vec<Part>,
    count: usize,
    capacity: usize,
) -> Result<(), AllocError>
    ensures number { IfOk result (λ _. length parts.new.items ≡ count) }
    ensures capacities { IfOk result (λ _. All (HasCapacity capacity) parts.new.items) }
{
    for _ in count..parts.len() {
        if let Some(part) = parts.pop() {
            spare.push(part)?;
        }
    }
    for _ in parts.len()..count {
        let part = match spare.pop() {
            Some(part) => part,
            None => Part::new(alloc, capacity)?,
        };
        parts.push(part)?;
    }
    fit_each(parts, capacity)
}

/// Gives each part capacity for so many values.
fn fit_each(parts: &mut [Part], capacity: usize) -> Result<(), AllocError>
    ensures { IfOk result (λ _. All (HasCapacity capacity) parts.new) }
{
    for i in 0..parts.len() {
        parts[i].fit(capacity)?;
    }
    Ok(())
}

/// Cuts three tables into the parts, `size` values to each. The values of the first lie in the base field.
pub fn fill_parts(parts: &mut [Part], size: usize, table: &[Fp], scales: &[Ext], shifts: &[Ext])
    requires table { length table.now ≡ length parts.old * size }
    requires scales { length scales.now ≡ length parts.old * size }
    requires shifts { length shifts.now ≡ length parts.old * size }
    requires capacities { All (HasCapacity size) parts.old }
    ensures capacities { All (HasCapacity size) parts.new }
    ensures sizes { All (HasSize size) parts.new }
    ensures table { flat_table parts.new ≡ map embed_k table.now }
    ensures scales { flat_scales parts.new ≡ scales.now }
    ensures shifts { flat_shifts parts.new ≡ shifts.now }
{
    for i in 0..parts.len() {
        let (from, to) = (i * size, i * size + size);
        parts[i].write(&table[from..to], &scales[from..to], &shifts[from..to]);
    }
}

/// Folds the parts, each of `half` pairs.
pub fn fold_parts<L: Ledger>(parts: &mut [Part], half: usize, r: Ext, steps: &mut Steps<L>)
    requires { All (HasSize (2 * half)) parts.old }
    ensures folded { parts.new ≡ map (folded_part r) parts.old }
    ensures steps { steps.new ≡ steps.old + 3 * (length parts.old * half) }
{
    for i in 0..parts.len() {
        parts[i].fold_counted(r, steps);
    }
}

/// Puts the values of parts of one value into one part, one after another.
pub fn merge_parts(parts: &[Part], one: &mut [Part])
    requires some { length one.old ≡ 1 }
    requires capacity { All (HasCapacity (length parts.now)) one.old }
    requires sizes { All (HasSize 1) parts.now }
    ensures some { length one.new ≡ 1 }
    ensures capacities { All (HasCapacity (length parts.now)) one.new }
    ensures sizes { All (HasSize (length parts.now)) one.new }
    ensures table { flat_table one.new ≡ flat_table parts.now }
    ensures scales { flat_scales one.new ≡ flat_scales parts.now }
    ensures shifts { flat_shifts one.new ≡ flat_shifts parts.now }
{
    one[0].gather(parts);
}
