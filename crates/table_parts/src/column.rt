//! A table that isn't kept where it is all zeros.

ghost use Rattle.std.specs.Prelude.{◌≡◌, ◌≤◌, ◌+◌, ◌/◌, IfNone, IfOk, IfSome, [], ◌++◌, length, vec_len, vec_capacity, if◌then◌else◌, nat_lt};
ghost use Rattle.table_parts.specs.Columns.{zeros, kept_or_zeros};
ghost use Rattle.table_parts.specs.PartTables.{halved};

use crate::folding::halve;
use field_ext::Ext;
use gate_gather::{Whole, is_zero};
use std::alloc::{AllocError, Global};
use std::marker::Model;
use std::sync::ledger::Ledger;
use step_count::Steps;

/// The values of a table, or so many zeros, which aren't kept.
#[derive(Drop)]
pub(crate) struct Column {
    values: Vec<Ext>,
    // Whether the values are kept. Else there are `count` zeros.
    kept: bool,
    count: usize,
    capacity: usize,
}

impl Model for Column {
    ghost use Rattle.std.specs.Prelude.{◌≤◌, vec_capacity};
    ghost use Rattle.table_parts.specs.Columns.{ColumnValues, kept_or_zeros};

    ghost Value = { ColumnValues };

    ghost view = { λ c. record {
      items = kept_or_zeros c.kept c.values.items c.count;
      capacity = c.capacity;
    } };

    ghost invariant = { λ c. c.capacity ≤ vec_capacity c.values };
}

/// How many zeros are left of so many that are folded, at a step for each pair.
fn halve_zeros<L: Ledger>(count: usize, steps: &mut Steps<L>) -> usize
    ensures half { result ≡ (if nat_lt 1 count then count / 2 else count) }
    ensures steps { steps.new ≡ steps.old + count / 2 }
{
    for _ in 0..count / 2 {
        steps.tick();
    }
    if count > 1 { count / 2 } else { count }
}

/// Puts zeros after the values of a list that has capacity for them.
fn push_zeros(values: &mut Vec<Ext>, count: usize)
    requires { vec_len values.old + count ≤ vec_capacity values.old }
    ensures items { values.new.items ≡ values.old.items ++ zeros count }
    ensures capacity { vec_capacity values.old ≤ vec_capacity values.new }
{
    for _ in 0..count {
        let Ok(()) = values.push(Ext::zero()) else {
            unreachable!()
        };
    }
}

/// Writes so many zeros in place of the values of a list, if it doesn't keep those of its table.
fn keep_values(values: &mut Vec<Ext>, kept: bool, count: usize)
    requires { length (kept_or_zeros kept values.old.items count) ≤ vec_capacity values.old }
    ensures items { values.new.items ≡ kept_or_zeros kept values.old.items count }
    ensures capacity { vec_capacity values.old ≤ vec_capacity values.new }
{
    if !kept {
        values.clear();
        push_zeros(values, count);
    }
}

impl Column {
    /// An empty table. It takes no memory.
    pub(crate) fn empty(alloc: Global) -> Column
        ensures { result ≡ record { items = []; capacity = 0 } }
    {
        Column {
            values: Vec::new(alloc),
            kept: true,
            count: 0,
            capacity: 0,
        }
    }

    /// An empty table with capacity for so many values.
    pub(crate) fn new(alloc: Global, capacity: usize) -> Result<Column, AllocError>
        ensures { IfOk result (λ column. column ≡ record { items = []; capacity = capacity }) }
    {
        Ok(Column {
            values: Vec::with_capacity(alloc, capacity)?,
            kept: true,
            count: 0,
            capacity,
        })
    }

    /// Takes all values out, and reserves capacity for so many.
    pub(crate) fn fit(&mut self, capacity: usize) -> Result<(), AllocError>
        ensures { IfOk result (λ _. self.new ≡ record { items = []; capacity = capacity }) }
    {
        self.clear();
        self.values.reserve(capacity)?;
        self.capacity = capacity;
        Ok(())
    }

    /// Takes all values out.
    pub(crate) fn clear(&mut self)
        ensures { self.new ≡ record { items = []; capacity = self.old.capacity } }
    {
        self.values.clear();
        self.kept = true;
    }

    /// How many values there are.
    pub(crate) fn len(&self) -> usize
        ensures { result ≡ length self.now.items }
    {
        if self.kept {
            self.values.len()
        } else {
            self.count
        }
    }

    /// The values, or None where they are zeros that aren't kept.
    pub(crate) fn values(&self) -> Option<&[Ext]>
        ensures kept { IfSome result (λ values. values.now ≡ self.now.items) }
        ensures zeros { IfNone result (self.now.items ≡ zeros (length self.now.items)) }
    {
        if self.kept {
            Some(self.values.as_slice())
        } else {
            None
        }
    }

    /// Writes these values in place of those that are there. Zeros alone aren't kept.
    pub(crate) fn write(&mut self, values: &[Ext])
        requires { length values.now ≤ self.old.capacity }
        ensures { self.new ≡ record { items = values.now; capacity = self.old.capacity } }
    {
        self.values.clear();
        self.kept = true;
        if is_zero(values, 0, values.len()) {
            self.kept = false;
            self.count = values.len();
        } else {
            let Ok(()) = self.values.extend_from_slice(values) else {
                unreachable!()
            };
        }
    }

    /// Puts the values of another table after its own, and keeps them all.
    pub(crate) fn append(&mut self, other: &Column)
        requires { length self.old.items + length other.now.items ≤ self.old.capacity }
        ensures { self.new ≡ record {
          items = self.old.items ++ other.now.items;
          capacity = self.old.capacity;
        } }
    {
        keep_values(&mut self.values, self.kept, self.count);
        self.kept = true;
        other.append_to(&mut self.values);
    }

    /// Puts the values after those of a list that has capacity for them.
    fn append_to(&self, values: &mut Vec<Ext>)
        requires { vec_len values.old + length self.now.items ≤ vec_capacity values.old }
        ensures items { values.new.items ≡ values.old.items ++ self.now.items }
        ensures capacity { vec_capacity values.old ≤ vec_capacity values.new }
    {
        if self.kept {
            let Ok(()) = values.extend_from_slice(&self.values) else {
                unreachable!()
            };
        } else {
            push_zeros(values, self.count);
        }
    }

    /// Binds the first coordinate to `r`, at a step for each pair, and keeps the first half. A single value stays as it is.
    pub(crate) fn halve<L: Ledger>(&mut self, r: Ext, steps: &mut Steps<L>)
        ensures halved { self.new ≡ record {
          items = halved r self.old.items;
          capacity = self.old.capacity;
        } }
        ensures steps { steps.new ≡ steps.old + length self.old.items / 2 }
    {
        if self.kept {
            halve::<Whole, L>(&mut self.values, r, steps);
        } else {
            self.count = halve_zeros(self.count, steps);
        }
    }
}
