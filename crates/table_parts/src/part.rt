//! A part of a phase's tables.

ghost use Rattle.std.specs.Prelude.{◌≡◌, ◌≤◌, ◌<◌, ◌+◌, ◌*◌, IfOk, IsTrue, [], ◌++◌, All, length, map, vec_capacity};
ghost use Rattle.field_ext.specs.Field.{K, k_ops, embed_k};
ghost use Rattle.field_ext.specs.Polynomial.{value_at};
ghost use Rattle.field_ext.specs.Sums.{sum_below};
ghost use Rattle.mle_table.specs.Shape.{AreBase};
ghost use Rattle.table_parts.specs.Tables.{pair_at};
ghost use Rattle.table_parts.specs.PartTables.{HasSize, flat_table, flat_scales, flat_shifts, folded_part, part_pairs, part_sum, summed_pairs};

use crate::column::Column;
use crate::folding::halve;
use crate::pairs::columns_sum;
use crate::parts::PART_VALUES;
use field_ext::{Ext, Fp};
use gate_gather::{Base, Whole};
use mle_table::embed_into;
use std::alloc::{AllocError, Global};
use std::marker::{Brand, Model};
use std::sync::ledger::{Blank, Ledger};
use step_count::Steps;

/// The same range of a phase's three tables, in buffers of its own, so that it can be worked by itself.
#[derive(Drop)]
pub struct Part {
    table: Vec<Ext>,
    // A part whose scales or shifts are all 0 doesn't keep them.
    scales: Column,
    shifts: Column,
    capacity: usize,
    // Whether the table's values are known to lie in the base field.
    base: bool,
}

impl Model for Part {
    ghost use Rattle.std.specs.Prelude.{◌≤◌, IsTrue, vec_capacity};
    ghost use Rattle.mle_table.specs.Shape.{AreBase};
    ghost use Rattle.table_parts.specs.PartTables.{PartTables};

    ghost Value = { PartTables };

    ghost view = { λ p. record {
      table = p.table.items;
      scales = p.scales.items;
      shifts = p.shifts.items;
      capacity = p.capacity;
    } };

    ghost invariant = { λ p. (p.capacity ≤ vec_capacity p.table)
        × (p.capacity ≤ p.scales.capacity) × (p.capacity ≤ p.shifts.capacity)
        × (IsTrue p.base → AreBase p.table.items) };
}

/// Writes numbers of the base field in place of the values of a list, as elements of K.
fn write_elements(items: &mut Vec<Ext>, values: &[Fp])
    requires { length values.now ≤ vec_capacity items.old }
    ensures items { items.new.items ≡ map embed_k values.now }
    ensures capacity { vec_capacity items.old ≤ vec_capacity items.new }
{
    let Ok(()) = items.resize(values.len(), Ext::zero()) else {
        unreachable!()
    };
    embed_into(values, items);
}

impl Part {
    /// A part of empty tables. It takes no memory.
    pub fn empty(alloc: Global) -> Part {
        Part {
            table: Vec::new(alloc),
            scales: Column::empty(alloc),
            shifts: Column::empty(alloc),
            capacity: 0,
            base: false,
        }
    }

    /// An empty part with capacity for so many values of each table.
    pub fn new(alloc: Global, capacity: usize) -> Result<Part, AllocError>
        ensures { IfOk result (λ part. part.capacity ≡ capacity) }
    {
        Ok(Part {
            table: Vec::with_capacity(alloc, capacity)?,
            scales: Column::new(alloc, capacity)?,
            shifts: Column::new(alloc, capacity)?,
            capacity,
            base: false,
        })
    }

    /// Reserves capacity for so many values of each table.
    pub(crate) fn fit(&mut self, capacity: usize) -> Result<(), AllocError>
        ensures { IfOk result (λ _. self.new.capacity ≡ capacity) }
    {
        self.clear();
        // Until all three tables have it the part has none.
        self.capacity = 0;
        self.table.reserve(capacity)?;
        self.scales.fit(capacity)?;
        self.shifts.fit(capacity)?;
        self.capacity = capacity;
        Ok(())
    }

    /// Takes all values out.
    pub(crate) fn clear(&mut self)
        ensures { self.new ≡ record {
          table = [];
          scales = [];
          shifts = [];
          capacity = self.old.capacity;
        } }
    {
        self.table.clear();
        self.scales.clear();
        self.shifts.clear();
        self.base = false;
    }

    /// How many values its first table has.
    pub fn len(&self) -> usize
        ensures { result ≡ length self.now.table }
    {
        self.table.len()
    }

    /// Its range of the table of values.
    pub fn table(&self) -> &[Ext]
        ensures { result.now ≡ self.now.table }
    {
        self.table.as_slice()
    }

    /// Writes the values of its range, of which those of the first table lie in the base field.
    pub(crate) fn write(&mut self, table: &[Fp], scales: &[Ext], shifts: &[Ext])
        requires table { length table.now ≤ self.old.capacity }
        requires scales { length scales.now ≤ self.old.capacity }
        requires shifts { length shifts.now ≤ self.old.capacity }
        ensures { self.new ≡ record {
          table = map embed_k table.now;
          scales = scales.now;
          shifts = shifts.now;
          capacity = self.old.capacity;
        } }
    {
        self.clear();
        write_elements(&mut self.table, table);
        self.scales.write(scales);
        self.shifts.write(shifts);
        self.base = true;
    }

    /// Puts the values of another part after its own.
    pub(crate) fn append(&mut self, other: &Part)
        requires table { length self.old.table + length other.now.table ≤ self.old.capacity }
        requires scales { length self.old.scales + length other.now.scales ≤ self.old.capacity }
        requires shifts { length self.old.shifts + length other.now.shifts ≤ self.old.capacity }
        ensures { self.new ≡ record {
          table = self.old.table ++ other.now.table;
          scales = self.old.scales ++ other.now.scales;
          shifts = self.old.shifts ++ other.now.shifts;
          capacity = self.old.capacity;
        } }
    {
        let Ok(()) = self.table.extend_from_slice(&other.table) else {
            unreachable!()
        };
        self.scales.append(&other.scales);
        self.shifts.append(&other.shifts);
        self.base = false;
    }

    /// Takes the values of parts of one value, one after another.
    pub(crate) fn gather(&mut self, parts: &[Part])
        requires capacity { length parts.now ≤ self.old.capacity }
        requires sizes { All (HasSize 1) parts.now }
        ensures { self.new ≡ record {
          table = flat_table parts.now;
          scales = flat_scales parts.now;
          shifts = flat_shifts parts.now;
          capacity = self.old.capacity;
        } }
    {
        self.clear();
        for part in parts {
            self.append(part);
        }
    }

    /// Binds the first coordinate to `r`, at a step for each pair of each table. A table of one value stays as it is.
    pub(crate) fn fold_counted<L: Ledger>(&mut self, r: Ext, steps: &mut Steps<L>)
        ensures folded { self.new ≡ folded_part r self.old }
        ensures steps { steps.new ≡ steps.old + part_pairs self.old }
    {
        if self.base {
            halve::<Base, L>(&mut self.table, r, steps);
        } else {
            halve::<Whole, L>(&mut self.table, r, steps);
        }
        self.scales.halve(r, steps);
        self.shifts.halve(r, steps);
        self.base = false;
    }

    /// Binds the first coordinate of the three tables to `r`, in place. A part of one value stays as it is.
    pub fn fold(&mut self, r: Ext)
        ensures { self.new ≡ folded_part r self.old }
    {
        self.fold_from::<Brand>(r, Blank::new(1));
    }

    fn fold_from<L: Ledger>(&mut self, r: Ext, blank: Blank)
        requires name { blank.name ≡ L.name }
        requires parts { blank.parts ≡ L.parts }
        requires some { 0 < L.parts }
        ensures { self.new ≡ folded_part r self.old }
    {
        let mut steps = Steps::<L>::start(blank);
        self.fold_counted(r, &mut steps);
    }

    /// The coefficients of 1, X and X² of the sum of what its pairs give. In a part whose tables don't have one even size, a value
    /// that is no half of a pair of each gives nothing, and neither do pairs past the first 1,024.
    pub fn sum(&self) -> [Ext; 3]
        ensures { result ≡ part_sum self.now }
    {
        self.sum_from::<Brand>(Blank::new(1))
    }

    fn sum_from<L: Ledger>(&self, blank: Blank) -> [Ext; 3]
        requires name { blank.name ≡ L.name }
        requires parts { blank.parts ≡ L.parts }
        requires some { 0 < L.parts }
        ensures { result ≡ part_sum self.now }
    {
        let mut steps = Steps::<L>::start(blank);
        self.sum_counted(&mut steps)
    }

    /// The same, at a step for each pair that is summed.
    pub fn sum_counted<L: Ledger>(&self, steps: &mut Steps<L>) -> [Ext; 3]
        ensures sum { result ≡ part_sum self.now }
        ensures steps { steps.new ≡ steps.old + summed_pairs self.now }
    {
        let values = self
            .table
            .len()
            .min(self.scales.len())
            .min(self.shifts.len());
        self.pair_sum(values.min(PART_VALUES) / 2, steps)
    }

    /// The coefficients of the sum of what its first pairs give, at a step for each of them.
    fn pair_sum<L: Ledger>(&self, pairs: usize, steps: &mut Steps<L>) -> [Ext; 3]
        requires few { pairs ≤ 1024 }
        requires table { 2 * pairs ≤ length self.now.table }
        requires scales { 2 * pairs ≤ length self.now.scales }
        requires shifts { 2 * pairs ≤ length self.now.shifts }
        ensures three { length result ≡ 3 }
        ensures sum { (e : K) → value_at k_ops result e ≡ sum_below k_ops pairs
            (λ j. pair_at k_ops self.now.table self.now.scales self.now.shifts e j) }
        ensures steps { steps.new ≡ steps.old + pairs }
    {
        if self.base {
            columns_sum::<Base, L>(&self.table, &self.scales, &self.shifts, pairs, steps)
        } else {
            columns_sum::<Whole, L>(&self.table, &self.scales, &self.shifts, pairs, steps)
        }
    }
}
