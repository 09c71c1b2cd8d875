//! A range of the places of a phase, which is gathered by itself.

ghost use Rattle.std.specs.Prelude.{◌≡◌, ◌<◌};
ghost use Rattle.round_tables.specs.Ranges.{gathered_range};

use crate::layer_gates::LayerGates;
use crate::working::gather;
use field_ext::Ext;
use std::marker::{Brand, Model};
use std::sync::ledger::{Blank, Ledger};
use step_count::Steps;
use table_parts::{Part, fill_parts};

/// A range of the places of a phase that begins, with the parts of the phase's tables there.
#[derive(Drop)]
pub struct Share<'a> {
    pub(crate) layer: LayerGates<'a>,
    pub(crate) bound: Vec<Ext>,
    pub(crate) value: Ext,
    pub(crate) from: usize,
    pub(crate) size: usize,
    pub(crate) scales: Vec<Ext>,
    pub(crate) shifts: Vec<Ext>,
    pub(crate) parts: Vec<Part>,
    pub(crate) done: bool,
}

impl<'a> Model for Share<'a> {
    ghost use Rattle.std.specs.Prelude.{length};
    ghost use Rattle.round_tables.specs.Ranges.{RangeView, IsShare, sum_of};

    ghost Value = { RangeView };

    ghost view = { λ s. record {
      sum = sum_of s.layer s.bound.items;
      from = s.from;
      parts = length s.parts.items;
      size = s.size;
      done = s.done;
    } };

    ghost invariant = { λ s. IsShare s.layer s.bound.items s.value s.from s.size s.scales s.shifts
        s.parts.items s.done };
}

impl<'a> Share<'a> {
    /// Gathers what the gates of the layer give to the places of the range, and writes the parts there. It takes no memory.
    pub fn gather(&mut self)
        ensures { self.new ≡ gathered_range self.old }
    {
        self.gather_from::<Brand>(Blank::new(1));
    }

    fn gather_from<L: Ledger>(&mut self, blank: Blank)
        requires name { blank.name ≡ L.name }
        requires parts { blank.parts ≡ L.parts }
        requires some { 0 < L.parts }
        ensures { self.new ≡ gathered_range self.old }
    {
        let mut steps = Steps::<L>::start(blank);
        gather(
            &self.layer,
            &self.bound,
            self.value,
            self.from,
            &mut self.scales,
            &mut self.shifts,
            &mut steps,
        );
        let to = self.from + self.scales.len();
        fill_parts(
            &mut self.parts,
            self.size,
            &self.layer.values.values()[self.from..to],
            &self.scales,
            &self.shifts,
        );
        self.done = true;
    }
}
