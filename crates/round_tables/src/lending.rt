//! Ranges of a phase's places that are lent, and come back gathered.

ghost use Rattle.std.specs.Prelude.{◌≡◌, ℕ, ◌≤◌, ◌<◌, ◌+◌, All, true, false, vec_len, vec_capacity};
ghost use Rattle.table_parts.specs.PartTables.{HasCapacity};
ghost use Rattle.round_tables.specs.Ranges.{range_of};

use crate::gate_tables::GateTables;
use crate::layer_gates::LayerGates;
use crate::room::{Room, Rooms};
use crate::share::Share;
use crate::working::Working;
use field_ext::Ext;
use std::marker::Model;
use table_parts::Part;

/// A sumcheck where a phase begins, of which ranges of places are lent, one after another.
#[derive(Drop)]
pub struct Lending<'a> {
    pub(crate) layer: LayerGates<'a>,
    pub(crate) working: Working,
    pub(crate) value: Ext,
    pub(crate) rooms: Vec<Room>,
    // How many rooms and ranges there are, how many parts a range has, and how many values a part.
    pub(crate) count: usize,
    pub(crate) number: usize,
    pub(crate) parts: usize,
    pub(crate) size: usize,
    pub(crate) lent: usize,
}

impl<'a> Model for Lending<'a> {
    ghost use Rattle.round_tables.specs.Ranges.{LendingView, IsLending, sum_of};
    ghost use Rattle.round_tables.specs.Working.{bound_of};

    ghost Value = { LendingView };

    ghost view = { λ a. record {
      sum = sum_of a.layer (bound_of a.working);
      rooms = a.count;
      number = a.number;
      parts = a.parts;
      size = a.size;
      lent = a.lent;
    } };

    ghost invariant = { λ a. IsLending a.layer a.working a.value a.rooms a.count a.number a.parts
        a.size a.lent };
}

/// The same when all ranges are lent and come back, one after another.
#[derive(Drop)]
pub struct Collecting<'a> {
    layer: LayerGates<'a>,
    working: Working,
    value: Ext,
    rooms: Vec<Room>,
    count: usize,
    number: usize,
    parts: usize,
    size: usize,
    back: usize,
}

impl<'a> Model for Collecting<'a> {
    ghost use Rattle.round_tables.specs.Ranges.{CollectingView, IsCollecting, sum_of};
    ghost use Rattle.round_tables.specs.Working.{bound_of};

    ghost Value = { CollectingView };

    ghost view = { λ a. record {
      sum = sum_of a.layer (bound_of a.working);
      rooms = a.count;
      number = a.number;
      parts = a.parts;
      size = a.size;
      back = a.back;
    } };

    ghost invariant = { λ a. IsCollecting a.layer a.working a.value a.rooms a.count a.number a.parts
        a.size a.back };
}

/// The tables of a phase, and the rooms for the next one.
#[derive(Drop)]
pub struct Gathered<'a> {
    pub tables: GateTables<'a>,
    pub rooms: Rooms,
}

/// Moves so many parts to others.
fn move_parts(from: &mut Vec<Part>, count: usize, to: &mut Vec<Part>)
    requires there { count ≤ vec_len from.old }
    requires capacity { vec_len to.old + count ≤ vec_capacity to.old }
    ensures left { vec_len from.new + count ≡ vec_len from.old }
    ensures from_capacity { vec_capacity from.new ≡ vec_capacity from.old }
    ensures moved { vec_len to.new ≡ vec_len to.old + count }
    ensures capacities { (n : ℕ) → All (HasCapacity n) from.old.items
        → All (HasCapacity n) to.old.items
        → All (HasCapacity n) from.new.items × All (HasCapacity n) to.new.items }
{
    for _ in 0..count {
        let Some(part) = from.pop() else {
            unreachable!()
        };
        let Ok(()) = to.push(part) else {
            unreachable!()
        };
    }
}

impl<'a> Lending<'a> {
    /// How many ranges there are.
    pub fn count(&self) -> usize
        ensures { result ≡ self.now.number }
    {
        self.number
    }

    /// Lends the next range. It takes no memory.
    pub fn lend(&mut self) -> Share<'a>
        requires left { self.old.lent < self.old.number }
        ensures share { result ≡ range_of self.old.sum self.old.parts self.old.size
            false self.old.lent }
        ensures lent { self.new ≡ record self.old { lent = self.old.lent + 1 } }
    {
        let Some(room) = self.rooms.pop() else {
            unreachable!()
        };
        let Room {
            first,
            second,
            bound,
            scales,
            shifts,
            mut parts,
        } = room;
        move_parts(&mut self.working.many, self.parts, &mut parts);
        let number = self.lent;
        self.lent = number + 1;
        Share {
            layer: LayerGates {
                k: self.layer.k,
                gates: self.layer.gates,
                values: self.layer.values,
                first,
                second,
                weight: self.layer.weight,
                both: self.layer.both,
            },
            bound,
            value: self.value,
            from: number * (self.parts * self.size),
            size: self.size,
            scales,
            shifts,
            parts,
            done: false,
        }
    }

    /// Begins to take the ranges back, all of which are lent.
    pub fn collect(self) -> Collecting<'a>
        requires all { self.lent ≡ self.number }
        ensures { result ≡ record {
          sum = self.entry.sum;
          rooms = self.entry.rooms;
          number = self.entry.number;
          parts = self.entry.parts;
          size = self.entry.size;
          back = 0;
        } }
    {
        let Lending {
            layer,
            working,
            value,
            rooms,
            count,
            number,
            parts,
            size,
            lent: _,
        } = self;
        Collecting {
            layer,
            working,
            value,
            rooms,
            count,
            number,
            parts,
            size,
            back: 0,
        }
    }
}

impl<'a> Collecting<'a> {
    /// How many ranges there are.
    pub fn count(&self) -> usize
        ensures { result ≡ self.now.number }
    {
        self.number
    }

    /// Takes the next range back, once it is gathered. It takes no memory.
    pub fn take_back(&mut self, share: Share<'a>)
        requires left { self.old.back < self.old.number }
        requires share { share ≡ range_of self.old.sum self.old.parts self.old.size
            true self.old.back }
        ensures { self.new ≡ record self.old { back = self.old.back + 1 } }
    {
        let Share {
            layer: LayerGates { first, second, .. },
            bound,
            scales,
            shifts,
            mut parts,
            ..
        } = share;
        let Ok(()) = self.working.many.append(&mut parts) else {
            unreachable!()
        };
        let Ok(()) = self.rooms.push(Room {
            first,
            second,
            bound,
            scales,
            shifts,
            parts,
        })
        else {
            unreachable!()
        };
        self.back += 1;
    }

    /// The tables, once all ranges are back.
    pub fn gathered(self) -> Gathered<'a>
        requires all { self.back ≡ self.number }
        ensures tables { result.tables ≡ self.entry.sum }
        ensures rooms { result.rooms ≡ self.entry.rooms }
    {
        let Collecting {
            layer,
            mut working,
            rooms,
            ..
        } = self;
        working.merged = false;
        Gathered {
            tables: GateTables {
                layer,
                working,
                lent: None,
            },
            rooms: Rooms { rooms },
        }
    }
}
