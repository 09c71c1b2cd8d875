//! A layer's sumcheck where a phase begins.

ghost use Rattle.std.specs.Prelude.{◌≡◌, ◌≤◌, ◌<◌, ◌^◌, [], All, IfErr, IfOk, length};
ghost use Rattle.field_ext.specs.Field.{K};
ghost use Rattle.circuit_core.specs.Parts.{IsOver};
ghost use Rattle.gkr_layers.specs.Places.Place.{At, AtBoth};
ghost use Rattle.gkr_layers.specs.ClaimPlace as claim_place;
ghost use Rattle.round_tables.specs.Phase.{IsLayer};

use crate::buffers::{Buffers, TooSmallBuffers};
use crate::gate_tables::GateTables;
use crate::layer_gates::{LayerGates, power};
use crate::lending::Lending;
use crate::room::{Rooms, prepare_each};
use crate::working::Working;
use circuit_core::CircuitGate;
use field_ext::Ext;
use gkr_layers::ClaimPlace;
use mle_table::BaseTable;
use std::marker::{Brand, Model};
use std::sync::ledger::{Blank, Ledger};
use step_count::Steps;
use table_parts::cut_count;

/// The sumcheck of a layer where a phase begins whose gates aren't gathered yet. They are gathered by the calling thread, or in
/// ranges of places that are lent.
#[derive(Drop)]
pub struct OpenTables<'a> {
    pub(crate) layer: LayerGates<'a>,
    pub(crate) working: Working,
    // The left operand's value, where it is bound.
    pub(crate) value: Ext,
}

impl<'a> Model for OpenTables<'a> {
    ghost use Rattle.std.specs.Prelude.{[]};
    ghost use Rattle.round_tables.specs.LayerSum.{LayerSum};
    ghost use Rattle.round_tables.specs.Working.{IsLayerGates, Begins, bound_of, place_of};

    ghost Value = { LayerSum };

    ghost view = { λ a. record {
      k = a.layer.k;
      gates = a.layer.gates.now;
      values = a.layer.values.now.items;
      place = place_of a.layer;
      bound = bound_of a.working;
      lent = [];
    } };

    ghost invariant = { λ a. IsLayerGates a.layer × Begins a.layer a.working a.value };
}

/// The tables and the rooms as they were, since ranges can't be lent.
#[derive(Drop)]
pub struct Unlent<'a> {
    pub tables: OpenTables<'a>,
    pub rooms: Rooms,
}

impl<'a> OpenTables<'a> {
    /// The sumcheck of a layer of gates over the table of the layer below, at a point of the layer, as [`GateTables::start_in`] has it.
    pub(crate) fn start_in(
        buffers: Buffers,
        gates: &'a [CircuitGate],
        values: &'a BaseTable,
        point: &[Ext],
    ) -> Result<OpenTables<'a>, TooSmallBuffers>
        requires least { 1 ≤ values.now.k }
        requires most { values.now.k ≤ 20 }
        requires width { length gates.now ≡ 2 ^ length point.now }
        requires operands { All (IsOver (2 ^ values.now.k)) gates.now }
        ensures k { IfOk result (λ sum. sum.k ≡ values.now.k) }
        ensures gates { IfOk result (λ sum. sum.gates ≡ gates.now) }
        ensures values { IfOk result (λ sum. sum.values ≡ values.now.items) }
        ensures place { IfOk result (λ sum. sum.place ≡ At point.now) }
        ensures bound { IfOk result (λ sum. (sum.bound ≡ []) × (sum.lent ≡ [])) }
    {
        let Buffers {
            first,
            second,
            working,
        } = buffers.fitted(gates.len(), values.k() as usize, point, point)?;
        let layer = LayerGates::new(gates, values, first, second);
        Ok(OpenTables {
            layer,
            working: working.unbound(),
            value: Ext::zero(),
        })
    }

    /// The same at two points, as [`GateTables::start_two_in`] has it.
    pub(crate) fn start_two_in(
        buffers: Buffers,
        gates: &'a [CircuitGate],
        values: &'a BaseTable,
        first: &[Ext],
        second: &[Ext],
        weight: Ext,
    ) -> Result<OpenTables<'a>, TooSmallBuffers>
        requires least { 1 ≤ values.now.k }
        requires most { values.now.k ≤ 20 }
        requires few { length second.now ≤ 20 }
        requires same { length first.now ≡ length second.now }
        requires width { length gates.now ≡ 2 ^ length second.now }
        requires operands { All (IsOver (2 ^ values.now.k)) gates.now }
        ensures k { IfOk result (λ sum. sum.k ≡ values.now.k) }
        ensures gates { IfOk result (λ sum. sum.gates ≡ gates.now) }
        ensures values { IfOk result (λ sum. sum.values ≡ values.now.items) }
        ensures place { IfOk result (λ sum. sum.place ≡ AtBoth first.now second.now weight) }
        ensures bound { IfOk result (λ sum. (sum.bound ≡ []) × (sum.lent ≡ [])) }
    {
        let Buffers {
            first,
            second,
            working,
        } = buffers.fitted(gates.len(), values.k() as usize, first, second)?;
        let layer = LayerGates::new_two(gates, values, first, second, weight);
        Ok(OpenTables {
            layer,
            working: working.unbound(),
            value: Ext::zero(),
        })
    }

    /// The sumcheck of a layer of at most 1,048,576 gates in buffers that are there, wherever the claim is. Err only where they
    /// aren't enough and no memory is found.
    pub fn start_at(
        buffers: Buffers,
        gates: &'a [CircuitGate],
        values: &'a BaseTable,
        place: &ClaimPlace<'_>,
    ) -> Result<OpenTables<'a>, TooSmallBuffers>
        requires layer { IsLayer K values.now.k gates.now values.now.items
            (claim_place.place_of place.now) }
        requires few { length gates.now ≤ 1048576 }
        ensures k { IfOk result (λ sum. sum.k ≡ values.now.k) }
        ensures gates { IfOk result (λ sum. sum.gates ≡ gates.now) }
        ensures values { IfOk result (λ sum. sum.values ≡ values.now.items) }
        ensures place { IfOk result (λ sum. sum.place ≡ claim_place.place_of place.now) }
        ensures bound { IfOk result (λ sum. (sum.bound ≡ []) × (sum.lent ≡ [])) }
    {
        match *place {
            ClaimPlace::One(point) => OpenTables::start_in(buffers, gates, values, point),
            ClaimPlace::Both(first, second, weight) => {
                OpenTables::start_two_in(buffers, gates, values, first, second, weight)
            }
        }
    }

    /// The tables of the phase, gathered by the calling thread.
    pub fn gathered(self) -> GateTables<'a>
        ensures { result ≡ self.entry }
    {
        self.gathered_from::<Brand>(Blank::new(1))
    }

    fn gathered_from<L: Ledger>(self, blank: Blank) -> GateTables<'a>
        requires name { blank.name ≡ L.name }
        requires parts { blank.parts ≡ L.parts }
        requires some { 0 < L.parts }
        ensures { result ≡ self.entry }
    {
        let mut steps = Steps::<L>::start(blank);
        let OpenTables {
            layer,
            mut working,
            value,
        } = self;
        working.gather(&layer, value, &mut steps);
        GateTables {
            layer,
            working,
            lent: None,
        }
    }

    /// Begins to lend as many ranges as there are rooms, or as there are parts of the tables, if they are fewer. Err where that is one, or
    /// doesn't divide the parts, or the rooms are too small and no memory is found.
    pub fn lend(self, rooms: Rooms) -> Result<Lending<'a>, Unlent<'a>>
        ensures sum { IfOk result (λ lending. lending.sum ≡ self.entry) }
        ensures count { IfOk result (λ lending. lending.rooms ≡ rooms) }
        ensures number { IfOk result (λ lending. lending.number ≤ rooms) }
        ensures none { IfOk result (λ lending. lending.lent ≡ 0) }
        ensures tables { IfErr result (λ back. back.tables ≡ self.entry) }
        ensures rooms { IfErr result (λ back. back.rooms ≡ rooms) }
    {
        let OpenTables {
            layer,
            working,
            value,
        } = self;
        let Rooms { mut rooms } = rooms;
        let count = rooms.len();
        let whole = working.many.len();
        let number = whole.min(count);
        if number > 1 && whole % number == 0 {
            let parts = whole / number;
            let size = power(layer.k - cut_count(layer.k));
            let (bound, _) = working.challenges.as_slice().split_at(working.count);
            if let Ok(()) = prepare_each(&mut rooms, &layer, bound, parts, parts * size) {
                return Ok(Lending {
                    layer,
                    working,
                    value,
                    rooms,
                    count,
                    number,
                    parts,
                    size,
                    lent: 0,
                });
            }
        }
        Err(Unlent {
            tables: OpenTables {
                layer,
                working,
                value,
            },
            rooms: Rooms { rooms },
        })
    }
}
