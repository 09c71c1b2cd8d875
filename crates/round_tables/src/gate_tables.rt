//! The public face of a layer's working tables.

ghost use Rattle.std.specs.Prelude.{◌≡◌, ◌<◌, ◌≤◌, ◌+◌, ◌^◌, ◌↔◌, All, IfOk, IsTrue, [], ◌∷◌, ◌++◌, length, map};
ghost use Rattle.field_ext.specs.Field.{K, k_ops};
ghost use Rattle.circuit_core.specs.Parts.{IsOver, height};
ghost use Rattle.circuit_core.specs.Sound.{exponent_at};
ghost use Rattle.circuit_eval.specs.Tables.{FitLayers};
ghost use Rattle.gkr_layers.specs.Places.Place.{At, AtBoth};
ghost use Rattle.gkr_layers.specs.ClaimPlace as claim_place;
ghost use Rattle.round_tables.specs.Phase.{IsLayer};
ghost use Rattle.field_ext.specs.Polynomial.{coefficients};
ghost use Rattle.round_tables.specs.LayerSum.{sum_of_layer, pairs_of, pieces_of, piece_pairs, piece_poly, bind_steps, StaysInParts, SumToPieces};
ghost use Rattle.table_parts.specs.PartTables.{folded_part};

use crate::buffers::{Buffers, TooSmallBuffers};
use crate::layer_gates::LayerGates;
use crate::open::OpenTables;
use crate::working::{Working, pair_count};
use circuit_core::{Circuit, CircuitGate};
use circuit_eval::Values;
use field_ext::Ext;
use gkr_layers::ClaimPlace;
use mle_table::BaseTable;
use std::alloc::{AllocError, Global};
use std::marker::{Brand, Model};
use std::snapshot::Snapshot;
use std::sync::ledger::{Blank, Ledger};
use step_count::Steps;
use table_parts::Part;

/// The sumcheck of a layer, with some of its challenges bound. Its tables are in parts, which can be lent.
#[derive(Drop)]
pub struct GateTables<'a> {
    pub(crate) layer: LayerGates<'a>,
    pub(crate) working: Working,
    // The tables as they were when their parts were lent.
    pub(crate) lent: Option<Snapshot<Working>>,
}

impl<'a> Model for GateTables<'a> {
    ghost use Rattle.round_tables.specs.LayerSum.{LayerSum};
    ghost use Rattle.round_tables.specs.Working.{IsLayerGates, WorksOrLent, bound_of, place_of, lent_parts};

    ghost Value = { LayerSum };

    ghost view = { λ a. record {
      k = a.layer.k;
      gates = a.layer.gates.now;
      values = a.layer.values.now.items;
      place = place_of a.layer;
      bound = bound_of a.working;
      lent = lent_parts a.lent;
    } };

    ghost invariant = { λ a. IsLayerGates a.layer × WorksOrLent a.layer a.working a.lent };
}

impl<'a> GateTables<'a> {
    /// The sumcheck of a layer of a circuit over values of its layers, at a point of the layer, of which a copy is kept, with no
    /// challenge bound. Err only where no memory is found; no later call takes any.
    pub fn start(
        alloc: Global,
        circuit: &'a Circuit,
        layer: u32,
        values: &'a Values,
        point: &[Ext],
    ) -> Result<GateTables<'a>, AllocError>
        requires layer { layer < height circuit.now.parts }
        requires values { FitLayers circuit.now.parts values.now }
        requires position { length point.now ≡ exponent_at circuit.now.parts layer }
        ensures { IfOk result
            (λ sum. sum ≡ sum_of_layer circuit.now.parts values.now layer (At point.now)) }
    {
        let gates = circuit.gates(layer as usize);
        let table = values.table(layer as usize + 1);
        let buffers = Buffers::new(alloc, gates.len(), 1 << table.k())?;
        Ok(GateTables::start_in(buffers, gates, table, point)?)
    }

    /// The sumcheck of a layer of gates over the table of the layer below, at a point of the layer, in buffers that are there. Err
    /// only where they are too small and no memory is found, and then they are handed back.
    pub fn start_in(
        buffers: Buffers,
        gates: &'a [CircuitGate],
        values: &'a BaseTable,
        point: &[Ext],
    ) -> Result<GateTables<'a>, TooSmallBuffers>
        requires least { 1 ≤ values.now.k }
        requires most { values.now.k ≤ 20 }
        requires width { length gates.now ≡ 2 ^ length point.now }
        requires operands { All (IsOver (2 ^ values.now.k)) gates.now }
        ensures k { IfOk result (λ sum. sum.k ≡ values.now.k) }
        ensures gates { IfOk result (λ sum. sum.gates ≡ gates.now) }
        ensures values { IfOk result (λ sum. sum.values ≡ values.now.items) }
        ensures place { IfOk result (λ sum. sum.place ≡ At point.now) }
        ensures bound { IfOk result (λ sum. (sum.bound ≡ []) × (sum.lent ≡ [])) }
    {
        Ok(OpenTables::start_in(buffers, gates, values, point)?.gathered())
    }

    /// The sumcheck of a layer of a circuit whose claim is at two points, the first with weight 1 and the second with
    /// the weight given. Err only where no memory is found; no later call takes any.
    pub fn start_two(
        alloc: Global,
        circuit: &'a Circuit,
        layer: u32,
        values: &'a Values,
        first: &[Ext],
        second: &[Ext],
        weight: Ext,
    ) -> Result<GateTables<'a>, AllocError>
        requires layer { layer < height circuit.now.parts }
        requires values { FitLayers circuit.now.parts values.now }
        requires first { length first.now ≡ exponent_at circuit.now.parts layer }
        requires second { length second.now ≡ exponent_at circuit.now.parts layer }
        ensures { IfOk result (λ sum. sum ≡ sum_of_layer circuit.now.parts values.now layer
            (AtBoth first.now second.now weight)) }
    {
        let gates = circuit.gates(layer as usize);
        let table = values.table(layer as usize + 1);
        let buffers = Buffers::new(alloc, gates.len(), 1 << table.k())?;
        Ok(GateTables::start_two_in(buffers, gates, table, first, second, weight)?)
    }

    /// The same sumcheck, of a layer of gates over the table of the layer below, in buffers that are there. Err only where they
    /// are too small and no memory is found, and then they are handed back.
    pub fn start_two_in(
        buffers: Buffers,
        gates: &'a [CircuitGate],
        values: &'a BaseTable,
        first: &[Ext],
        second: &[Ext],
        weight: Ext,
    ) -> Result<GateTables<'a>, TooSmallBuffers>
        requires least { 1 ≤ values.now.k }
        requires most { values.now.k ≤ 20 }
        requires few { length second.now ≤ 20 }
        requires same { length first.now ≡ length second.now }
        requires width { length gates.now ≡ 2 ^ length second.now }
        requires operands { All (IsOver (2 ^ values.now.k)) gates.now }
        ensures k { IfOk result (λ sum. sum.k ≡ values.now.k) }
        ensures gates { IfOk result (λ sum. sum.gates ≡ gates.now) }
        ensures values { IfOk result (λ sum. sum.values ≡ values.now.items) }
        ensures place { IfOk result (λ sum. sum.place ≡ AtBoth first.now second.now weight) }
        ensures bound { IfOk result (λ sum. (sum.bound ≡ []) × (sum.lent ≡ [])) }
    {
        Ok(OpenTables::start_two_in(buffers, gates, values, first, second, weight)?.gathered())
    }

    /// The sumcheck of a layer of at most 1,048,576 gates in buffers that are there, wherever the claim is. Err only where they
    /// aren't enough and no memory is found.
    pub fn start_at(
        buffers: Buffers,
        gates: &'a [CircuitGate],
        values: &'a BaseTable,
        place: &ClaimPlace<'_>,
    ) -> Result<GateTables<'a>, TooSmallBuffers>
        requires layer { IsLayer K values.now.k gates.now values.now.items
            (claim_place.place_of place.now) }
        requires few { length gates.now ≤ 1048576 }
        ensures k { IfOk result (λ sum. sum.k ≡ values.now.k) }
        ensures gates { IfOk result (λ sum. sum.gates ≡ gates.now) }
        ensures values { IfOk result (λ sum. sum.values ≡ values.now.items) }
        ensures place { IfOk result (λ sum. sum.place ≡ claim_place.place_of place.now) }
        ensures bound { IfOk result (λ sum. (sum.bound ≡ []) × (sum.lent ≡ [])) }
    {
        Ok(OpenTables::start_at(buffers, gates, values, place)?.gathered())
    }

    /// The buffers, for another layer.
    pub fn into_buffers(self) -> Buffers
        requires { self.lent ≡ [] }
    {
        let GateTables { layer, working, .. } = self;
        let LayerGates { first, second, .. } = layer;
        Buffers {
            first,
            second,
            working,
        }
    }

    /// How many challenges are still to be bound.
    pub fn rounds_left(&self) -> usize
        requires { self.now.lent ≡ [] }
        ensures { result + length self.now.bound ≡ self.now.k + self.now.k }
    {
        2 * self.layer.k - self.working.count
    }

    /// Whether no challenge is bound yet.
    pub fn is_fresh(&self) -> bool
        requires { self.now.lent ≡ [] }
        ensures { IsTrue result ↔ (length self.now.bound ≡ 0) }
    {
        self.rounds_left() == 2 * self.layer.k
    }

    /// Whether the next challenge is the last of the first phase.
    pub fn ends_first(&self) -> bool
        requires { self.now.lent ≡ [] }
        ensures { IsTrue result ↔ (length self.now.bound + 1 ≡ self.now.k) }
    {
        self.working.count + 1 == self.layer.k
    }

    /// How many pieces the next round has: the parts of the tables, each of at least one pair.
    pub fn pieces(&self) -> usize
        requires here { self.now.lent ≡ [] }
        requires left { length self.now.bound < self.now.k + self.now.k }
        ensures { result ≡ pieces_of self.now }
    {
        self.working.parts().len()
    }

    /// How many pairs of each table the next round has, over all pieces.
    pub fn pairs(&self) -> usize
        requires here { self.now.lent ≡ [] }
        requires left { length self.now.bound < self.now.k + self.now.k }
        ensures { result ≡ pairs_of self.now }
    {
        pair_count(self.layer.k, self.working.count)
    }

    /// The coefficients of 1, X and X² of a piece of the next round, at one step for each pair.
    pub fn piece_sum_counted<L: Ledger>(&self, piece: usize, steps: &mut Steps<L>) -> [Ext; 3]
        requires here { self.now.lent ≡ [] }
        requires left { length self.now.bound < self.now.k + self.now.k }
        requires piece { piece < pieces_of self.now }
        ensures sum { result ≡ coefficients k_ops 3 (piece_poly self.now piece) }
        ensures steps { steps.new ≡ steps.old + piece_pairs self.now }
    {
        self.working.part_sum(&self.layer, piece, steps)
    }

    /// The coefficients of 1, X and X² of a piece of the next round.
    pub fn piece_sum(&self, piece: usize) -> [Ext; 3]
        requires here { self.now.lent ≡ [] }
        requires left { length self.now.bound < self.now.k + self.now.k }
        requires piece { piece < pieces_of self.now }
        ensures { result ≡ coefficients k_ops 3 (piece_poly self.now piece) }
    {
        self.piece_sum_from::<Brand>(piece, Blank::new(1))
    }

    fn piece_sum_from<L: Ledger>(&self, piece: usize, blank: Blank) -> [Ext; 3]
        requires here { self.now.lent ≡ [] }
        requires left { length self.now.bound < self.now.k + self.now.k }
        requires piece { piece < pieces_of self.now }
        requires name { blank.name ≡ L.name }
        requires parts { blank.parts ≡ L.parts }
        requires some { 0 < L.parts }
        ensures { result ≡ coefficients k_ops 3 (piece_poly self.now piece) }
    {
        let mut steps = Steps::<L>::start(blank);
        self.piece_sum_counted(piece, &mut steps)
    }

    /// Binds the next coordinate to the challenge `r`, at three steps for each pair of the round,
    /// and one for each gate where the second phase begins.
    pub fn bind_counted<L: Ledger>(&mut self, r: Ext, steps: &mut Steps<L>)
        requires here { self.old.lent ≡ [] }
        requires left { length self.old.bound < self.old.k + self.old.k }
        ensures bound { self.new ≡ record self.old { bound = self.old.bound ++ r ∷ [] } }
        ensures steps { steps.new ≡ steps.old + bind_steps self.old }
    {
        self.working.bind(&self.layer, r, steps);
    }

    /// Binds the next coordinate to the challenge `r`.
    pub fn bind(&mut self, r: Ext)
        requires here { self.old.lent ≡ [] }
        requires left { length self.old.bound < self.old.k + self.old.k }
        ensures { self.new ≡ record self.old { bound = self.old.bound ++ r ∷ [] } }
    {
        self.bind_from::<Brand>(r, Blank::new(1));
    }

    fn bind_from<L: Ledger>(&mut self, r: Ext, blank: Blank)
        requires here { self.old.lent ≡ [] }
        requires left { length self.old.bound < self.old.k + self.old.k }
        requires name { blank.name ≡ L.name }
        requires parts { blank.parts ≡ L.parts }
        requires some { 0 < L.parts }
        ensures { self.new ≡ record self.old { bound = self.old.bound ++ r ∷ [] } }
    {
        let mut steps = Steps::<L>::start(blank);
        self.bind_counted(r, &mut steps);
    }

    /// Binds the last coordinate of the first phase to the challenge `r`, and leaves the second phase to be gathered.
    pub fn bind_open(self, r: Ext) -> OpenTables<'a>
        requires here { self.lent ≡ [] }
        requires last { length self.bound + 1 ≡ self.k }
        ensures { result ≡ record self.entry { bound = self.entry.bound ++ r ∷ [] } }
    {
        self.bind_open_from::<Brand>(r, Blank::new(1))
    }

    fn bind_open_from<L: Ledger>(self, r: Ext, blank: Blank) -> OpenTables<'a>
        requires here { self.lent ≡ [] }
        requires last { length self.bound + 1 ≡ self.k }
        requires name { blank.name ≡ L.name }
        requires parts { blank.parts ≡ L.parts }
        requires some { 0 < L.parts }
        ensures { result ≡ record self.entry { bound = self.entry.bound ++ r ∷ [] } }
    {
        let mut steps = Steps::<L>::start(blank);
        let GateTables {
            layer,
            mut working,
            lent: _,
        } = self;
        let value = working.bind_last(&layer, r, &mut steps);
        OpenTables {
            layer,
            working,
            value,
        }
    }

    /// Whether the parts of the tables are lent.
    pub fn lent(&self) -> bool
        ensures { IsTrue result ↔ (0 < length self.now.lent) }
    {
        self.lent.is_some()
    }

    /// Whether the parts of the tables stay its parts when the next challenge is bound.
    pub fn stays_in_parts(&self) -> bool
        requires here { self.now.lent ≡ [] }
        requires left { length self.now.bound < self.now.k + self.now.k }
        ensures stays { IsTrue result → StaysInParts self.now }
        ensures always { StaysInParts self.now → IsTrue result }
        ensures left { IsTrue result → length self.now.bound + 1 < self.now.k + self.now.k }
    {
        !self.ends_first() && self.pairs() > self.pieces()
    }

    /// Lends the parts of the tables, which are as many as the next round has pieces, at most 512. Each sums to its piece.
    pub fn parts_out(&mut self) -> Vec<Part>
        requires here { self.old.lent ≡ [] }
        requires left { length self.old.bound < self.old.k + self.old.k }
        ensures lent { self.new ≡ record self.old { lent = result.items } }
        ensures number { length result.items ≡ pieces_of self.old }
        ensures few { length result.items ≤ 512 }
        ensures sums { SumToPieces self.old result.items }
    {
        self.lent = Some(Snapshot::of(&self.working));
        self.working.lend()
    }

    /// Takes the parts back, each as it was lent with its first coordinate bound to `r`, and so binds the next coordinate. Where they
    /// stay the parts of the tables, each sums to its piece of the next round.
    pub fn parts_in(&mut self, parts: Vec<Part>, r: Ext)
        requires some { 0 < length self.old.lent }
        requires left { length self.old.bound < self.old.k + self.old.k }
        requires folded { parts.items ≡ map (folded_part r) self.old.lent }
        ensures bound { self.new ≡ record self.old { bound = self.old.bound ++ r ∷ []; lent = [] } }
        ensures number { StaysInParts self.old → length parts.items ≡ pieces_of self.new }
        ensures sums { StaysInParts self.old → SumToPieces self.new parts.items }
    {
        self.parts_in_from::<Brand>(parts, r, Blank::new(1));
    }

    fn parts_in_from<L: Ledger>(&mut self, parts: Vec<Part>, r: Ext, blank: Blank)
        requires lent { 0 < length self.old.lent }
        requires left { length self.old.bound < self.old.k + self.old.k }
        requires folded { parts.items ≡ map (folded_part r) self.old.lent }
        requires name { blank.name ≡ L.name }
        requires parts { blank.parts ≡ L.parts }
        requires some { 0 < L.parts }
        ensures bound { self.new ≡ record self.old { bound = self.old.bound ++ r ∷ []; lent = [] } }
        ensures number { StaysInParts self.old → length parts.items ≡ pieces_of self.new }
        ensures sums { StaysInParts self.old → SumToPieces self.new parts.items }
    {
        let mut steps = Steps::<L>::start(blank);
        let Some(old) = self.lent.take() else {
            unreachable!()
        };
        self.working.take_back(parts);
        self.working.close_round(&self.layer, old, r, &mut steps);
    }

    /// Takes the parts back as they were lent.
    pub fn parts_back(&mut self, parts: Vec<Part>)
        requires some { 0 < length self.old.lent }
        requires same { parts.items ≡ self.old.lent }
        ensures { self.new ≡ record self.old { lent = [] } }
    {
        self.lent = None;
        self.working.take_back(parts);
    }
}
