//! The working tables of a layer's sumcheck.

ghost use Rattle.std.specs.Prelude.{◌≡◌, ◌≢◌, ℕ, ◌≤◌, ◌<◌, ◌+◌, ◌-◌, ◌*◌, ◌^◌, IfOk, IsTrue, false, [], ◌∷◌, ◌++◌, All, length, map, if◌then◌else◌, ◌==◌, slice_index_or};
ghost use Rattle.field_ext.specs.Field.{K, k_ops, zero_k, embed_k};
ghost use Rattle.field_ext.specs.Multilinear.{eq_poly};
ghost use Rattle.gate_gather.specs.Gathering.{GathersLeft, GathersRight};
ghost use Rattle.table_parts.specs.PartTables.{PartTables, HasSize, flat_table, flat_scales, flat_shifts, AreLaidOut};
ghost use Rattle.field_ext.specs.Polynomial.{coefficients};
ghost use Rattle.round_tables.specs.LayerSum.{left_in_phase, half_size, part_of_round};
ghost use Rattle.round_tables.specs.Working.{place_of, weights_of, parts_of, IsLayerGates, HasCapacities, AreSameCapacities, AreFolded, IsAdvanced, IsBeginning, GathersPhase, Begins, WorksFor, bound_of};

use crate::layer_gates::{LayerGates, power};
use field_ext::{Ext, Fp};
use gate_gather::{EqualityAt, gather_left, gather_right};
use std::alloc::{AllocError, Global};
use std::mem::replace;
use std::snapshot::Snapshot;
use std::sync::ledger::Ledger;
use step_count::Steps;
use table_parts::{PART_VALUES, Part, cut_count, fill_parts, fit_parts, fold_parts, merge_parts};

/// The buffers of both phases, and the challenges bound so far. The gates of a phase are gathered into `scales` and `shifts`, and
/// its tables then are in `many` parts until each has one value, and from then on in `one`.
#[derive(Drop)]
pub(crate) struct Working {
    pub(crate) alloc: Global,
    pub(crate) challenges: Vec<Ext>,
    pub(crate) count: usize,
    pub(crate) scales: Vec<Ext>,
    pub(crate) shifts: Vec<Ext>,
    pub(crate) many: Vec<Part>,
    pub(crate) one: Vec<Part>,
    pub(crate) merged: bool,
    // Parts that a narrower layer has no use for.
    pub(crate) spare: Vec<Part>,
}

/// How many pairs a table has once `count` of the `2k` challenges are bound.
pub(crate) fn pair_count(k: usize, count: usize) -> usize
    requires small { k ≤ 20 }
    requires left { count < k + k }
    ensures { result ≡ 2 ^ (left_in_phase k count - 1) }
{
    let left = if count < k { k - count } else { 2 * k - count };
    power(left - 1)
}

/// The tables of the first phase, of the places from `from` on, over these values of the layer.
fn gather_first(
    layer: &LayerGates<'_>,
    values: &[Fp],
    from: usize,
    scales: &mut [Ext],
    shifts: &mut [Ext],
)
    requires layer { IsLayerGates layer.now }
    requires values { map embed_k values.now ≡ layer.now.values.now.items }
    requires same { length shifts.old ≡ length scales.old }
    ensures { GathersLeft K k_ops layer.now.gates.now (weights_of layer.now) (map embed_k values.now)
        from scales.new shifts.new }
{
    gather_left(layer.gates, layer, values, from, scales, shifts);
}

/// The tables of the second phase, of the places from `from` on, where the left operand is bound at this point and has this value.
fn gather_second<L: Ledger>(
    layer: &LayerGates<'_>,
    bound: &[Ext],
    value: Ext,
    from: usize,
    scales: &mut [Ext],
    shifts: &mut [Ext],
    steps: &mut Steps<L>,
)
    requires layer { IsLayerGates layer.now }
    requires bound { length bound.now ≡ layer.now.k }
    requires same { length shifts.old ≡ length scales.old }
    ensures gathers { GathersRight K k_ops layer.now.gates.now (weights_of layer.now)
        (eq_poly k_ops bound.now) value from scales.new shifts.new }
    ensures steps { steps.new ≡ steps.old + length layer.now.gates.now }
{
    let left = EqualityAt::new(bound);
    gather_right(
        layer.gates,
        layer,
        &left,
        value,
        from,
        scales,
        shifts,
        steps,
    );
}

/// What the gates give in the phase that begins, to the places from `from` on, where these challenges are bound, if any, and the left
/// operand has this value then. It takes a step for each gate in the second phase.
pub(crate) fn gather<L: Ledger>(
    layer: &LayerGates<'_>,
    bound: &[Ext],
    value: Ext,
    from: usize,
    scales: &mut [Ext],
    shifts: &mut [Ext],
    steps: &mut Steps<L>,
)
    requires layer { IsLayerGates layer.now }
    requires begins { IsBeginning layer.now.k layer.now.values.now.items value bound.now }
    requires same { length shifts.old ≡ length scales.old }
    ensures gathers { GathersPhase layer.now.gates.now layer.now.values.now.items
        (place_of layer.now) bound.now from scales.new shifts.new }
    ensures steps { steps.new ≡ steps.old
        + (if length bound.now == layer.now.k then length layer.now.gates.now else 0) }
{
    if bound.is_empty() {
        gather_first(layer, layer.values.values(), from, scales, shifts);
    } else {
        gather_second(layer, bound, value, from, scales, shifts, steps);
    }
}

impl Working {
    /// Buffers for tables of up to so many values.
    pub(crate) fn empty(alloc: Global, values: usize) -> Result<Working, AllocError> {
        let count = (values / PART_VALUES).max(1);
        let mut many = Vec::with_capacity(alloc, count)?;
        for _ in 0..count {
            many.push(Part::new(alloc, values.min(PART_VALUES))?)?;
        }
        let mut one = Vec::with_capacity(alloc, 1)?;
        one.push(Part::new(alloc, count)?)?;
        Ok(Working {
            alloc,
            challenges: Vec::with_capacity(alloc, 40)?,
            count: 0,
            scales: Vec::with_capacity(alloc, values)?,
            shifts: Vec::with_capacity(alloc, values)?,
            many,
            one,
            merged: false,
            spare: Vec::with_capacity(alloc, count)?,
        })
    }

    /// Gives the buffers the sizes of both phases over `2^k` values.
    pub(crate) fn fit(&mut self, k: usize) -> Result<(), AllocError>
        requires { k ≤ 20 }
        ensures { IfOk result (λ _. HasCapacities k self.new) }
    {
        let size = power(k);
        let cuts = cut_count(k);
        self.challenges.resize(2 * k, Ext::zero())?;
        self.scales.resize(size, Ext::zero())?;
        self.shifts.resize(size, Ext::zero())?;
        fit_parts(
            self.alloc,
            &mut self.many,
            &mut self.spare,
            power(cuts),
            power(k - cuts),
        )?;
        fit_parts(self.alloc, &mut self.one, &mut self.spare, 1, power(cuts))
    }

    /// The same buffers with no challenge bound.
    pub(crate) fn unbound(mut self) -> Working
        ensures capacities { (k : ℕ) → HasCapacities k self → HasCapacities k result }
        ensures count { result.count ≡ 0 }
    {
        self.count = 0;
        self
    }

    /// Gathers the gates of the phase that begins, where the left operand has this value if it is bound. It takes a step for each
    /// gate in the second phase.
    pub(crate) fn gather<L: Ledger>(
        &mut self,
        layer: &LayerGates<'_>,
        value: Ext,
        steps: &mut Steps<L>,
    )
        requires layer { IsLayerGates layer.now }
        requires begins { Begins layer.now self.old value }
        ensures works { WorksFor layer.now self.new }
        ensures bound { bound_of self.new ≡ bound_of self.old }
        ensures steps { steps.new ≡ steps.old
            + (if self.old.count == layer.now.k then length layer.now.gates.now else 0) }
    {
        let (bound, _) = self.challenges.as_slice().split_at(self.count);
        gather(
            layer,
            bound,
            value,
            0,
            &mut self.scales,
            &mut self.shifts,
            steps,
        );
        self.lay_out(layer);
    }

    /// Cuts the values of the layer and what was gathered into parts.
    fn lay_out(&mut self, layer: &LayerGates<'_>)
        requires layer { IsLayerGates layer.now }
        requires capacities { HasCapacities layer.now.k self.old }
        ensures capacities { HasCapacities layer.now.k self.new }
        ensures challenges { self.new.challenges ≡ self.old.challenges }
        ensures count { self.new.count ≡ self.old.count }
        ensures laid { AreLaidOut layer.now.k layer.now.k (parts_of self.new) }
        ensures table { flat_table (parts_of self.new) ≡ layer.now.values.now.items }
        ensures scales { flat_scales (parts_of self.new) ≡ self.old.scales.items }
        ensures shifts { flat_shifts (parts_of self.new) ≡ self.old.shifts.items }
    {
        fill_parts(
            &mut self.many,
            power(layer.k - cut_count(layer.k)),
            layer.values.values(),
            &self.scales,
            &self.shifts,
        );
        self.merged = false;
    }

    /// The parts in use.
    pub(crate) fn parts(&self) -> &[Part]
        ensures { result.now ≡ parts_of self.now }
    {
        if self.merged {
            self.one.as_slice()
        } else {
            self.many.as_slice()
        }
    }

    /// Hands out the parts in use.
    pub(crate) fn lend(&mut self) -> Vec<Part>
        ensures others { AreSameCapacities self.old self.new }
        ensures parts { result.items ≡ parts_of self.old }
    {
        let none = Vec::new(self.alloc);
        if self.merged {
            replace(&mut self.one, none)
        } else {
            replace(&mut self.many, none)
        }
    }

    /// Takes parts in, as those in use.
    pub(crate) fn take_back(&mut self, parts: Vec<Part>)
        ensures others { AreSameCapacities self.old self.new }
        ensures parts { parts_of self.new ≡ parts.items }
    {
        if self.merged {
            self.one = parts;
        } else {
            self.many = parts;
        }
    }

    /// Folds the parts in use, each of `half` pairs.
    fn fold<L: Ledger>(&mut self, half: usize, r: Ext, steps: &mut Steps<L>)
        requires { All (HasSize (2 * half)) (parts_of self.old) }
        ensures folded { AreFolded self.old r self.new }
        ensures steps { steps.new ≡ steps.old + 3 * (length (parts_of self.old) * half) }
    {
        if self.merged {
            fold_parts(&mut self.one, half, r, steps);
        } else {
            fold_parts(&mut self.many, half, r, steps);
        }
    }

    /// Folds the parts in use by the next challenge.
    fn fold_round<L: Ledger>(&mut self, layer: &LayerGates<'_>, r: Ext, steps: &mut Steps<L>)
        requires layer { IsLayerGates layer.now }
        requires works { WorksFor layer.now self.old }
        requires left { self.old.count < layer.now.k + layer.now.k }
        ensures folded { AreFolded self.old r self.new }
        ensures steps { steps.new
            ≡ steps.old + 3 * 2 ^ (left_in_phase layer.now.k self.old.count - 1) }
    {
        let _ = layer;
        let half = self.parts()[0].len() / 2;
        self.fold(half, r, steps);
    }

    /// Notes a challenge as bound, once the parts are folded by it, and gathers them into one where each has one value.
    fn advance(&mut self, layer: &LayerGates<'_>, old: Snapshot<Working>, r: Ext)
        requires layer { IsLayerGates layer.now }
        requires works { WorksFor layer.now old.value }
        requires folded { AreFolded old.value r self.old }
        requires left { old.value.count < layer.now.k + layer.now.k }
        ensures advanced { IsAdvanced layer.now.k old.value r self.new }
        ensures kept { 1 < half_size layer.now.k old.value.count
            → parts_of self.new ≡ parts_of self.old }
    {
        let _ = layer;
        let _ = old;
        self.challenges[self.count] = r;
        self.count += 1;
        if self.is_thin() {
            merge_parts(&self.many, &mut self.one);
            self.merged = true;
        }
    }

    /// Whether there are several parts, the first of which has one value.
    fn is_thin(&self) -> bool
        ensures thin { IsTrue result → 1 < length (parts_of self.now) × ((d : PartTables)
            → length (slice_index_or (parts_of self.now) 0 d).table ≡ 1) }
        ensures thick { result ≡ false → 1 < length (parts_of self.now) → (d : PartTables)
            → length (slice_index_or (parts_of self.now) 0 d).table ≢ 1 }
    {
        let parts = self.parts();
        parts.len() > 1 && parts[0].len() == 1
    }

    /// Ends the first phase, once the parts are folded, and gives the left operand's value.
    fn reach(&mut self, layer: &LayerGates<'_>, old: Snapshot<Working>, r: Ext) -> Ext
        requires layer { IsLayerGates layer.now }
        requires works { WorksFor layer.now old.value }
        requires folded { AreFolded old.value r self.old }
        requires left { old.value.count + 1 ≡ layer.now.k }
        ensures begins { Begins layer.now self.new result }
        ensures bound { bound_of self.new ≡ bound_of old.value ++ r ∷ [] }
        ensures count { self.new.count ≡ layer.now.k }
    {
        self.advance(layer, old, r);
        self.only_value(layer)
    }

    /// The one value of the table that is left at the end of the first phase.
    fn only_value(&self, layer: &LayerGates<'_>) -> Ext
        requires { AreLaidOut layer.now.k 0 (parts_of self.now) }
        ensures { result ≡ slice_index_or (flat_table (parts_of self.now)) 0 zero_k }
    {
        let _ = layer;
        self.parts()[0].table()[0]
    }

    /// Binds the last challenge of the first phase, and gives the left operand's value.
    pub(crate) fn bind_last<L: Ledger>(
        &mut self,
        layer: &LayerGates<'_>,
        r: Ext,
        steps: &mut Steps<L>,
    ) -> Ext
        requires layer { IsLayerGates layer.now }
        requires works { WorksFor layer.now self.old }
        requires left { self.old.count + 1 ≡ layer.now.k }
        ensures begins { Begins layer.now self.new result }
        ensures bound { bound_of self.new ≡ bound_of self.old ++ r ∷ [] }
    {
        let old = Snapshot::of(self);
        self.fold_round(layer, r, steps);
        self.reach(layer, old, r)
    }

    /// Ends a round of the first phase that is not its last, once the parts are folded.
    fn close_left(&mut self, layer: &LayerGates<'_>, old: Snapshot<Working>, r: Ext)
        requires layer { IsLayerGates layer.now }
        requires works { WorksFor layer.now old.value }
        requires folded { AreFolded old.value r self.old }
        requires left { old.value.count + 1 < layer.now.k }
        ensures works { WorksFor layer.now self.new }
        ensures bound { bound_of self.new ≡ bound_of old.value ++ r ∷ [] }
        ensures kept { 1 < half_size layer.now.k old.value.count
            → parts_of self.new ≡ parts_of self.old }
    {
        self.advance(layer, old, r);
    }

    /// Ends the last round of the first phase, once the parts are folded.
    fn close_middle<L: Ledger>(
        &mut self,
        layer: &LayerGates<'_>,
        old: Snapshot<Working>,
        r: Ext,
        steps: &mut Steps<L>,
    )
        requires layer { IsLayerGates layer.now }
        requires works { WorksFor layer.now old.value }
        requires folded { AreFolded old.value r self.old }
        requires left { old.value.count + 1 ≡ layer.now.k }
        ensures works { WorksFor layer.now self.new }
        ensures bound { bound_of self.new ≡ bound_of old.value ++ r ∷ [] }
        ensures steps { steps.new ≡ steps.old + length layer.now.gates.now }
    {
        let value = self.reach(layer, old, r);
        self.gather(layer, value, steps);
    }

    /// Ends a round of the second phase, once the parts are folded.
    fn close_right(&mut self, layer: &LayerGates<'_>, old: Snapshot<Working>, r: Ext)
        requires layer { IsLayerGates layer.now }
        requires works { WorksFor layer.now old.value }
        requires folded { AreFolded old.value r self.old }
        requires begun { layer.now.k ≤ old.value.count }
        requires left { old.value.count < layer.now.k + layer.now.k }
        ensures works { WorksFor layer.now self.new }
        ensures bound { bound_of self.new ≡ bound_of old.value ++ r ∷ [] }
        ensures kept { 1 < half_size layer.now.k old.value.count
            → parts_of self.new ≡ parts_of self.old }
    {
        self.advance(layer, old, r);
    }

    /// Ends a round, once the parts are folded by its challenge.
    pub(crate) fn close_round<L: Ledger>(
        &mut self,
        layer: &LayerGates<'_>,
        old: Snapshot<Working>,
        r: Ext,
        steps: &mut Steps<L>,
    )
        requires layer { IsLayerGates layer.now }
        requires works { WorksFor layer.now old.value }
        requires folded { AreFolded old.value r self.old }
        requires left { old.value.count < layer.now.k + layer.now.k }
        ensures works { WorksFor layer.now self.new }
        ensures bound { bound_of self.new ≡ bound_of old.value ++ r ∷ [] }
        ensures steps { steps.new ≡ steps.old
            + (if old.value.count + 1 == layer.now.k then length layer.now.gates.now else 0) }
        ensures kept { old.value.count + 1 ≢ layer.now.k → 1 < half_size layer.now.k old.value.count
            → parts_of self.new ≡ parts_of self.old }
    {
        if self.count + 1 < layer.k {
            self.close_left(layer, old, r);
        } else if self.count + 1 == layer.k {
            self.close_middle(layer, old, r, steps);
        } else {
            self.close_right(layer, old, r);
        }
    }

    /// Binds the next challenge.
    pub(crate) fn bind<L: Ledger>(&mut self, layer: &LayerGates<'_>, r: Ext, steps: &mut Steps<L>)
        requires layer { IsLayerGates layer.now }
        requires works { WorksFor layer.now self.old }
        requires left { self.old.count < layer.now.k + layer.now.k }
        ensures works { WorksFor layer.now self.new }
        ensures bound { bound_of self.new ≡ bound_of self.old ++ r ∷ [] }
        ensures steps { steps.new
            ≡ steps.old + (3 * 2 ^ (left_in_phase layer.now.k self.old.count - 1)
            + (if self.old.count + 1 == layer.now.k then length layer.now.gates.now else 0)) }
    {
        let old = Snapshot::of(self);
        self.fold_round(layer, r, steps);
        self.close_round(layer, old, r, steps);
    }

    /// The coefficients of 1, X and X² of the sum of the pairs of a part.
    pub(crate) fn part_sum<L: Ledger>(
        &self,
        layer: &LayerGates<'_>,
        number: usize,
        steps: &mut Steps<L>,
    ) -> [Ext; 3]
        requires layer { IsLayerGates layer.now }
        requires works { WorksFor layer.now self.now }
        requires left { self.now.count < layer.now.k + layer.now.k }
        requires within { number < length (parts_of self.now) }
        ensures part { let half = half_size layer.now.k self.now.count in
            result ≡ coefficients k_ops 3 (part_of_round k_ops layer.now.k
            layer.now.gates.now layer.now.values.now.items (place_of layer.now)
            (bound_of self.now) (number * half) (number * half + half)) }
        ensures steps { steps.new ≡ steps.old + half_size layer.now.k self.now.count }
    {
        let _ = layer;
        self.parts()[number].sum_counted(steps)
    }
}
