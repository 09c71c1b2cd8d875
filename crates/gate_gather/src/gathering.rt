//! The tables of a phase, built from the gates.

ghost use Rattle.std.specs.Prelude.{◌≡◌, ◌≢◌, ◌≤◌, ◌<◌, ◌+◌, ◌^◌, ℕ, All, IfNone, IfSome, length, map, if◌then◌else◌, ◌==◌, slice_index_or};
ghost use Rattle.circuit_core.specs.Parts.{IsOver};
ghost use Rattle.field_ext.specs.Field.{K, k_ops, add_k, zero_k, embed_k};
ghost use Rattle.field_ext.specs.Multilinear.{eq_poly};
ghost use Rattle.wiring_poly.specs.Wiring.{by_kind};
ghost use Rattle.gate_gather.specs.Gathering.{left_scale, left_shift, add_factor, mul_factor, GathersLeft, GathersFactors, GathersRight};

use crate::choosing::{ByLeft, ByRight, choose};
use crate::operand::{Base, Operand};
use crate::scaling::scale_by;
use crate::weights::{EqualityAt, Weights};
use crate::zeros::clear;
use circuit_core::{CircuitGate, Kind};
use field_ext::{Ext, Fp};
use std::sync::ledger::Ledger;
use step_count::Steps;

/// From how many gates those that are sent into a range are chosen at once.
const BLOCK: usize = 128;

/// Takes so many steps.
fn tick_each<L: Ledger>(count: usize, steps: &mut Steps<L>)
    ensures { steps.new ≡ steps.old + count }
{
    for step in 0..count {
        let _ = step;
        steps.tick();
    }
}

/// What is taken for gates that add, or for those that multiply. It is taken without a branch.
#[inline]
fn pick(kind: Kind, add: Ext, mul: Ext) -> Ext
    ensures { result ≡ by_kind kind add mul }
{
    match kind {
        Kind::Add => add,
        Kind::Mul => mul,
    }
}

/// Adds to one value of a table.
#[inline]
fn add_at(table: &mut [Ext], place: usize, x: Ext)
    requires { place < length table.old }
    ensures { (y : ℕ) → slice_index_or table.new y zero_k ≡ add_k
        (slice_index_or table.old y zero_k) (if place == y then x else zero_k) }
{
    table[place] = table[place] + x;
}

/// Where a place is in a table of `count` places that begins with the place `from`. None if it isn't there.
#[inline]
fn place_in(place: usize, from: usize, count: usize) -> Option<usize>
    ensures some { IfSome result (λ i. (from + i ≡ place) × (i < count)) }
    ensures none { IfNone result ((x : ℕ) → x < count → place ≢ from + x) }
{
    if place < from || place - from >= count {
        None
    } else {
        Some(place - from)
    }
}

/// Adds what the gate of a position gives in the first phase to both tables, which begin with the place `from`. A gate that is sent
/// to none of their places gives nothing, and its weight isn't worked out.
#[inline]
fn send_left<W: Weights>(
    gate: CircuitGate,
    weights: &W,
    position: usize,
    values: &[Fp],
    from: usize,
    scales: &mut [Ext],
    shifts: &mut [Ext],
)
    requires holds { W.holds weights.now }
    requires weights { position < W.positions weights.now }
    requires in_range { gate.right < length values.now }
    requires same { length shifts.old ≡ length scales.old }
    ensures scales { (x : ℕ) → x < length scales.old
        → slice_index_or scales.new x zero_k ≡ add_k (slice_index_or scales.old x zero_k)
        (if gate.left == from + x
        then left_scale k_ops (W.weight weights.now) (map embed_k values.now) position gate else zero_k) }
    ensures shifts { (x : ℕ) → x < length scales.old
        → slice_index_or shifts.new x zero_k ≡ add_k (slice_index_or shifts.old x zero_k)
        (if gate.left == from + x
        then left_shift k_ops (W.weight weights.now) (map embed_k values.now) position gate else zero_k) }
{
    let Some(place) = place_in(gate.left as usize, from, scales.len()) else {
        return;
    };
    let factor = weights.at(position);
    let value = Ext::embed(values[gate.right as usize]);
    let product = Base::times(factor, value);
    add_at(scales, place, pick(gate.kind, factor, product));
    add_at(shifts, place, pick(gate.kind, product, Ext::zero()));
}

/// The tables of the first phase, of the places from `from` on: what the gates give by their left operands, over values of the base
/// field. The weights are those of the gates' positions.
pub fn gather_left<W: Weights>(
    gates: &[CircuitGate],
    weights: &W,
    values: &[Fp],
    from: usize,
    scales: &mut [Ext],
    shifts: &mut [Ext],
)
    requires holds { W.holds weights.now }
    requires weights { length gates.now ≤ W.positions weights.now }
    requires in_range { All (IsOver (length values.now)) gates.now }
    requires same { length shifts.old ≡ length scales.old }
    ensures { GathersLeft K k_ops gates.now (W.weight weights.now) (map embed_k values.now) from
        scales.new shifts.new }
{
    clear(scales);
    clear(shifts);
    let mut chosen = [0; BLOCK];
    for block in 0..gates.len() / BLOCK + 1 {
        let start = block * BLOCK;
        let end = (start + BLOCK).min(gates.len());
        let count = choose::<ByLeft>(gates, start, end, from, scales.len(), &mut chosen);
        for k in 0..count {
            let position = chosen[k];
            send_left(
                gates[position],
                weights,
                position,
                values,
                from,
                scales,
                shifts,
            );
        }
    }
}

/// Adds the factor of the gate of a position to the table of the gate's kind, of which both begin with the place `from`. A gate that
/// is sent to none of their places gives nothing, and its factor isn't worked out.
#[inline]
fn send_right<W: Weights>(
    gate: CircuitGate,
    weights: &W,
    position: usize,
    left: &EqualityAt<'_>,
    from: usize,
    adds: &mut [Ext],
    muls: &mut [Ext],
)
    requires holds { W.holds weights.now }
    requires weights { position < W.positions weights.now }
    requires in_range { gate.left < 2 ^ length left.now }
    requires same { length muls.old ≡ length adds.old }
    ensures adds { (x : ℕ) → x < length adds.old
        → slice_index_or adds.new x zero_k ≡ add_k (slice_index_or adds.old x zero_k)
        (if gate.right == from + x
        then add_factor k_ops (W.weight weights.now) (eq_poly k_ops left.now) position gate
        else zero_k) }
    ensures muls { (x : ℕ) → x < length adds.old
        → slice_index_or muls.new x zero_k ≡ add_k (slice_index_or muls.old x zero_k)
        (if gate.right == from + x
        then mul_factor k_ops (W.weight weights.now) (eq_poly k_ops left.now) position gate
        else zero_k) }
{
    let Some(place) = place_in(gate.right as usize, from, adds.len()) else {
        return;
    };
    let factor = weights.at(position) * left.at(gate.left as usize);
    add_at(adds, place, pick(gate.kind, factor, Ext::zero()));
    add_at(muls, place, pick(gate.kind, Ext::zero(), factor));
}

/// Sums the factors of the gates by their right operands, add gates and multiply gates apart. It takes a step for each
/// gate.
fn gather_factors<W: Weights, L: Ledger>(
    gates: &[CircuitGate],
    weights: &W,
    left: &EqualityAt<'_>,
    from: usize,
    adds: &mut [Ext],
    muls: &mut [Ext],
    steps: &mut Steps<L>,
)
    requires holds { W.holds weights.now }
    requires weights { length gates.now ≤ W.positions weights.now }
    requires in_range { All (IsOver (2 ^ length left.now)) gates.now }
    requires same { length muls.old ≡ length adds.old }
    ensures gathers { GathersFactors K k_ops gates.now (W.weight weights.now)
        (eq_poly k_ops left.now) from adds.new muls.new }
    ensures steps { steps.new ≡ steps.old + length gates.now }
{
    clear(adds);
    clear(muls);
    let mut chosen = [0; BLOCK];
    for block in 0..gates.len() / BLOCK + 1 {
        let start = block * BLOCK;
        let end = (start + BLOCK).min(gates.len());
        let count = choose::<ByRight>(gates, start, end, from, adds.len(), &mut chosen);
        for k in 0..count {
            let position = chosen[k];
            send_right(gates[position], weights, position, left, from, adds, muls);
        }
    }
    tick_each(gates.len(), steps);
}

/// The tables of the second phase, of the places from `from` on: what the gates give by their right operands, where the left
/// operand is bound at the point `left` and its value is `value`. The weights are those of the gates' positions. It takes a step
/// for each gate.
pub fn gather_right<W: Weights, L: Ledger>(
    gates: &[CircuitGate],
    weights: &W,
    left: &EqualityAt<'_>,
    value: Ext,
    from: usize,
    scales: &mut [Ext],
    shifts: &mut [Ext],
    steps: &mut Steps<L>,
)
    requires holds { W.holds weights.now }
    requires weights { length gates.now ≤ W.positions weights.now }
    requires in_range { All (IsOver (2 ^ length left.now)) gates.now }
    requires same { length shifts.old ≡ length scales.old }
    ensures gathers { GathersRight K k_ops gates.now (W.weight weights.now) (eq_poly k_ops left.now)
        value from scales.new shifts.new }
    ensures steps { steps.new ≡ steps.old + length gates.now }
{
    gather_factors(gates, weights, left, from, shifts, scales, steps);
    scale_by(value, scales, shifts);
}
