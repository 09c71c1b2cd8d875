//! The claimed outputs beside those that the circuit has.

ghost use Rattle.std.specs.Prelude.{◌≡◌, ◌<◌, ◌↔◌, IfOk, IsTrue, ℕ, List, length, map, take, slice_index_or};
ghost use Rattle.field_ext.specs.Field.{F, k_ops, zero_k, embed_k};
ghost use Rattle.field_ext.specs.Polynomial.{IsZero};
ghost use Rattle.circuit_core.specs.Parts.{width_of, padded_values};
ghost use Rattle.circuit_core.specs.Sound.{exponent_at};
ghost use Rattle.circuit_eval.specs.Tables.{AreTables, table_of};
ghost use Rattle.gkr_layers.specs.Sumcheck.{difference, IsExceptionalFold};
ghost use Rattle.audit_core.specs.First.{NamesFirst};

use circuit_core::Circuit;
use circuit_eval::Values;
use field_ext::{Ext, Fp};
use mle_table::Table;
use std::alloc::{AllocError, Global};

/// The table of the claimed outputs less that of the outputs that the circuit has.
pub(crate) fn claimed_less_true(
    alloc: Global,
    circuit: &Circuit,
    values: &Values,
    outputs: &[Fp],
) -> Result<Table, AllocError>
    requires values { (inputs : List F) × AreTables circuit.now.parts inputs values.now }
    requires outputs { length outputs.now ≡ circuit.now.parts.outputs }
    ensures k { IfOk result (λ table. table.k ≡ exponent_at circuit.now.parts 0) }
    ensures items { IfOk result
        (λ table. (inputs : List F) → AreTables circuit.now.parts inputs values.now
        → table.items ≡ difference k_ops
        (map embed_k (padded_values (width_of circuit.now.parts 0) outputs.now))
        (table_of circuit.now.parts inputs 0)) }
{
    let mut items = values.table(0).elements(alloc)?;
    subtract_from(outputs, &mut items);
    let Ok(table) = Table::of_values(items) else {
        unreachable!()
    };
    Ok(table)
}

/// Writes into each place what is claimed there less what is there: 0, the outputs and zeros are claimed.
fn subtract_from(outputs: &[Fp], items: &mut [Ext])
    requires { length outputs.now < length items.old }
    ensures { items.new ≡ difference k_ops
        (map embed_k (padded_values (length items.old) outputs.now)) items.old }
{
    for g in 0..items.len() {
        items[g] = claimed(outputs, g) - items[g];
    }
}

/// What is claimed for a place of the output layer.
fn claimed(outputs: &[Fp], g: usize) -> Ext
    ensures { (width : ℕ) → result ≡ slice_index_or
        (map embed_k (padded_values width outputs.now)) g zero_k }
{
    if g == 0 {
        return Ext::zero();
    }
    if outputs.len() < g {
        return Ext::zero();
    }
    Ext::embed(outputs[g - 1])
}

/// Whether all values are 0.
pub(crate) fn is_zero(values: &[Ext]) -> bool
    ensures { IsTrue result ↔ IsZero k_ops values.now }
{
    values.iter().all(|value| value.equals(Ext::zero()))
}

/// The first coordinate at which the table, folded by one after another, becomes all 0.
pub(crate) fn first_zeroed(mut table: Table, point: &[Ext]) -> Option<usize>
    requires { length point.now ≡ table.k }
    ensures { NamesFirst
        (λ n. IsExceptionalFold k_ops table.items (take n point.now)
        (slice_index_or point.now n zero_k)) (length point.now) (λ n. n) result }
{
    if is_zero(table.values()) {
        return None;
    }
    for (n, coordinate) in point.iter().enumerate() {
        table.fold(*coordinate);
        if is_zero(table.values()) {
            return Some(n);
        }
    }
    None
}
