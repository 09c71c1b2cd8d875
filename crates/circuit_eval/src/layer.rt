//! The values of one layer.

ghost use Rattle.std.specs.Prelude.{◌≡◌, ◌<◌, ◌+◌, ◌^◌, ℕ, length, slice_index_or, map, All, IfOk};
ghost use Rattle.circuit_core.specs.Parts.{IsOver, zero_gate, gate_value, leaf_value, padded_values, width_of, height};

use circuit_core::{Circuit, CircuitGate, gate_value, leaf_value};
use field_ext::Fp;
use rayon::prelude::*;
use std::alloc::{AllocError, Global};
use std::marker::Sync;
use std::thread::Threads;

/// From this many gates on, which the widest layers have, threads take no longer than the gates alone.
const MANY: usize = 1 << 16;

/// The values of the input layer: 0, the leaves, and padding.
pub fn input_values(alloc: Global, circuit: &Circuit, inputs: &[Fp]) -> Result<Vec<Fp>, AllocError>
    requires { length inputs.now ≡ circuit.now.parts.inputs }
    ensures { IfOk result (λ v. v.items ≡ padded_values circuit.now.parts.input_width
        (map (leaf_value inputs.now) circuit.now.parts.leaves)) }
{
    let width = circuit.width(circuit.height());
    let mut values = Vec::with_capacity(alloc, width)?;
    values.push(Fp::zero())?;
    for leaf in circuit.leaves() {
        values.push(leaf_value(inputs, *leaf))?;
    }
    for _ in values.len()..width {
        values.push(Fp::zero())?;
    }
    Ok(values)
}

/// What works the values of a layer's gates.
pub(crate) trait GateWork {
    /// What has to hold of it.
    ghost ready: { Self → Type 0 };

    /// Writes the value of each gate.
    fn work(&self, gates: &[CircuitGate], below: &[Fp], values: &mut [Fp])
        requires ready { ready self.now }
        requires capacity { length values.old ≡ length gates.now }
        requires operands { All (IsOver (length below.now)) gates.now }
        ensures { values.new ≡ map (gate_value below.now) gates.now };
}

/// The calling thread works all of them.
#[derive(Drop)]
pub(crate) struct Alone;

impl GateWork for Alone {
    ghost use Rattle.std.specs.Prelude.{⊤};

    ghost ready = { λ w. ⊤ };

    fn work(&self, gates: &[CircuitGate], below: &[Fp], values: &mut [Fp]) {
        evaluate(gates, below, values)
    }
}

/// As many threads as there are processors work them, where there are many.
#[derive(Drop)]
pub(crate) struct SideBySide<'r, R> {
    pub(crate) rt: &'r R,
}

impl<'r, R: Threads + Sync> GateWork for SideBySide<'r, R> {
    ghost use Rattle.std.specs.Thread.{IsSync};

    ghost ready = { λ w. IsSync R.row };

    fn work(&self, gates: &[CircuitGate], below: &[Fp], values: &mut [Fp]) {
        if gates.len() < MANY {
            evaluate(gates, below, values);
        } else {
            evaluate_side_by_side(self.rt, gates, below, values);
        }
    }
}

/// The values of a layer's gates, from those of the layer below.
pub(crate) fn gate_values<W: GateWork>(
    work: &W,
    alloc: Global,
    gates: &[CircuitGate],
    below: &[Fp],
) -> Result<Vec<Fp>, AllocError>
    requires ready { W.ready work.now }
    requires operands { All (IsOver (length below.now)) gates.now }
    ensures { IfOk result (λ v. v.items ≡ map (gate_value below.now) gates.now) }
{
    let mut values = vec![in alloc; Fp::zero(); gates.len()]?;
    work.work(gates, below, &mut values);
    Ok(values)
}

/// Writes the value of each gate.
fn evaluate(gates: &[CircuitGate], below: &[Fp], values: &mut [Fp])
    requires capacity { length values.old ≡ length gates.now }
    requires operands { All (IsOver (length below.now)) gates.now }
    ensures { values.new ≡ map (gate_value below.now) gates.now }
{
    for g in 0..gates.len() {
        values[g] = gate_value(below, &gates[g]);
    }
}

/// Writes the value of each gate, in as many threads as there are processors.
fn evaluate_side_by_side<R: Threads + Sync>(
    rt: &R,
    gates: &[CircuitGate],
    below: &[Fp],
    values: &mut [Fp],
)
    requires capacity { length values.old ≡ length gates.now }
    requires operands { All (IsOver (length below.now)) gates.now }
    ensures { values.new ≡ map (gate_value below.now) gates.now }
{
    par_for_each_mut(
        rt,
        values,
        |g: usize, value: &mut Fp|
            requires inside { g < length gates.now }
            requires operands { IsOver (length below.now) (slice_index_or gates.now g zero_gate) }
            ensures { value.new ≡ gate_value below.entry.now
                (slice_index_or gates.entry.now g zero_gate) }
        {
            *value = gate_value(below, &gates[g]);
        },
    );
}
