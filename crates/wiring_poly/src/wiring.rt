//! The wiring polynomials at a point.

ghost use Rattle.std.specs.Prelude.{◌≡◌, ◌≤◌, ◌<◌, ◌+◌, ◌^◌, [], All, length, slice_index_or};
ghost use Rattle.field_ext.specs.Field.{k_ops};
ghost use Rattle.circuit_core.specs.Parts.{height, IsOver};
ghost use Rattle.circuit_core.specs.Sound.{exponent_at};
ghost use Rattle.wiring_poly.specs.Wiring.{wiring_add, wiring_mul};

use crate::shares::WiringSums;
use circuit_core::{Circuit, CircuitGate};
use field_ext::Ext;
use mle_table::SplitEquality;

/// The wiring polynomials of a layer, that of the add gates and that of the multiply gates, at the point `z` of the
/// layer's positions and the points `b` and `c` of the operands' positions in the layer below. No memory is taken.
pub fn wiring_at(circuit: &Circuit, layer: u32, z: &[Ext], b: &[Ext], c: &[Ext]) -> (Ext, Ext)
    requires layer { layer < height circuit.now.parts }
    requires position { length z.now ≡ exponent_at circuit.now.parts layer }
    requires left { length b.now ≡ exponent_at circuit.now.parts (layer + 1) }
    requires right { length c.now ≡ exponent_at circuit.now.parts (layer + 1) }
    ensures add { result.0 ≡ wiring_add k_ops (slice_index_or circuit.now.parts.layers layer [])
        z.now b.now c.now }
    ensures mul { result.1 ≡ wiring_mul k_ops (slice_index_or circuit.now.parts.layers layer [])
        z.now b.now c.now }
{
    let sums = gate_sums(circuit.gates(layer as usize), z, b, c);
    (sums.add, sums.mul)
}

/// The wiring polynomials of a list of gates, by position, at points of at most 20 coordinates.
fn gate_sums(gates: &[CircuitGate], z: &[Ext], b: &[Ext], c: &[Ext]) -> WiringSums
    requires positions { length gates.now ≡ 2 ^ length z.now }
    requires operands { All (IsOver (2 ^ length b.now)) gates.now }
    requires right { length c.now ≡ length b.now }
    requires few_positions { length z.now ≤ 20 }
    requires few_operands { length b.now ≤ 20 }
    ensures add { result.add ≡ wiring_add k_ops gates.now z.now b.now c.now }
    ensures mul { result.mul ≡ wiring_mul k_ops gates.now z.now b.now c.now }
{
    let position = SplitEquality::at(z);
    let left = SplitEquality::at(b);
    let right = SplitEquality::at(c);
    let mut sums = WiringSums {
        add: Ext::zero(),
        mul: Ext::zero(),
    };
    for (g, gate) in gates.iter().enumerate() {
        let operands = left.value(gate.left as usize) * right.value(gate.right as usize);
        sums = sums.with(gate.kind, position.value(g) * operands);
    }
    sums
}
