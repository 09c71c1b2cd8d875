//! Laws of the layout. Each function does nothing: its contract is a law that is proved.

ghost use Rattle.std.specs.Prelude.{◌≡◌, ℕ, ◌+◌, ◌<◌, ◌≤◌, ◌↔◌, List, Contains, length, slice_index_or, None};
ghost use Rattle.field_ext.specs.Field.{F};
ghost use Rattle.circuit_core.specs.Parts.{Limits, layer_values, padded_values, zero_f};
ghost use Rattle.circuit_core.specs.Faults.{fault_of};
ghost use Rattle.circuit_core.specs.Sound.{greatest};
ghost use Rattle.node_core.specs.Nodes.{Nodes, IsNodeList, values};
ghost use Rattle.layer_compile.specs.Levels.{height_of};
ghost use Rattle.layer_compile.specs.Rows.{row};
ghost use Rattle.layer_compile.specs.Circuits.{AreKept, circuit_of, output_values, refusal_of, size_for};
ghost use Rattle.layer_compile.specs.Needed.{IsAt};

/// Between the leaves and the outputs, a height has the needed nodes of its level, and the lower ones that are used above it.
pub fn rows_by_uses()
    ensures { (n : Nodes) (h k : ℕ) → IsNodeList n → 0 < h → h < height_of n
        → Contains (row n h) k ↔ ((k < length n.nodes) × IsAt n h k) }
{}

/// Layer 0 holds 0, then the values of the outputs in order, then zeros.
pub fn outputs_in_order()
    ensures { (n : Nodes) (inputs : List F) → IsNodeList n
        → layer_values (circuit_of n) inputs 0 ≡ padded_values (size_for (1 + length n.outputs))
        (output_values n inputs) }
{}

/// Output j is at position j + 1 of layer 0.
pub fn outputs_after_position_0()
    ensures { (n : Nodes) (inputs : List F) (j : ℕ) → IsNodeList n → j < length n.outputs
        → slice_index_or (layer_values (circuit_of n) inputs 0) (1 + j) zero_f ≡ slice_index_or
        (values n inputs) (slice_index_or n.outputs j 0) zero_f }
{}

/// Layer 0 holds 0 at position 0.
pub fn zero_before_the_outputs()
    ensures { (n : Nodes) (inputs : List F) → IsNodeList n
        → slice_index_or (layer_values (circuit_of n) inputs 0) 0 zero_f ≡ zero_f }
{}

/// Layer 0 holds 0 at each position after the outputs.
pub fn zeros_after_the_outputs()
    ensures { (n : Nodes) (inputs : List F) (g : ℕ) → IsNodeList n → length n.outputs < g
        → slice_index_or (layer_values (circuit_of n) inputs 0) g zero_f ≡ zero_f }
{}

/// A list of nodes whose layout isn't refused is laid out without fault, whatever the limits are.
pub fn no_fault()
    ensures { (limits : Limits) (n : Nodes) → AreKept limits → IsNodeList n
        → refusal_of limits n ≡ None → fault_of greatest (circuit_of n) ≡ None }
{}

/// A list of nodes whose layout isn't refused by limits isn't refused by larger ones.
pub fn wider_fits()
    ensures { (limits larger : Limits) (n : Nodes) → limits.height ≤ larger.height
        → limits.exponent ≤ larger.exponent → refusal_of limits n ≡ None
        → refusal_of larger n ≡ None }
{}
