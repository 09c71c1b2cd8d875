//! Layers that need no third table. The function does nothing: its contract is a law that is proved.

ghost use Rattle.std.specs.Prelude.{◌≡◌, ◌≢◌, ◌<◌, ◌+◌, ℕ, List, length, slice_index_or};
ghost use Rattle.field_ext.specs.Field.{K, k_ops, zero_k};
ghost use Rattle.circuit_core.specs.declared.gate.CircuitGate.{CircuitGate};
ghost use Rattle.gate_gather.specs.Gathering.{GathersLeft, GathersRight};
ghost use Rattle.gate_gather.specs.Carries.{HasNoSums};

/// In a layer of multiply gates and carries alone the third table is 0 in the first phase, and in the second but at place 0.
pub fn no_shifts()
    ensures first { (gates : List CircuitGate) (weight : ℕ → K) (values : List K) (from : ℕ)
        (scales shifts : List K) → HasNoSums K k_ops gates values
        → GathersLeft K k_ops gates weight values from scales shifts → (x : ℕ) → x < length shifts
        → slice_index_or shifts x zero_k ≡ zero_k }
    ensures second { (gates : List CircuitGate) (weight left : ℕ → K) (values : List K) (value : K)
        (from : ℕ) (scales shifts : List K) → HasNoSums K k_ops gates values
        → GathersRight K k_ops gates weight left value from scales shifts → (x : ℕ)
        → x < length shifts → from + x ≢ 0 → slice_index_or shifts x zero_k ≡ zero_k }
{}
