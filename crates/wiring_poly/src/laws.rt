//! The law that sumcheck rests on. The function does nothing: its contract is a law that is proved.

ghost use Rattle.std.specs.Prelude.{◌≡◌, ℕ, ◌+◌, ◌^◌, List, length, All};
ghost use Rattle.field_ext.specs.Field.{K, k_ops};
ghost use Rattle.field_ext.specs.Sums.{sum_cube};
ghost use Rattle.field_ext.specs.Multilinear.{extension_at};
ghost use Rattle.circuit_core.specs.declared.gate.CircuitGate.{CircuitGate};
ghost use Rattle.circuit_core.specs.Parts.{IsOver};
ghost use Rattle.wiring_poly.specs.Wiring.{summand_at, values_above};

/// The extension of a layer's values at z is the sum of the summand over all Boolean points of the two operands.
#[tactic(auto, using(crate::proofs::AtField::k_layer_sum))]
pub fn layer_sum()
    ensures { (k : ℕ) (gates : List CircuitGate) (below z : List K) → length gates ≡ 2 ^ length z
        → All (IsOver (2 ^ k)) gates →
        extension_at k_ops k_ops (λ x. x) (values_above k_ops gates below) z ≡ sum_cube k_ops
        (k + k) (λ w. summand_at k_ops k_ops (λ x. x) k gates below z w) }
{}
