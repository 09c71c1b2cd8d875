//! Laws of polynomials. Each function does nothing: its contract is a law that is proved.

ghost use Rattle.std.specs.Prelude.{◌≡◌, ◌≤◌, ◌+◌, ℕ, List, length, slice_index_or};
ghost use Rattle.field_ext.specs.Field.{K, k_ops, zero_k, add_k, mul_k};
ghost use Rattle.field_ext.specs.Polynomial.{value_at, power, sum_of, product_of, IsZero, HasAtMost};
ghost use Rattle.field_ext.specs.Sums.{sum_below};

/// A polynomial of at most d + 1 coefficients that is not zero has at most d distinct roots.
pub fn few_roots()
    ensures { (d : ℕ) (cs : List K) → length cs ≤ d + 1 → ¬ IsZero k_ops cs
        → HasAtMost d (λ e. value_at k_ops cs e ≡ zero_k) }
{}

/// The value at a point is the sum of the coefficients times the powers of the point.
#[tactic(auto, using(crate::proofs::AtField::k_value_by_powers))]
pub fn powers()
    ensures { (cs : List K) (e : K) → value_at k_ops cs e ≡
        sum_below k_ops (length cs) (λ n. mul_k (slice_index_or cs n zero_k) (power k_ops e n)) }
{}

/// The value at a point carries sums to sums and products to products.
pub fn evaluation()
    ensures sums { (p q : List K) (e : K)
        → value_at k_ops (sum_of k_ops p q) e ≡ add_k (value_at k_ops p e) (value_at k_ops q e) }
    ensures products { (p q : List K) (e : K)
        → value_at k_ops (product_of k_ops p q) e ≡ mul_k (value_at k_ops p e)
        (value_at k_ops q e) }
{}
