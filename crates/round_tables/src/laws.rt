//! What the pieces of a round add to. Each function does nothing: its contract is a law that is proved.

ghost use Rattle.std.specs.Prelude.{◌≡◌, ◌<◌, ◌+◌, length};
ghost use Rattle.field_ext.specs.Field.{k_ops};
ghost use Rattle.field_ext.specs.Sums.{sum_below};
ghost use Rattle.field_ext.specs.Polynomial.{polynomial_ops, coefficients};
ghost use Rattle.round_tables.specs.LayerSum.{LayerSum, pieces_of, piece_poly, next_poly};

/// The sums of the pieces add to the coefficients of the round's true polynomial.
pub fn pieces_add_to_round()
    ensures { (sum : LayerSum) → length sum.bound < sum.k + sum.k →
        sum_below (polynomial_ops k_ops) (pieces_of sum)
        (λ piece. coefficients k_ops 3 (piece_poly sum piece)) ≡ coefficients k_ops 3
        (next_poly sum) }
{}
