//! The law of folding.

ghost use Rattle.std.specs.Prelude.{◌≡◌, List, ◌∷◌};
ghost use Rattle.field_ext.specs.Field.{K, k_ops};
ghost use Rattle.field_ext.specs.Multilinear.{extension_at, folded};

/// To fold a table is to bind the first coordinate of its extension.
pub fn fold_binds()
    ensures { (t us : List K) (r : K)
        → extension_at k_ops k_ops (λ x. x) (folded k_ops t r) us ≡ extension_at k_ops k_ops
        (λ x. x) t (r ∷ us) }
{}
