//! A table that is folded and evaluated.

ghost use Rattle.std.specs.Prelude.{◌≡◌, ◌+◌, ◌∷◌, length, IfOk};
ghost use Rattle.field_ext.specs.Field.{k_ops};
ghost use Rattle.field_ext.specs.Multilinear.{extension_at};

use field_ext::Ext;
use mle_table::Table;
use mle_table::laws::fold_binds;
use std::alloc::{AllocError, Global};

/// Binds a table's first coordinate, and evaluates what is left at the others: the value of its extension at the whole
/// point.
pub fn fold_and_evaluate(
    alloc: Global,
    mut table: Table,
    first: Ext,
    others: &[Ext],
) -> Result<Ext, AllocError>
    requires { length others.now + 1 ≡ table.k }
    ensures { IfOk result
        (λ x. x ≡ extension_at k_ops k_ops (λ y. y) table.items (first ∷ others.now)) }
{
    fold_binds();
    table.fold(first);
    table.eval_at(alloc, others)
}
