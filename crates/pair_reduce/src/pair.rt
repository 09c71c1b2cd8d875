//! The values at both operands' points.

ghost use Rattle.std.specs.Prelude.{◌≡◌, IfOk, length};
ghost use Rattle.field_ext.specs.Field.{k_ops};
ghost use Rattle.proof_wire.specs.declared.form.ProofForm.TheVariants.{Pair};
ghost use Rattle.gkr_layers.specs.Forms.{last_polynomial};

use field_ext::Ext;
use mle_table::BaseTable;
use std::alloc::{AllocError, Global};

/// The values of a table's extension at `b` and at `c`. Err only where no memory is found.
pub fn pair_at(
    alloc: Global,
    table: &BaseTable,
    b: &[Ext],
    c: &[Ext],
) -> Result<[Ext; 2], AllocError>
    requires left { length b.now ≡ table.now.k }
    requires right { length c.now ≡ table.now.k }
    ensures { IfOk result (λ pair. pair ≡ last_polynomial k_ops Pair table.now.items b.now c.now) }
{
    let left = table.eval_at(alloc, b)?;
    let right = table.eval_at(alloc, c)?;
    Ok([left, right])
}
