//! The last message of a layer.

ghost use Rattle.std.specs.Prelude.{◌≡◌, ◌≤◌, ◌+◌, IfOk, IfSome, length};
ghost use Rattle.field_ext.specs.Field.{k_ops};
ghost use Rattle.field_ext.specs.Polynomial.{coefficients};
ghost use Rattle.gkr_layers.specs.Forms.{last_polynomial};
ghost use Rattle.gkr_layers.specs.Sumcheck.{line_polynomial};
ghost use Rattle.proof_wire.specs.Forms.{last_degree};

use field_ext::Ext;
use line_reduce::line_poly;
use mle_table::BaseTable;
use pair_reduce::pair_at;
use proof_wire::ProofForm;
use std::alloc::{AllocError, Global};

/// The true last message of a layer over the values of the layer below, for the points of the two operands: the polynomial
/// of the line between them, or the pair of values there. Err only where no memory is found.
pub fn last_message(
    alloc: Global,
    form: ProofForm,
    values: &BaseTable,
    left: &[Ext],
    right: &[Ext],
) -> Result<Vec<Ext>, AllocError>
    requires most { values.now.k ≤ 20 }
    requires left { length left.now ≡ values.now.k }
    requires right { length right.now ≡ values.now.k }
    ensures { IfOk result (λ last. last.items ≡ coefficients k_ops
        (last_degree form values.now.k + 1)
        (last_polynomial k_ops form values.now.items left.now right.now)) }
{
    match form {
        ProofForm::Line => {
            let line = line_poly(alloc, values, left, right)?;
            Vec::from_slice(alloc, line.coefficients())
        }
        ProofForm::Pair => {
            let pair = pair_at(alloc, values, left, right)?;
            Vec::from_slice(alloc, &pair)
        }
    }
}

/// The same message, where the coefficients of the line may be known already.
pub(crate) fn last_with(
    alloc: Global,
    form: ProofForm,
    values: &BaseTable,
    left: &[Ext],
    right: &[Ext],
    line: Option<Vec<Ext>>,
) -> Result<Vec<Ext>, AllocError>
    requires most { values.now.k ≤ 20 }
    requires left { length left.now ≡ values.now.k }
    requires right { length right.now ≡ values.now.k }
    requires line { IfSome line (λ line. line.items ≡ coefficients k_ops (values.now.k + 1)
        (line_polynomial k_ops values.now.items left.now right.now)) }
    ensures { IfOk result (λ last. last.items ≡ coefficients k_ops
        (last_degree form values.now.k + 1)
        (last_polynomial k_ops form values.now.items left.now right.now)) }
{
    let Some(line) = line else {
        return last_message(alloc, form, values, left, right);
    };
    match form {
        ProofForm::Line => Ok(line),
        ProofForm::Pair => last_message(alloc, form, values, left, right),
    }
}
