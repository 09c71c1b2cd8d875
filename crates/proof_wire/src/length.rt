//! The length of a proof.

ghost use Rattle.std.specs.Prelude.{◌≡◌, ◌≤◌, ◌+◌, ◌*◌, ◌^◌, drop};
ghost use Rattle.proof_wire.specs.Spelling.{coefficient_count, length_of};

use crate::form::ProofForm;
use circuit_core::Shape;

/// How many bytes a proof by lines has, for a circuit of this shape.
pub fn proof_len(shape: &Shape) -> u64
    ensures { result ≡ length_of ProofForm.Line shape.now.ks }
{
    proof_len_as(ProofForm::Line, shape)
}

/// How many bytes a proof of this form has, for a circuit of this shape.
pub fn proof_len_as(form: ProofForm, shape: &Shape) -> u64
    ensures { result ≡ length_of form shape.now.ks }
{
    4 + 8 * coefficients(form, shape)
}

/// How many coefficients a proof of this form has, for a circuit of this shape.
pub fn coefficients(form: ProofForm, shape: &Shape) -> u64
    ensures count { result ≡ coefficient_count form (drop 1 shape.now.ks) }
    ensures small { result ≤ 1024 * (7 * 2 ^ 32) }
{
    let mut count = 0;
    for layer in 0..shape.layers() - 1 {
        let k = shape.k(layer + 1) as usize;
        count += (6 * k + (form.last_degree(k) + 1)) as u64;
    }
    count
}
