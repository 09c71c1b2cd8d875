//! The messages of a form, cut from the list of their coefficients.

ghost use Rattle.std.specs.Prelude.{◌≡◌, ◌+◌, ◌*◌, IfOk, length, drop};
ghost use Rattle.std.specs.List.{flat_map};
ghost use Rattle.proof_wire.specs.Forms.{last_degree};
ghost use Rattle.proof_wire.specs.Spelling.{all_coefficients, coefficient_count, coefficients_of, layer_coefficients};
ghost use Rattle.proof_wire.specs.Lists.{HasShape, HaveShape};

use crate::form::ProofForm;
use crate::listed::Listed;
use crate::messages::{LayerMessages, Messages, Round};
use circuit_core::Shape;
use field_ext::Ext;
use std::alloc::{AllocError, Global};

/// The messages of this form with these coefficients, for a circuit of this shape.
pub fn cut(
    alloc: Global,
    elements: &[Ext],
    form: ProofForm,
    shape: &Shape,
) -> Result<Messages, AllocError>
    requires { length elements.now ≡ coefficient_count form (drop 1 shape.now.ks) }
    ensures of { IfOk result (λ messages. HaveShape form (drop 1 shape.now.ks) messages.layers) }
    ensures all { IfOk result (λ messages. all_coefficients messages.layers ≡ elements.now) }
{
    let mut layers = Vec::with_capacity(alloc, shape.layers() - 1)?;
    let mut from = 0;
    for layer in 0..shape.layers() - 1 {
        let k = shape.k(layer + 1) as usize;
        let next = from + (6 * k + (form.last_degree(k) + 1));
        layers.push(cut_layer(alloc, &elements[from..next], form, k)?)?;
        from = next;
    }
    Ok(Messages {
        layers: Listed::of(layers),
    })
}

fn cut_layer(
    alloc: Global,
    elements: &[Ext],
    form: ProofForm,
    k: usize,
) -> Result<LayerMessages, AllocError>
    requires { length elements.now ≡ 6 * k + (last_degree form k + 1) }
    ensures shape { IfOk result (λ layer. HasShape form k layer) }
    ensures all { IfOk result (λ layer. layer_coefficients layer ≡ elements.now) }
{
    let (of_rounds, of_last) = elements.split_at(6 * k);
    Ok(LayerMessages {
        rounds: Listed::of(cut_rounds(alloc, of_rounds, 2 * k)?),
        last: Listed::of(Vec::from_slice(alloc, of_last)?),
    })
}

fn cut_rounds(alloc: Global, elements: &[Ext], count: usize) -> Result<Vec<Round>, AllocError>
    requires { length elements.now ≡ 3 * count }
    ensures count { IfOk result (λ rounds. length rounds.items ≡ count) }
    ensures all { IfOk result (λ rounds. flat_map coefficients_of rounds.items ≡ elements.now) }
{
    let mut rounds = Vec::with_capacity(alloc, count)?;
    for i in 0..count {
        rounds.push(Round::of([elements[3 * i], elements[3 * i + 1], elements[3 * i + 2]]))?;
    }
    Ok(rounds)
}
