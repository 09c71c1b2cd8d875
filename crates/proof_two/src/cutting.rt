//! The messages of version 2, cut from the list of their coefficients.

ghost use Rattle.std.specs.Prelude.{◌≡◌, ◌+◌, ◌*◌, IfOk, length, drop};
ghost use Rattle.std.specs.List.{flat_map};
ghost use Rattle.proof_two.specs.Spelling.{all_elements, element_count, layer_elements, pair_of};
ghost use Rattle.proof_two.specs.Lists.{HasPairs, HavePairs};

use crate::pairs::{LayerPairs, Pairs, RoundPair};
use circuit_core::Shape;
use field_ext::Ext;
use proof_wire::Listed;
use std::alloc::{AllocError, Global};

/// The messages with these coefficients, for a circuit of this shape.
pub fn cut(alloc: Global, elements: &[Ext], shape: &Shape) -> Result<Pairs, AllocError>
    requires { length elements.now ≡ element_count (drop 1 shape.now.ks) }
    ensures of { IfOk result (λ pairs. HavePairs (drop 1 shape.now.ks) pairs.layers) }
    ensures all { IfOk result (λ pairs. all_elements pairs.layers ≡ elements.now) }
{
    let mut layers = Vec::with_capacity(alloc, shape.layers() - 1)?;
    let mut from = 0;
    for layer in 0..shape.layers() - 1 {
        let k = shape.k(layer + 1) as usize;
        let next = from + (4 * k + (k + 1));
        layers.push(cut_layer(alloc, &elements[from..next], k)?)?;
        from = next;
    }
    Ok(Pairs {
        layers: Listed::of(layers),
    })
}

fn cut_layer(alloc: Global, elements: &[Ext], k: usize) -> Result<LayerPairs, AllocError>
    requires { length elements.now ≡ 4 * k + (k + 1) }
    ensures shape { IfOk result (λ layer. HasPairs k layer) }
    ensures all { IfOk result (λ layer. layer_elements layer ≡ elements.now) }
{
    let (of_rounds, of_last) = elements.split_at(4 * k);
    Ok(LayerPairs {
        rounds: Listed::of(cut_rounds(alloc, of_rounds, 2 * k)?),
        last: Listed::of(Vec::from_slice(alloc, of_last)?),
    })
}

fn cut_rounds(alloc: Global, elements: &[Ext], count: usize) -> Result<Vec<RoundPair>, AllocError>
    requires { length elements.now ≡ 2 * count }
    ensures count { IfOk result (λ rounds. length rounds.items ≡ count) }
    ensures all { IfOk result (λ rounds. flat_map pair_of rounds.items ≡ elements.now) }
{
    let mut rounds = Vec::with_capacity(alloc, count)?;
    for i in 0..count {
        rounds.push(RoundPair::of([elements[2 * i], elements[2 * i + 1]]))?;
    }
    Ok(rounds)
}
