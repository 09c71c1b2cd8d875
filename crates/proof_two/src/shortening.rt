//! Leaving the middle coefficients out.

ghost use Rattle.std.specs.Prelude.{◌≡◌, ℕ, IfOk, List, map};
ghost use Rattle.proof_wire.specs.declared.form.ProofForm.{ProofForm};
ghost use Rattle.proof_wire.specs.Lists.{HaveShape};
ghost use Rattle.proof_two.specs.Lists.{HavePairs, short_layer, short_round, shortened};

use crate::pairs::{LayerPairs, Pairs, RoundPair};
use proof_wire::{LayerMessages, Listed, Messages, Round};
use std::alloc::{AllocError, Global};

/// The messages of a proof by lines without the middle coefficient of each round. An error where no memory is left.
pub fn shorten(alloc: Global, messages: &Messages) -> Result<Pairs, AllocError>
    ensures value { IfOk result (λ pairs. pairs ≡ shortened messages.now) }
    ensures shape { IfOk result
        (λ pairs. (ks : List ℕ) → HaveShape ProofForm.Line ks messages.now.layers
        → HavePairs ks pairs.layers) }
{
    let from = messages.layers.as_slice();
    let mut layers = Vec::with_capacity(alloc, from.len())?;
    for layer in from {
        layers.push(shorten_layer(alloc, layer)?)?;
    }
    Ok(Pairs {
        layers: Listed::of(layers),
    })
}

fn shorten_layer(alloc: Global, layer: &LayerMessages) -> Result<LayerPairs, AllocError>
    ensures { IfOk result (λ short. short ≡ short_layer layer.now) }
{
    Ok(LayerPairs {
        rounds: Listed::of(shorten_rounds(alloc, layer.rounds.as_slice())?),
        last: Listed::of(Vec::from_slice(alloc, layer.last.as_slice())?),
    })
}

fn shorten_rounds(alloc: Global, from: &[Round]) -> Result<Vec<RoundPair>, AllocError>
    ensures { IfOk result (λ rounds. rounds.items ≡ map short_round from.now) }
{
    let mut rounds = Vec::with_capacity(alloc, from.len())?;
    for round in from {
        rounds.push(RoundPair {
            c0: round.c0,
            c2: round.c2,
        })?;
    }
    Ok(rounds)
}
