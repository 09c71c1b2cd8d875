//! The messages of a proof of version 2, filled in.

ghost use Rattle.std.specs.Prelude.{◌≡◌, ◌≤◌, ◌<◌, ◌^◌, [], ◌∷◌, ◌++◌, true, false, IfOk, IsTrue, length, drop, map};
ghost use Rattle.field_ext.specs.Field.{k_ops, embed_k};
ghost use Rattle.field_ext.specs.Multilinear.{extension_at};
ghost use Rattle.circuit_core.specs.Parts.{padded_values};
ghost use Rattle.circuit_core.specs.Sound.{exponent_at, exponents};
ghost use Rattle.transcript_fs.specs.Source.{all_draws, draws, point_draws, state_after, state_after_point};
ghost use Rattle.proof_wire.specs.Spelling.{coefficients_of};
ghost use Rattle.proof_wire.specs.Lists.{all_messages, messages_of, round_messages, HaveShape};
ghost use Rattle.proof_two.specs.Lists.{HavePairs};
ghost use Rattle.gkr_layers.specs.Layers.{challenges_of};
ghost use Rattle.gkr_verify.specs.ShortProof.{filled, filled_layer, filled_layers, filled_round, filled_rounds, next_claim, output_claim};

use crate::extension::values_extension;
use circuit_core::Circuit;
use field_ext::{Ext, Fp};
use poly_roots::value_at;
use proof_two::{LayerPairs, Pairs, RoundPair};
use proof_wire::{LayerMessages, Listed, Messages, ProofForm, Round};
use std::alloc::{AllocError, Global};
use sumcheck_verify::Rounds;
use transcript_fs::{Challenges, draw_point};

/// All messages of a proof, and the challenges that were drawn with them: the coordinates of the output point, and one
/// after each message.
#[derive(Drop)]
pub(crate) struct Filled {
    pub(crate) messages: Messages,
    pub(crate) drawn: Vec<Ext>,
}

/// A layer's messages, and the claim on the layer below.
#[derive(Drop)]
struct FilledLayer {
    messages: LayerMessages,
    claim: Ext,
}

/// The output point, and the claim on the outputs there.
#[derive(Drop)]
pub(crate) struct AtOutputs {
    pub(crate) point: Vec<Ext>,
    pub(crate) claim: Ext,
}

/// Fills in the messages of a proof of version 2 that the circuit has these outputs, with challenges from a source that has
/// enough of them: as many outputs as the circuit has, and messages of its shape. Each round gets the middle coefficient
/// with which its values at 0 and at 1 add to the claim. Err only where no memory is found; the challenges have then moved
/// on.
pub fn fill<C: Challenges>(
    alloc: Global,
    circuit: &Circuit,
    outputs: &[Fp],
    pairs: &Pairs,
    challenges: &mut C,
) -> Result<Messages, AllocError>
    requires outputs { length outputs.now ≡ circuit.now.parts.outputs }
    requires shape { HavePairs (drop 1 (exponents circuit.now.parts)) pairs.now.layers }
    requires has { IsTrue
        (C.source.has (C.state challenges.old) (challenges_of circuit.now.parts)) }
    ensures messages { IfOk result (λ messages. messages ≡ filled circuit.now.parts outputs.now
        C.source (C.state challenges.old) pairs.now) }
    ensures shape { IfOk result (λ messages. HaveShape ProofForm.Line
        (drop 1 (exponents circuit.now.parts)) messages.layers) }
    ensures state { IfOk result (λ messages. C.state challenges.new ≡ state_after C.source
        (state_after_point C.source (C.state challenges.old) (exponent_at circuit.now.parts 0))
        (all_messages messages.layers)) }
{
    Ok(fill_drawn(alloc, circuit, outputs, pairs, challenges)?.messages)
}

/// Fills in the messages, and keeps the challenges.
pub(crate) fn fill_drawn<C: Challenges>(
    alloc: Global,
    circuit: &Circuit,
    outputs: &[Fp],
    pairs: &Pairs,
    challenges: &mut C,
) -> Result<Filled, AllocError>
    requires outputs { length outputs.now ≡ circuit.now.parts.outputs }
    requires shape { HavePairs (drop 1 (exponents circuit.now.parts)) pairs.now.layers }
    requires has { IsTrue
        (C.source.has (C.state challenges.old) (challenges_of circuit.now.parts)) }
    ensures messages { IfOk result (λ made. made.messages ≡ filled circuit.now.parts outputs.now
        C.source (C.state challenges.old) pairs.now) }
    ensures shape { IfOk result (λ made. HaveShape ProofForm.Line
        (drop 1 (exponents circuit.now.parts)) made.messages.layers) }
    ensures drawn { IfOk result (λ made. made.drawn.items ≡ all_draws C.source
        (C.state challenges.old) (exponent_at circuit.now.parts 0)
        (all_messages made.messages.layers)) }
    ensures state { IfOk result (λ made. C.state challenges.new ≡ state_after C.source
        (state_after_point C.source (C.state challenges.old) (exponent_at circuit.now.parts 0))
        (all_messages made.messages.layers)) }
{
    let start = start(alloc, circuit, outputs, challenges)?;
    let mut drawn = start.point;
    let from = pairs.layers.as_slice();
    let layers = fill_layers(alloc, from, start.claim, &mut drawn, challenges)?;
    Ok(Filled {
        messages: Messages {
            layers: Listed::of(layers),
        },
        drawn,
    })
}

/// Draws the output point.
pub(crate) fn start<C: Challenges>(
    alloc: Global,
    circuit: &Circuit,
    outputs: &[Fp],
    challenges: &mut C,
) -> Result<AtOutputs, AllocError>
    requires outputs { length outputs.now ≡ circuit.now.parts.outputs }
    requires has { IsTrue
        (C.source.has (C.state challenges.old) (exponent_at circuit.now.parts 0)) }
    ensures point { IfOk result (λ made. made.point.items ≡ point_draws C.source
        (C.state challenges.old) (exponent_at circuit.now.parts 0)) }
    ensures claim { IfOk result (λ made. made.claim ≡ output_claim circuit.now.parts outputs.now
        C.source (C.state challenges.old)) }
    ensures state { IfOk result (λ made. C.state challenges.new ≡ state_after_point C.source
        (C.state challenges.old) (exponent_at circuit.now.parts 0)) }
{
    let mut point = vec![in alloc; Ext::zero(); circuit.coordinates(0)]?;
    let claim = claim_there(outputs, &mut point, challenges);
    Ok(AtOutputs { point, claim })
}

/// Draws the coordinates of a point, and gives the extension of 0, the outputs and zeros there.
pub(crate) fn claim_there<C: Challenges>(
    outputs: &[Fp],
    point: &mut [Ext],
    challenges: &mut C,
) -> Ext
    requires few { length point.old ≤ 20 }
    requires fits { length outputs.now < 2 ^ length point.old }
    requires has { IsTrue (C.source.has (C.state challenges.old) (length point.old)) }
    ensures point { point.new ≡ point_draws C.source (C.state challenges.old) (length point.old) }
    ensures claim { result ≡ extension_at k_ops k_ops
        (λ x. x) (map embed_k (padded_values (2 ^ length point.old) outputs.now))
        (point_draws C.source (C.state challenges.old) (length point.old)) }
    ensures state { C.state challenges.new ≡ state_after_point C.source (C.state challenges.old)
        (length point.old) }
{
    draw_point(point, challenges);
    values_extension(outputs, point)
}

/// Fills in the messages of layers from the claim on the first, and adds the challenges to those drawn before.
fn fill_layers<C: Challenges>(
    alloc: Global,
    layers: &[LayerPairs],
    first: Ext,
    drawn: &mut Vec<Ext>,
    challenges: &mut C,
) -> Result<Vec<LayerMessages>, AllocError>
    requires has { IsTrue (C.source.has (C.state challenges.old) (length (all_messages
        (filled_layers C.source (C.state challenges.old) first layers.now)))) }
    ensures messages { IfOk result (λ made. made.items ≡ filled_layers C.source
        (C.state challenges.old) first layers.now) }
    ensures drawn { IfOk result (λ made. drawn.new.items ≡ drawn.old.items ++ draws C.source
        (C.state challenges.old) (all_messages made.items)) }
    ensures state { IfOk result (λ made. C.state challenges.new ≡ state_after C.source
        (C.state challenges.old) (all_messages made.items)) }
{
    let mut made = Vec::with_capacity(alloc, layers.len())?;
    let mut claim = first;
    for layer in layers {
        let next = fill_layer(alloc, layer, claim, drawn, challenges)?;
        claim = next.claim;
        made.push(next.messages)?;
    }
    Ok(made)
}

/// Fills in the messages of a layer.
fn fill_layer<C: Challenges>(
    alloc: Global,
    layer: &LayerPairs,
    claim: Ext,
    drawn: &mut Vec<Ext>,
    challenges: &mut C,
) -> Result<FilledLayer, AllocError>
    requires has { IsTrue (C.source.has (C.state challenges.old)
        (length (messages_of (filled_layer C.source (C.state challenges.old) claim layer.now)))) }
    ensures messages { IfOk result (λ made. made.messages ≡ filled_layer C.source
        (C.state challenges.old) claim layer.now) }
    ensures claim { IfOk result (λ made. made.claim ≡ next_claim C.source
        (C.state challenges.old) made.messages) }
    ensures drawn { IfOk result (λ made. drawn.new.items ≡ drawn.old.items ++ draws C.source
        (C.state challenges.old) (messages_of made.messages)) }
    ensures state { IfOk result (λ made. C.state challenges.new ≡ state_after C.source
        (C.state challenges.old) (messages_of made.messages)) }
{
    let rounds = fill_rounds(alloc, layer.rounds.as_slice(), claim, drawn, challenges)?;
    let last = Vec::from_slice(alloc, layer.last.as_slice())?;
    let challenge = draw_after(&last, drawn, challenges)?;
    Ok(FilledLayer {
        claim: value_at(&last, challenge),
        messages: LayerMessages {
            rounds: Listed::of(rounds),
            last: Listed::of(last),
        },
    })
}

/// Fills in the messages of rounds.
fn fill_rounds<C: Challenges>(
    alloc: Global,
    pairs: &[RoundPair],
    claim: Ext,
    drawn: &mut Vec<Ext>,
    challenges: &mut C,
) -> Result<Vec<Round>, AllocError>
    requires has { IsTrue (C.source.has (C.state challenges.old) (length pairs.now)) }
    ensures messages { IfOk result (λ made. made.items ≡ filled_rounds C.source
        (C.state challenges.old) claim pairs.now) }
    ensures drawn { IfOk result (λ made. drawn.new.items ≡ drawn.old.items ++ draws C.source
        (C.state challenges.old) (round_messages made.items)) }
    ensures state { IfOk result (λ made. C.state challenges.new ≡ state_after C.source
        (C.state challenges.old) (round_messages made.items)) }
{
    let mut made = Vec::with_capacity(alloc, pairs.len())?;
    let mut rounds = Rounds::start(claim);
    for pair in pairs {
        let coefficients = fill_round(pair, &mut rounds);
        made.push(Round::of(coefficients))?;
        let challenge = draw_after(&coefficients, drawn, challenges)?;
        rounds.bind(challenge);
    }
    Ok(made)
}

/// Fills in the message of the next round.
fn fill_round(pair: &RoundPair, rounds: &mut Rounds) -> [Ext; 3]
    requires { rounds.old.waiting ≡ false }
    ensures message { result ≡ coefficients_of (filled_round rounds.old.claim pair.now) }
    ensures taken { rounds.new.message ≡ result }
    ensures waiting { rounds.new.waiting ≡ true }
{
    [pair.c0, rounds.take_two(pair.c0, pair.c2), pair.c2]
}

/// Takes a message in, and adds the challenge after it to those drawn before.
fn draw_after<C: Challenges>(
    message: &[Ext],
    drawn: &mut Vec<Ext>,
    challenges: &mut C,
) -> Result<Ext, AllocError>
    requires has { IsTrue (C.source.has (C.state challenges.old) 1) }
    ensures value { IfOk result
        (λ r. r ≡ C.source.draw (C.source.absorb (C.state challenges.old) message.now)) }
    ensures drawn { IfOk result (λ r. drawn.new.items ≡ drawn.old.items ++ r ∷ []) }
    ensures state { IfOk result (λ r. C.state challenges.new ≡ C.source.after (C.source.absorb
        (C.state challenges.old) message.now)) }
{
    challenges.absorb(message);
    let challenge = challenges.challenge();
    drawn.push(challenge)?;
    Ok(challenge)
}
