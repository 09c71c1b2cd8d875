//! The challenges of a run.

ghost use Rattle.std.specs.Prelude.{◌≡◌, ◌+◌, [], ◌∷◌, ◌++◌, IfOk, IsTrue, length};
ghost use Rattle.circuit_core.specs.Sound.{exponent_at};
ghost use Rattle.transcript_fs.specs.Source.{draws, all_draws, state_after, state_after_point};
ghost use Rattle.proof_wire.specs.Lists.{messages_of, all_messages};

use circuit_core::Circuit;
use field_ext::Ext;
use proof_wire::LayerMessages;
use std::alloc::{AllocError, Global};
use transcript_fs::{Challenges, draw_point};

/// Every challenge of a run with these messages: the coordinates of the output point, and one after each message, whatever
/// the messages are. Err only where no memory is found; the challenges may then have moved on.
pub(crate) fn draw_all<C: Challenges>(
    alloc: Global,
    circuit: &Circuit,
    messages: &[LayerMessages],
    challenges: &mut C,
) -> Result<Vec<Ext>, AllocError>
    requires { IsTrue (C.source.has (C.state challenges.old)
        (exponent_at circuit.now.parts 0 + length (all_messages messages.now))) }
    ensures drawn { IfOk result (λ drawn. drawn.items ≡ all_draws C.source (C.state challenges.old)
        (exponent_at circuit.now.parts 0) (all_messages messages.now)) }
    ensures state { IfOk result (λ _. C.state challenges.new ≡ state_after C.source
        (state_after_point C.source (C.state challenges.old)
        (exponent_at circuit.now.parts 0)) (all_messages messages.now)) }
{
    let mut drawn = vec![in alloc; Ext::zero(); circuit.coordinates(0)]?;
    draw_point(&mut drawn, challenges);
    for layer in messages {
        draw_layer(layer, &mut drawn, challenges)?;
    }
    Ok(drawn)
}

/// Takes the messages of a layer in, and adds the challenge after each.
fn draw_layer<C: Challenges>(
    messages: &LayerMessages,
    drawn: &mut Vec<Ext>,
    challenges: &mut C,
) -> Result<(), AllocError>
    requires { IsTrue (C.source.has (C.state challenges.old) (length (messages_of messages.now))) }
    ensures drawn { IfOk result (λ _. drawn.new.items ≡ drawn.old.items ++ draws C.source
        (C.state challenges.old) (messages_of messages.now)) }
    ensures state { IfOk result (λ _. C.state challenges.new ≡ state_after C.source
        (C.state challenges.old) (messages_of messages.now)) }
{
    for round in messages.rounds.as_slice() {
        draw_after(&round.coefficients(), drawn, challenges)?;
    }
    draw_after(messages.last.as_slice(), drawn, challenges)?;
    Ok(())
}

/// Takes a message in, and adds the challenge after it.
fn draw_after<C: Challenges>(
    message: &[Ext],
    drawn: &mut Vec<Ext>,
    challenges: &mut C,
) -> Result<(), AllocError>
    requires { IsTrue (C.source.has (C.state challenges.old) 1) }
    ensures drawn { IfOk result (λ _. drawn.new.items ≡ drawn.old.items ++ draws C.source
        (C.state challenges.old) (message.now ∷ [])) }
    ensures state { IfOk result (λ _. C.state challenges.new ≡ state_after C.source
        (C.state challenges.old) (message.now ∷ [])) }
{
    challenges.absorb(message);
    drawn.push(challenges.challenge())?;
    Ok(())
}
