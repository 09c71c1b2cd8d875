//! The prover on the calling thread.

ghost use Rattle.std.specs.Prelude.{◌≡◌, List, IfOk, IsTrue, drop};
ghost use Rattle.field_ext.specs.Field.{F};
ghost use Rattle.circuit_core.specs.Sound.{exponent_at, exponents};
ghost use Rattle.circuit_eval.specs.Tables.{AreTables};
ghost use Rattle.gkr_layers.specs.Layers.{challenges_of};
ghost use Rattle.transcript_fs.specs.Source.{state_after, state_after_point};
ghost use Rattle.proof_wire.specs.Lists.{all_messages, HaveShape};
ghost use Rattle.gkr_layers.specs.Honest.{AreHonestMessages};

use crate::kept::KeptPlace;
use crate::layers::prove_layers_with;
use crate::prover::buffers_for;
use crate::rounds::Alone;
use circuit_core::Circuit;
use circuit_eval::Values;
use field_ext::Ext;
use io_edge::Gate;
use proof_wire::{Listed, Messages, ProofForm};
use std::alloc::{AllocError, Global};
use sumcheck_prove::AtGate;
use transcript_fs::{Challenges, draw_point};

/// The honest messages of this form, as [`crate::prove_as`] gives them, worked by the calling
/// thread alone: it enters the gate with each piece of a round. It takes no handle, so a library
/// may call it, and it returns.
pub fn prove_alone<C: Challenges, G: Gate>(
    alloc: Global,
    form: ProofForm,
    circuit: &Circuit,
    values: &Values,
    challenges: &mut C,
    gate: &G,
) -> Result<Messages, AllocError>
    requires values { (inputs : List F) × AreTables circuit.now.parts inputs values.now }
    requires has { IsTrue
        (C.source.has (C.state challenges.old) (challenges_of circuit.now.parts)) }
    ensures honest { IfOk result (λ messages. (inputs : List F)
        → AreTables circuit.now.parts inputs values.now →
        AreHonestMessages form circuit.now.parts inputs C.source (C.state challenges.old)
        (all_messages messages.layers)) }
    ensures state { IfOk result (λ messages. C.state challenges.new
        ≡ state_after C.source (state_after_point C.source (C.state challenges.old)
        (exponent_at circuit.now.parts 0)) (all_messages messages.layers)) }
    ensures shape { IfOk result
        (λ messages. HaveShape form (drop 1 (exponents circuit.now.parts)) messages.layers) }
{
    let mut point = vec![in alloc; Ext::zero(); circuit.coordinates(0)]?;
    draw_point(&mut point, challenges);
    let place = KeptPlace::at(alloc, point);
    let buffers = buffers_for(alloc, circuit)?;
    let mut prover = Alone {
        entry: AtGate::new(gate),
    };
    let layers = prove_layers_with(
        alloc,
        form,
        circuit,
        values,
        buffers,
        place,
        challenges,
        &mut prover,
    )?;
    Ok(Messages {
        layers: Listed::of(layers),
    })
}
