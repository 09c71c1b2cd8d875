//! The prover.

ghost use Rattle.std.specs.Prelude.{◌≡◌, ◌+◌, List, IfOk, IsTrue, drop};
ghost use Rattle.field_ext.specs.Field.{F};
ghost use Rattle.circuit_core.specs.Sound.{exponent_at, exponents};
ghost use Rattle.circuit_eval.specs.Tables.{AreTables};
ghost use Rattle.gkr_layers.specs.Layers.{challenges_of};
ghost use Rattle.transcript_fs.specs.Source.{state_after, state_after_point};
ghost use Rattle.phase_run.specs.Work.{IsWorkerCount};
ghost use Rattle.proof_wire.specs.Lists.{all_messages, HaveShape};
ghost use Rattle.gkr_layers.specs.Honest.{AreHonestMessages, IsHonestProof};

use crate::kept::KeptPlace;
use crate::sharing::{prove_layers, widest_layer};
use circuit_core::Circuit;
use circuit_eval::Values;
use field_ext::Ext;
use io_edge::Gate;
use pair_reduce::PairMessages;
use proof_wire::{Listed, Messages, ProofForm};
use round_tables::Buffers;
use std::alloc::{AllocError, Global};
use std::marker::Sync;
use std::thread::Threads;
use transcript_fs::{Challenges, draw_point};

/// The honest messages by lines of a circuit with these values of its layers, which are its values for some inputs, and
/// challenges from a source that has enough of them. They are of the circuit's shape, and all are taken in. Err only where no
/// memory is found; the challenges may then have moved on. They are the same for every number of workers, which share the wide
/// stages of a proof, and its first round of four pieces or more: each enters the gate with each part that it claims. One worker enters it
/// with each piece of a round.
pub fn prove<R: Threads + Sync, C: Challenges, G: Gate>(
    rt: &R,
    alloc: Global,
    circuit: &Circuit,
    values: &Values,
    challenges: &mut C,
    workers: u32,
    gate: &G,
) -> Result<Messages, AllocError>
    requires workers { IsWorkerCount workers }
    requires values { (inputs : List F) × AreTables circuit.now.parts inputs values.now }
    requires has { IsTrue
        (C.source.has (C.state challenges.old) (challenges_of circuit.now.parts)) }
    ensures honest { IfOk result (λ messages. (inputs : List F)
        → AreTables circuit.now.parts inputs values.now →
        IsHonestProof circuit.now.parts inputs C.source (C.state challenges.old)
        (all_messages messages.layers)) }
    ensures state { IfOk result (λ messages. C.state challenges.new
        ≡ state_after C.source (state_after_point C.source (C.state challenges.old)
        (exponent_at circuit.now.parts 0)) (all_messages messages.layers)) }
    ensures shape { IfOk result
        (λ messages. HaveShape ProofForm.Line (drop 1 (exponents circuit.now.parts))
        messages.layers) }
{
    prove_as(
        rt,
        alloc,
        ProofForm::Line,
        circuit,
        values,
        challenges,
        workers,
        gate,
    )
}

/// The honest messages by pairs, as [`prove`] gives those by lines.
pub fn prove_pair<R: Threads + Sync, C: Challenges, G: Gate>(
    rt: &R,
    alloc: Global,
    circuit: &Circuit,
    values: &Values,
    challenges: &mut C,
    workers: u32,
    gate: &G,
) -> Result<PairMessages, AllocError>
    requires workers { IsWorkerCount workers }
    requires values { (inputs : List F) × AreTables circuit.now.parts inputs values.now }
    requires has { IsTrue
        (C.source.has (C.state challenges.old) (challenges_of circuit.now.parts)) }
    ensures honest { IfOk result (λ messages. (inputs : List F)
        → AreTables circuit.now.parts inputs values.now →
        AreHonestMessages ProofForm.Pair circuit.now.parts inputs C.source (C.state challenges.old)
        (all_messages messages.layers)) }
    ensures state { IfOk result (λ messages. C.state challenges.new
        ≡ state_after C.source (state_after_point C.source (C.state challenges.old)
        (exponent_at circuit.now.parts 0)) (all_messages messages.layers)) }
    ensures shape { IfOk result
        (λ messages. HaveShape ProofForm.Pair (drop 1 (exponents circuit.now.parts))
        messages.layers) }
{
    prove_as(
        rt,
        alloc,
        ProofForm::Pair,
        circuit,
        values,
        challenges,
        workers,
        gate,
    )
}

/// The honest messages of this form, as [`prove`] gives those by lines.
pub fn prove_as<R: Threads + Sync, C: Challenges, G: Gate>(
    rt: &R,
    alloc: Global,
    form: ProofForm,
    circuit: &Circuit,
    values: &Values,
    challenges: &mut C,
    workers: u32,
    gate: &G,
) -> Result<Messages, AllocError>
    requires workers { IsWorkerCount workers }
    requires values { (inputs : List F) × AreTables circuit.now.parts inputs values.now }
    requires has { IsTrue
        (C.source.has (C.state challenges.old) (challenges_of circuit.now.parts)) }
    ensures honest { IfOk result (λ messages. (inputs : List F)
        → AreTables circuit.now.parts inputs values.now →
        AreHonestMessages form circuit.now.parts inputs C.source (C.state challenges.old)
        (all_messages messages.layers)) }
    ensures state { IfOk result (λ messages. C.state challenges.new
        ≡ state_after C.source (state_after_point C.source (C.state challenges.old)
        (exponent_at circuit.now.parts 0)) (all_messages messages.layers)) }
    ensures shape { IfOk result
        (λ messages. HaveShape form (drop 1 (exponents circuit.now.parts)) messages.layers) }
{
    let mut point = vec![in alloc; Ext::zero(); circuit.coordinates(0)]?;
    draw_point(&mut point, challenges);
    let place = KeptPlace::at(alloc, point);
    let buffers = buffers_for(alloc, circuit)?;
    let layers = prove_layers(
        rt, alloc, form, circuit, values, buffers, place, challenges, workers, gate,
    )?;
    Ok(Messages {
        layers: Listed::of(layers),
    })
}

/// Buffers for the working tables of any layer of a circuit. Err only where no memory is found.
pub fn buffers_for(alloc: Global, circuit: &Circuit) -> Result<Buffers, AllocError> {
    let widest = widest_layer(circuit);
    Buffers::new(alloc, widest, widest)
}
