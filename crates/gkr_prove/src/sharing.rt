//! The messages of all layers by workers.

ghost use Rattle.std.specs.Prelude.{◌≡◌, ◌≤◌, ◌<◌, ◌+◌, ◌^◌, IfOk, IsTrue, length};
ghost use Rattle.field_ext.specs.Field.{K, k_ops};
ghost use Rattle.round_tables.specs.Phase.{IsLayer};
ghost use Rattle.transcript_fs.specs.Source.{draws, state_after};
ghost use Rattle.proof_wire.specs.Lists.{messages_of, HasShape};
ghost use Rattle.phase_run.specs.Work.{IsWorkerCount};
ghost use Rattle.gkr_layers.specs.Honest.{IsHonestLayer};
ghost use Rattle.gkr_layers.specs.Layers.{next_place};
ghost use Rattle.gkr_layers.specs.ClaimPlace.{place_of};
ghost use Rattle.gkr_prove.specs.Kept.{kept_place};
ghost use Rattle.gkr_prove.specs.Rounds.{CanProve, AreProved};

use crate::kept::KeptPlace;
use crate::last::last_with;
use crate::layer::ProvedLayer;
use crate::layers::prove_layers_with;
use crate::rounds::{Alone, ProvedRounds};
use crate::shared::{Shared, share_rounds};
use circuit_core::{Circuit, CircuitGate};
use circuit_eval::Values;
use gkr_layers::ClaimPlace;
use io_edge::Gate;
use mle_table::BaseTable;
use proof_wire::{LayerMessages, Listed, ProofForm};
use round_tables::{Buffers, OpenTables};
use std::alloc::{AllocError, Global};
use std::marker::Sync;
use std::thread::Threads;
use sumcheck_prove::AtGate;
use transcript_fs::Challenges;

/// Where no layer has so many values, no round has four pieces.
const VALUES_TO_MEET: usize = 8192;

/// Proves a layer of at most 1,048,576 gates over the values of the layer below, which are of the base field, at the place of the
/// claim on it, by workers.
fn share_layer<'a, R: Threads + Sync, G: Gate, C: Challenges>(
    shared: &mut Shared<'_, 'a, R, G>,
    alloc: Global,
    form: ProofForm,
    buffers: Buffers,
    gates: &'a [CircuitGate],
    values: &'a BaseTable,
    place: &ClaimPlace<'_>,
    challenges: &mut C,
) -> Result<ProvedLayer, AllocError>
    requires few_ranges { shared.old.gather < 2 ^ 32 }
    requires layer { IsLayer K values.now.k gates.now values.now.items (place_of place.now) }
    requires few { length gates.now ≤ 1048576 }
    requires has { IsTrue
        (C.source.has (C.state challenges.old) (values.now.k + values.now.k + 1)) }
    ensures honest { IfOk result (λ proved. let qs = messages_of proved.messages in
        IsHonestLayer form values.now.k gates.now values.now.items (place_of place.now) qs
        (draws C.source (C.state challenges.old) qs)) }
    ensures shape { IfOk result (λ proved. HasShape form values.now.k proved.messages) }
    ensures place { IfOk result
        (λ proved. kept_place proved.place ≡ next_place k_ops form values.now.k
        (draws C.source (C.state challenges.old) (messages_of proved.messages))) }
    ensures state { IfOk result
        (λ proved. C.state challenges.new ≡ state_after C.source (C.state challenges.old)
        (messages_of proved.messages)) }
    ensures few { IfOk result (λ _. shared.new.gather < 2 ^ 32) }
{
    let k = values.k() as usize;
    let tables = OpenTables::start_at(buffers, gates, values, place)?;
    let ProvedRounds {
        messages,
        drawn,
        buffers,
        line,
    } = share_rounds(shared, alloc, form, tables, values, challenges)?;
    let (left, right) = drawn.as_slice().split_at(k);
    let last = last_with(alloc, form, values, left, right, line)?;
    challenges.absorb(&last);
    let challenge = challenges.challenge();
    let next = KeptPlace::between(alloc, form, left, right, challenge)?;
    Ok(ProvedLayer {
        messages: LayerMessages {
            rounds: Listed::of(messages),
            last: Listed::of(last),
        },
        place: next,
        buffers,
    })
}

/// Proves all layers, the output layer first, from the place of the claim on it, in the same buffers, by workers.
fn share_layers<'a, R: Threads + Sync, G: Gate, C: Challenges>(
    shared: &mut Shared<'_, 'a, R, G>,
    alloc: Global,
    form: ProofForm,
    circuit: &'a Circuit,
    values: &'a Values,
    mut buffers: Buffers,
    mut place: KeptPlace,
    challenges: &mut C,
) -> Result<Vec<LayerMessages>, AllocError>
    requires few { shared.old.gather < 2 ^ 32 }
    requires can { CanProve C.source circuit.now.parts values.now (kept_place place)
        (C.state challenges.old) }
    ensures { IfOk result (λ layers. AreProved C.source form circuit.now.parts values.now
        (kept_place place) (C.state challenges.old) layers.items (C.state challenges.new)) }
{
    let mut messages = Vec::new(alloc);
    for layer in 0..circuit.height() {
        let proved = share_layer(
            shared,
            alloc,
            form,
            buffers,
            circuit.gates(layer),
            values.table(layer + 1),
            &place.claim_place(),
            challenges,
        )?;
        let ProvedLayer {
            messages: layer_messages,
            place: next,
            buffers: used,
        } = proved;
        messages.push(layer_messages)?;
        place = next;
        buffers = used;
    }
    Ok(messages)
}

/// The most gates or values that a layer of a circuit has.
pub(crate) fn widest_layer(circuit: &Circuit) -> usize {
    let mut widest = 0;
    for layer in 0..circuit.height() + 1 {
        widest = widest.max(circuit.width(layer));
    }
    widest
}

/// Proves all layers, the output layer first, from the place of the claim on it, in the same buffers: by workers, where there are several
/// and a round has four pieces, or else on the calling thread, as worker 0.
pub(crate) fn prove_layers<R: Threads + Sync, C: Challenges, G: Gate>(
    rt: &R,
    alloc: Global,
    form: ProofForm,
    circuit: &Circuit,
    values: &Values,
    buffers: Buffers,
    place: KeptPlace,
    challenges: &mut C,
    workers: u32,
    gate: &G,
) -> Result<Vec<LayerMessages>, AllocError>
    requires workers { IsWorkerCount workers }
    requires can { CanProve C.source circuit.now.parts values.now (kept_place place)
        (C.state challenges.old) }
    ensures { IfOk result (λ layers. AreProved C.source form circuit.now.parts values.now
        (kept_place place) (C.state challenges.old) layers.items (C.state challenges.new)) }
{
    let widest = widest_layer(circuit);
    if workers == 1 || widest < VALUES_TO_MEET {
        let mut alone = Alone {
            entry: AtGate::new(gate),
        };
        return prove_layers_with(
            alloc, form, circuit, values, buffers, place, challenges, &mut alone,
        );
    }
    let mut shared = Shared::new(rt, alloc, workers, gate, widest)?;
    share_layers(
        &mut shared,
        alloc,
        form,
        circuit,
        values,
        buffers,
        place,
        challenges,
    )
}
