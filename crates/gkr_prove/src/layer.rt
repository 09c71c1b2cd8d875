//! The messages of one layer.

ghost use Rattle.std.specs.Prelude.{◌≡◌, ◌≤◌, ◌+◌, IfOk, IsTrue, length};
ghost use Rattle.field_ext.specs.Field.{K, k_ops};
ghost use Rattle.round_tables.specs.Phase.{IsLayer};
ghost use Rattle.transcript_fs.specs.Source.{draws, state_after};
ghost use Rattle.proof_wire.specs.Lists.{messages_of, HasShape};
ghost use Rattle.gkr_layers.specs.Honest.{IsHonestLayer};
ghost use Rattle.gkr_layers.specs.Layers.{next_place};
ghost use Rattle.gkr_layers.specs.ClaimPlace.{place_of};
ghost use Rattle.gkr_prove.specs.Kept.{kept_place};

use crate::kept::KeptPlace;
use crate::last::last_with;
use crate::rounds::{ProvedRounds, Rounds};
use circuit_core::CircuitGate;
use gkr_layers::ClaimPlace;
use mle_table::BaseTable;
use proof_wire::{LayerMessages, Listed, ProofForm};
use round_tables::{Buffers, OpenTables};
use std::alloc::{AllocError, Global};
use transcript_fs::Challenges;

/// A layer's messages, the place of the claim that they lead to, and the buffers that it used.
#[derive(Drop)]
pub(crate) struct ProvedLayer {
    pub(crate) messages: LayerMessages,
    pub(crate) place: KeptPlace,
    pub(crate) buffers: Buffers,
}

/// Proves a layer of at most 1,048,576 gates over the values of the layer below, which are of the base field, at the place of the
/// claim on it.
pub(crate) fn prove_layer<'a, C: Challenges, P: Rounds<'a>>(
    alloc: Global,
    form: ProofForm,
    buffers: Buffers,
    gates: &'a [CircuitGate],
    values: &'a BaseTable,
    place: &ClaimPlace<'_>,
    challenges: &mut C,
    prover: &mut P,
) -> Result<ProvedLayer, AllocError>
    requires ready { P.ready prover.old }
    requires layer { IsLayer K values.now.k gates.now values.now.items (place_of place.now) }
    requires few { length gates.now ≤ 1048576 }
    requires has { IsTrue
        (C.source.has (C.state challenges.old) (values.now.k + values.now.k + 1)) }
    ensures honest { IfOk result (λ proved. let qs = messages_of proved.messages in
        IsHonestLayer form values.now.k gates.now values.now.items (place_of place.now) qs
        (draws C.source (C.state challenges.old) qs)) }
    ensures shape { IfOk result (λ proved. HasShape form values.now.k proved.messages) }
    ensures place { IfOk result
        (λ proved. kept_place proved.place ≡ next_place k_ops form values.now.k
        (draws C.source (C.state challenges.old) (messages_of proved.messages))) }
    ensures state { IfOk result
        (λ proved. C.state challenges.new ≡ state_after C.source (C.state challenges.old)
        (messages_of proved.messages)) }
    ensures ready { IfOk result (λ _. P.ready prover.new) }
{
    let k = values.k() as usize;
    let tables = OpenTables::start_at(buffers, gates, values, place)?;
    let ProvedRounds {
        messages,
        drawn,
        buffers,
        line,
    } = prover.rounds(alloc, form, tables, values, challenges)?;
    let (left, right) = drawn.as_slice().split_at(k);
    let last = last_with(alloc, form, values, left, right, line)?;
    challenges.absorb(&last);
    let challenge = challenges.challenge();
    let next = KeptPlace::between(alloc, form, left, right, challenge)?;
    Ok(ProvedLayer {
        messages: LayerMessages {
            rounds: Listed::of(messages),
            last: Listed::of(last),
        },
        place: next,
        buffers,
    })
}
