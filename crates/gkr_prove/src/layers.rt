//! The messages of all layers.

ghost use Rattle.std.specs.Prelude.{IfOk};
ghost use Rattle.gkr_prove.specs.Kept.{kept_place};
ghost use Rattle.gkr_prove.specs.Rounds.{CanProve, AreProved};

use crate::kept::KeptPlace;
use crate::layer::{ProvedLayer, prove_layer};
use crate::rounds::Rounds;
use circuit_core::Circuit;
use circuit_eval::Values;
use proof_wire::{LayerMessages, ProofForm};
use round_tables::Buffers;
use std::alloc::{AllocError, Global};
use transcript_fs::Challenges;

/// Proves all layers, the output layer first, from the place of the claim on it, in the same buffers.
pub(crate) fn prove_layers_with<'a, C: Challenges, P: Rounds<'a>>(
    alloc: Global,
    form: ProofForm,
    circuit: &'a Circuit,
    values: &'a Values,
    mut buffers: Buffers,
    mut place: KeptPlace,
    challenges: &mut C,
    prover: &mut P,
) -> Result<Vec<LayerMessages>, AllocError>
    requires ready { P.ready prover.old }
    requires can { CanProve C.source circuit.now.parts values.now (kept_place place)
        (C.state challenges.old) }
    ensures { IfOk result (λ layers. AreProved C.source form circuit.now.parts values.now
        (kept_place place) (C.state challenges.old) layers.items (C.state challenges.new)) }
{
    let mut messages = Vec::new(alloc);
    for layer in 0..circuit.height() {
        let proved = prove_layer(
            alloc,
            form,
            buffers,
            circuit.gates(layer),
            values.table(layer + 1),
            &place.claim_place(),
            challenges,
            prover,
        )?;
        let ProvedLayer {
            messages: layer_messages,
            place: next,
            buffers: used,
        } = proved;
        messages.push(layer_messages)?;
        place = next;
        buffers = used;
    }
    Ok(messages)
}
