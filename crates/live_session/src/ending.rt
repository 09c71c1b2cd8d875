//! The verdict at the end of a session, in buffers that were taken at its start.

ghost use Rattle.std.specs.Prelude.{◌≡◌, length, IfOk};
ghost use Rattle.gkr_layers.specs.Acceptance.{claim_of, verdict_of};
ghost use Rattle.gkr_layers.specs.Layers.{challenges_of};
ghost use Rattle.live_session.specs.Ending.{IsReadyFor};
ghost use Rattle.live_session.specs.Layout.{messages_in};
ghost use Rattle.live_session.specs.Verifying.{element_count, lower};

use crate::layout::{fill, message_buffers};
use circuit_core::Circuit;
use field_ext::{Ext, Fp};
use gkr_layers::Verdict;
use gkr_verify::CheckBuffers;
use proof_wire::{LayerMessages, ProofForm};
use std::alloc::{AllocError, Global};
use transcript_fs::Given;

/// Buffers for all messages and for their check, and the challenges that it will draw.
#[derive(Drop)]
pub(crate) struct Ending {
    alloc: Global,
    buffers: CheckBuffers,
    layers: Vec<LayerMessages>,
    challenges: Given,
}

impl Ending {
    /// The buffers for a circuit, with these challenges. Err only where no memory is found.
    pub(crate) fn new(alloc: Global, circuit: &Circuit, words: &[Ext]) -> Result<Ending, AllocError>
        ensures ready { IfOk result (λ ending. IsReadyFor circuit.now.parts ending) }
        ensures challenges { IfOk result (λ ending. ending.challenges ≡ words.now) }
    {
        Ok(Ending {
            alloc,
            buffers: CheckBuffers::new(alloc, circuit)?,
            layers: message_buffers(alloc, circuit)?,
            challenges: Given::of(Vec::from_slice(alloc, words)?),
        })
    }

    /// The verdict on the messages of these elements, with the challenges. No memory is taken.
    pub(crate) fn verdict(
        &mut self,
        circuit: &Circuit,
        inputs: &[Fp],
        outputs: &[Fp],
        elements: &[Ext],
    ) -> Verdict
        requires inputs { length inputs.now ≡ circuit.now.parts.inputs }
        requires outputs { length outputs.now ≡ circuit.now.parts.outputs }
        requires elements { length elements.now ≡ element_count circuit.now.parts }
        requires ready { IsReadyFor circuit.now.parts self.old }
        requires challenges { length self.old.challenges ≡ challenges_of circuit.now.parts }
        ensures verdict { result ≡ verdict_of (claim_of circuit.now.parts inputs.now outputs.now)
            (messages_in (lower circuit.now.parts) elements.now) self.old.challenges }
        ensures ready { IsReadyFor circuit.now.parts self.new }
    {
        fill(self.alloc, &mut self.layers, elements);
        self.buffers.check(
            ProofForm::Line,
            circuit,
            inputs,
            outputs,
            &self.layers,
            &mut self.challenges,
        )
    }
}
