//! What a check takes before it draws a challenge.

ghost use Rattle.std.specs.Prelude.{◌≡◌, length, drop, IsTrue, IfOk};
ghost use Rattle.circuit_core.specs.Sound.{exponents};
ghost use Rattle.gkr_layers.specs.Acceptance.{claim_in, answer_from, challenge_count};
ghost use Rattle.gkr_verify.specs.Buffers.{AreBuffersFor};
ghost use Rattle.proof_wire.specs.Lists.{all_messages, HaveShape};
ghost use Rattle.run_wiring.specs.CircuitRuns.{AreWiringsOf};

use crate::filling::claim_there;
use crate::layers::check_layers;
use circuit_core::Circuit;
use field_ext::{Ext, Fp};
use gkr_layers::Verdict;
use proof_wire::{LayerMessages, ProofForm};
use run_wiring::{LayerWiring, wirings};
use std::alloc::{AllocError, Global};
use transcript_fs::Challenges;

/// The runs of a circuit's layers, where they are few, and buffers for the challenges and points of a check.
#[derive(Drop)]
pub struct CheckBuffers {
    wirings: Vec<LayerWiring>,
    points: Vec<Ext>,
}

impl CheckBuffers {
    /// The buffers for a circuit. Err only where no memory is found; no check in them takes any.
    pub fn new(alloc: Global, circuit: &Circuit) -> Result<CheckBuffers, AllocError>
        ensures { IfOk result (λ buffers. AreBuffersFor circuit.now.parts buffers) }
    {
        let wirings = wirings(alloc, circuit)?;
        let points = vec![in alloc; Ext::zero(); 80]?;
        Ok(CheckBuffers { wirings, points })
    }

    /// Checks the messages of a proof of this form, layer by layer, as `check_as` does, in these buffers of its circuit.
    pub fn check<C: Challenges>(
        &mut self,
        form: ProofForm,
        circuit: &Circuit,
        inputs: &[Fp],
        outputs: &[Fp],
        messages: &[LayerMessages],
        challenges: &mut C,
    ) -> Verdict
        requires buffers { AreBuffersFor circuit.now.parts self.old }
        requires inputs { length inputs.now ≡ circuit.now.parts.inputs }
        requires outputs { length outputs.now ≡ circuit.now.parts.outputs }
        requires shape { HaveShape form (drop 1 (exponents circuit.now.parts)) messages.now }
        requires has { IsTrue (C.source.has (C.state challenges.old)
            (challenge_count (claim_in form circuit.now.parts inputs.now outputs.now))) }
        ensures answer { record { verdict = result; state = C.state challenges.new }
            ≡ answer_from (claim_in form circuit.now.parts inputs.now outputs.now) C.source
            (C.state challenges.old) (all_messages messages.now) }
        ensures buffers { AreBuffersFor circuit.now.parts self.new }
    {
        check_in(
            form,
            circuit,
            &self.wirings,
            inputs,
            outputs,
            messages,
            &mut self.points,
            challenges,
        )
    }
}

/// Checks the messages, and keeps challenges and points in `buffers`.
fn check_in<C: Challenges>(
    form: ProofForm,
    circuit: &Circuit,
    wirings: &[LayerWiring],
    inputs: &[Fp],
    outputs: &[Fp],
    messages: &[LayerMessages],
    buffers: &mut [Ext],
    challenges: &mut C,
) -> Verdict
    requires wirings { AreWiringsOf circuit.now.parts wirings.now }
    requires inputs { length inputs.now ≡ circuit.now.parts.inputs }
    requires outputs { length outputs.now ≡ circuit.now.parts.outputs }
    requires shape { HaveShape form (drop 1 (exponents circuit.now.parts)) messages.now }
    requires has { IsTrue (C.source.has (C.state challenges.old)
        (challenge_count (claim_in form circuit.now.parts inputs.now outputs.now))) }
    requires buffers { length buffers.old ≡ 80 }
    ensures { record { verdict = result; state = C.state challenges.new }
        ≡ answer_from (claim_in form circuit.now.parts inputs.now outputs.now) C.source
        (C.state challenges.old) (all_messages messages.now) }
{
    let (kept, drawn) = buffers.split_at_mut(40);
    let (point, _) = kept.split_at_mut(circuit.coordinates(0));
    let claim = claim_there(outputs, point, challenges);
    check_layers(
        form, messages, circuit, wirings, inputs, claim, kept, drawn, challenges,
    )
}
