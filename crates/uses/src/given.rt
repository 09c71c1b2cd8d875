//! A verifier with a given list of challenges.

ghost use Rattle.std.specs.Prelude.{◌≡◌, drop, length, vec_len, IfOk};
ghost use Rattle.circuit_core.specs.Sound.{exponents};
ghost use Rattle.gkr_layers.specs.Acceptance.{challenge_count, claim_of, verdict_of};
ghost use Rattle.proof_wire.specs.declared.form.ProofForm.TheVariants.{Line};
ghost use Rattle.proof_wire.specs.Lists.{HaveShape, all_messages};
ghost use Rattle.uses.specs.Claims.{AreCounted};

use circuit_core::Circuit;
use field_ext::{Ext, Fp};
use gkr_layers::Verdict;
use gkr_layers::laws::sound;
use gkr_verify::check;
use proof_wire::Messages;
use std::alloc::{AllocError, Global};
use transcript_fs::Given;

/// The verdict on messages with these challenges, as many as a check draws: by the definition of acceptance over that list.
pub fn check_with(
    alloc: Global,
    circuit: &Circuit,
    inputs: &[Fp],
    outputs: &[Fp],
    messages: &Messages,
    challenges: Vec<Ext>,
) -> Result<Verdict, AllocError>
    requires counted { AreCounted circuit.now.parts inputs.now outputs.now }
    requires shape { HaveShape Line (drop 1 (exponents circuit.now.parts)) messages.now.layers }
    requires challenges { vec_len challenges
        ≡ challenge_count (claim_of circuit.now.parts inputs.now outputs.now) }
    ensures { IfOk result (λ verdict. verdict
        ≡ verdict_of (claim_of circuit.now.parts inputs.now outputs.now)
        (all_messages messages.now.layers) challenges.items) }
{
    sound();
    let mut source = Given::of(challenges);
    check(alloc, circuit, inputs, outputs, messages, &mut source)
}
