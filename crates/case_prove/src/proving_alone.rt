//! The proof of a case, all of which the calling thread makes.

ghost use Rattle.std.specs.Prelude.{◌≡◌, ◌<◌, ◌^◌, length, drop, IfOk, IfErr};
ghost use Rattle.circuit_core.specs.Sound.{exponents};
ghost use Rattle.circuit_eval.specs.Tables.{AreTables};
ghost use Rattle.transcript_fs.specs.Transcript.{transcript};
ghost use Rattle.proof_wire.specs.Lists.{all_messages, HaveShape};
ghost use Rattle.gkr_layers.specs.Honest.{AreHonestMessages};
ghost use Rattle.arr_compile.specs.Circuits.{IsCompiled};
ghost use Rattle.case_prove.specs.Circuits.{RefusesCircuit};
ghost use Rattle.case_prove.specs.Proved.{IsProved};
ghost use Rattle.case_prove.specs.Started.{start_of};

use crate::circuit::circuit_of;
use crate::proving::{meant_outputs, proved_case};
use crate::refused::Refused;
use crate::started::transcript_of;
use arr_compile::laws::circuit_is_sound;
use case_text::Case;
use circuit_core::Circuit;
use circuit_eval::{Values, layer_values_alone};
use field_ext::Fp;
use gkr_prove::prove_alone;
use io_edge::OpenGate;
use proof_two::ProofKind;
use proof_wire::{Messages, ProofForm};
use std::alloc::{AllocError, Global};
use transcript_fs::laws::always_has;

/// What `prove_case` gives, by the calling thread. It takes no handle, so a library may call it, and it returns.
pub fn prove_case_alone(alloc: Global, case: &Case, kind: ProofKind) -> Result<Case, Refused>
    ensures proved { IfOk result (λ proved. IsProved kind case.now proved) }
    ensures refused { IfErr result (λ refused. RefusesCircuit case.now refused) }
{
    let circuit = match circuit_of(alloc, case) {
        Ok(circuit) => circuit,
        Err(refused) => return Err(refused),
    };
    match prove_laid_out_alone(alloc, case, &circuit, kind) {
        Ok(proved) => Ok(proved),
        Err(_) => Err(Refused::Memory),
    }
}

/// What `prove_laid_out` gives, by the calling thread.
fn prove_laid_out_alone(
    alloc: Global,
    case: &Case,
    circuit: &Circuit,
    kind: ProofKind,
) -> Result<Case, AllocError>
    requires compiled { IsCompiled case.now.lang case.now.program circuit.now.parts }
    requires counted { length case.now.inputs ≡ circuit.now.parts.inputs }
    ensures { IfOk result (λ proved. IsProved kind case.now proved) }
{
    circuit_is_sound();
    let values = layer_values_alone(alloc, circuit, case.inputs())?;
    let outputs = meant_outputs(alloc, case, circuit, &values)?;
    let form = kind.form();
    let messages = honest_messages_alone(alloc, case, circuit, &values, &outputs, form)?;
    proved_case(alloc, case, circuit, kind, outputs, &messages)
}

/// What `honest_messages` gives, by the calling thread.
fn honest_messages_alone(
    alloc: Global,
    case: &Case,
    circuit: &Circuit,
    values: &Values,
    outputs: &[Fp],
    form: ProofForm,
) -> Result<Messages, AllocError>
    requires tables { AreTables circuit.now.parts case.now.inputs values.now }
    requires few { length outputs.now < 2 ^ 32 }
    ensures honest { IfOk result
        (λ messages. AreHonestMessages form circuit.now.parts case.now.inputs transcript
        (start_of form case.now.program case.now.inputs outputs.now)
        (all_messages messages.layers)) }
    ensures shape { IfOk result
        (λ messages. HaveShape form (drop 1 (exponents circuit.now.parts)) messages.layers) }
{
    always_has();
    let mut challenges = transcript_of(case, form, outputs);
    prove_alone(alloc, form, circuit, values, &mut challenges, &OpenGate)
}
