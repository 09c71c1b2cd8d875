//! The proof of a case.

ghost use Rattle.std.specs.Prelude.{◌≡◌, ◌<◌, ◌^◌, length, map, take, drop, IfOk, IfErr};
ghost use Rattle.circuit_core.specs.Parts.{layer_values};
ghost use Rattle.circuit_core.specs.Sound.{exponents};
ghost use Rattle.circuit_eval.specs.Tables.{AreTables};
ghost use Rattle.transcript_fs.specs.Transcript.{transcript};
ghost use Rattle.proof_wire.specs.Lists.{all_messages, HaveShape};
ghost use Rattle.gkr_layers.specs.Honest.{AreHonestMessages};
ghost use Rattle.phase_run.specs.Work.{IsWorkerCount};
ghost use Rattle.proof_two.specs.Kinds.{form_in};
ghost use Rattle.arr_compile.specs.Circuits.{IsCompiled};
ghost use Rattle.case_prove.specs.Circuits.{RefusesCircuit};
ghost use Rattle.case_prove.specs.Evaluated.{IsEvaluated};
ghost use Rattle.case_prove.specs.Proved.{IsProved};
ghost use Rattle.case_prove.specs.Started.{start_of};

use crate::circuit::circuit_of;
use crate::refused::Refused;
use crate::started::transcript_of;
use arr_compile::laws::{circuit_computes, circuit_is_sound};
use case_text::Case;
use circuit_core::Circuit;
use circuit_eval::{Values, layer_values};
use field_ext::Fp;
use gkr_prove::prove_as;
use io_edge::Gate;
use mle_table::BaseTable;
use proof_two::{ProofKind, encode_kind};
use proof_wire::{Messages, ProofForm};
use std::alloc::{AllocError, Global};
use std::marker::Sync;
use std::thread::Threads;
use transcript_fs::laws::always_has;

/// The case with its program's meaning on its inputs as outputs, and with the one honest proof of this kind of them. It is
/// refused as `Program` exactly where the program's text or its layout is refused so, and else as `Input` exactly where the
/// numbers of inputs differ. Outputs and proof of the given case play no part. The proof is the same for every number of
/// workers, which enter the gate as those of `gkr_prove::prove` do.
pub fn prove_case<R: Threads + Sync, G: Gate>(
    rt: &R,
    alloc: Global,
    case: &Case,
    kind: ProofKind,
    workers: u32,
    gate: &G,
) -> Result<Case, Refused>
    requires workers { IsWorkerCount workers }
    ensures proved { IfOk result (λ proved. IsProved kind case.now proved) }
    ensures refused { IfErr result (λ refused. RefusesCircuit case.now refused) }
{
    let circuit = match circuit_of(alloc, case) {
        Ok(circuit) => circuit,
        Err(refused) => return Err(refused),
    };
    match prove_laid_out(rt, alloc, case, &circuit, kind, workers, gate) {
        Ok(proved) => Ok(proved),
        Err(_) => Err(Refused::Memory),
    }
}

/// What `prove_case` gives where the case's program is laid out as this circuit, which isn't compiled again.
pub fn prove_laid_out<R: Threads + Sync, G: Gate>(
    rt: &R,
    alloc: Global,
    case: &Case,
    circuit: &Circuit,
    kind: ProofKind,
    workers: u32,
    gate: &G,
) -> Result<Case, AllocError>
    requires compiled { IsCompiled case.now.lang case.now.program circuit.now.parts }
    requires counted { length case.now.inputs ≡ circuit.now.parts.inputs }
    requires workers { IsWorkerCount workers }
    ensures { IfOk result (λ proved. IsProved kind case.now proved) }
{
    circuit_is_sound();
    let values = layer_values(rt, alloc, circuit, case.inputs())?;
    let outputs = meant_outputs(alloc, case, circuit, &values)?;
    let form = kind.form();
    let messages = honest_messages(
        rt, alloc, case, circuit, &values, &outputs, form, workers, gate,
    )?;
    proved_case(alloc, case, circuit, kind, outputs, &messages)
}

/// The case with its program's meaning on its inputs as outputs, which these are, and with the proof of this kind that these honest
/// messages of them spell.
pub(crate) fn proved_case(
    alloc: Global,
    case: &Case,
    circuit: &Circuit,
    kind: ProofKind,
    outputs: Vec<Fp>,
    messages: &Messages,
) -> Result<Case, AllocError>
    requires compiled { IsCompiled case.now.lang case.now.program circuit.now.parts }
    requires evaluated { IsEvaluated case.now outputs.items }
    requires as_many { length outputs.items ≡ circuit.now.parts.outputs }
    requires honest { AreHonestMessages (form_in kind) circuit.now.parts case.now.inputs transcript
        (start_of (form_in kind) case.now.program case.now.inputs outputs.items)
        (all_messages messages.now.layers) }
    requires shape { HaveShape (form_in kind) (drop 1 (exponents circuit.now.parts))
        messages.now.layers }
    ensures { IfOk result (λ proved. IsProved kind case.now proved) }
{
    circuit_is_sound();
    let proof = encode_kind(alloc, kind, messages)?;
    let program = Vec::from_slice(alloc, case.program())?;
    let inputs = Vec::from_slice(alloc, case.inputs())?;
    Ok(Case::new(case.lang(), program, inputs, Some(outputs), Some(proof)))
}

/// The program's meaning on the case's inputs, where the program is laid out as this circuit and its layers have these values:
/// what is in its output layer.
pub fn meant_outputs(
    alloc: Global,
    case: &Case,
    circuit: &Circuit,
    values: &Values,
) -> Result<Vec<Fp>, AllocError>
    requires compiled { IsCompiled case.now.lang case.now.program circuit.now.parts }
    requires counted { length case.now.inputs ≡ circuit.now.parts.inputs }
    requires tables { AreTables circuit.now.parts case.now.inputs values.now }
    ensures meaning { IfOk result (λ outputs. IsEvaluated case.now outputs.items) }
    ensures as_many { IfOk result
        (λ outputs. length outputs.items ≡ circuit.now.parts.outputs) }
    ensures outputs { IfOk result (λ outputs. outputs.items
        ≡ take (length outputs.items) (drop 1 (layer_values circuit.now.parts case.now.inputs 0))) }
{
    circuit_computes();
    real_parts(alloc, values.table(0), circuit.outputs() as usize)
}

/// The parts without `i` of so many values of a table, from position 1 on.
fn real_parts(alloc: Global, table: &BaseTable, count: usize) -> Result<Vec<Fp>, AllocError>
    requires { count < length table.now.items }
    ensures { IfOk result (λ parts. parts.items ≡ map
        (λ x. x.re) (take count (drop 1 table.now.items))) }
{
    let mut parts = Vec::with_capacity(alloc, count)?;
    for position in 0..count {
        parts.push(table.at(position + 1).re())?;
    }
    Ok(parts)
}

/// The honest messages of the claim that the case's program has these outputs on its inputs, with the challenges of the
/// transcript of these three.
fn honest_messages<R: Threads + Sync, G: Gate>(
    rt: &R,
    alloc: Global,
    case: &Case,
    circuit: &Circuit,
    values: &Values,
    outputs: &[Fp],
    form: ProofForm,
    workers: u32,
    gate: &G,
) -> Result<Messages, AllocError>
    requires workers { IsWorkerCount workers }
    requires tables { AreTables circuit.now.parts case.now.inputs values.now }
    requires few { length outputs.now < 2 ^ 32 }
    ensures honest { IfOk result
        (λ messages. AreHonestMessages form circuit.now.parts case.now.inputs transcript
        (start_of form case.now.program case.now.inputs outputs.now)
        (all_messages messages.layers)) }
    ensures shape { IfOk result
        (λ messages. HaveShape form (drop 1 (exponents circuit.now.parts)) messages.layers) }
{
    always_has();
    let mut challenges = transcript_of(case, form, outputs);
    prove_as(
        rt,
        alloc,
        form,
        circuit,
        values,
        &mut challenges,
        workers,
        gate,
    )
}
