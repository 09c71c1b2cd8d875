//! The case that `demo` generates from a number, and the summary of its proof.

ghost use Rattle.std.specs.Prelude.{◌≡◌, ◌≢◌, ◌++◌, ◌≤◌, ◌-◌, length, IfOk, OnOk, IsSome, Some};
ghost use Rattle.sha2.specs.Sha256.{sha256};
ghost use Rattle.gkr_layers.specs.declared.verdict.Verdict.TheVariants.{Accepted};
ghost use Rattle.phase_run.specs.Work.{IsWorkerCount};
ghost use Rattle.arr_compile.specs.Circuits.{IsCompiled};
ghost use Rattle.case_prove.specs.Circuits.{RefusesCircuit};
ghost use Rattle.case_prove.specs.Proved.{IsProved};
ghost use Rattle.case_prove.specs.Verified.{IsVerdictOn};
ghost use Rattle.gkr_cmd.specs.Demo.{HasFirst, IsDemo, demo_case, demo_inputs, demo_program, demo_size, square_text};
ghost use Rattle.gkr_cmd.specs.Replies.{IsDemoAnswer};

use crate::laws::demo_has_circuit;
use crate::reply_error::ReplyError;
use arr_ast::Lang;
use arr_compile::laws::{
    circuit_computes, compiled_or_refused, one_circuit, one_circuit_refusal, one_tree,
};
use case_prove::laws::{one_saying, proved_is_accepted};
use case_prove::{Refused, circuit_of, prove_laid_out, verify_laid_out};
use case_text::{Case, DemoSummary, Reply};
use circuit_core::Circuit;
use field_ext::Fp;
use gkr_verify::Verdict;
use io_edge::Gate;
use itoa::Buffer;
use proof_two::{ProofKind, ProofVersion};
use sha2::{Digest, Sha256};
use std::alloc::{AllocError, Global};
use std::marker::Sync;
use std::thread::Threads;

/// The reply of `demo`: its case is generated, compiled once, proved by so many workers, and verified.
pub fn demo<R: Threads + Sync, G: Gate>(
    rt: &R,
    alloc: Global,
    number: u32,
    workers: u32,
    gate: &G,
) -> Result<Reply, ReplyError>
    requires { IsWorkerCount workers }
    ensures reply { IfOk result (λ reply. IsDemoAnswer number reply) }
    ensures fault { result ≢ Err ReplyError.ReadFault }
{
    let case = demo_case(alloc, number)?;
    let circuit = match circuit_of(alloc, &case) {
        Ok(circuit) => circuit,
        Err(refused) => return Err(out_of_memory(number, refused)),
    };
    let kind = ProofKind::ByLines(ProofVersion::One);
    let proved = prove_laid_out(rt, alloc, &case, &circuit, kind, workers, gate)?;
    accept(alloc, &case, &circuit, &proved)?;
    Ok(Reply::Demo(summary(number, &circuit, &case, &proved)))
}

/// Why the case of a number wasn't laid out: memory ran out, and nothing else.
fn out_of_memory(number: u32, refused: Refused) -> ReplyError
    requires { RefusesCircuit (demo_case number) refused }
    ensures { result ≡ ReplyError.Memory }
{
    demo_has_circuit();
    one_circuit();
    one_circuit_refusal();
    compiled_or_refused();
    match refused {
        Refused::Memory => ReplyError::Memory,
        _ => unreachable!(),
    }
}

/// How many rows, and columns, each of the two matrices has.
fn demo_size(number: u32) -> u32
    ensures { result ≡ demo_size number }
{
    2 + number % 15
}

/// The case of a number.
fn demo_case(alloc: Global, number: u32) -> Result<Case, AllocError>
    ensures { IfOk result (λ case. case ≡ demo_case number) }
{
    let size = demo_size(number);
    let program = demo_program(alloc, size)?;
    let inputs = demo_inputs(alloc, number, 2 * (size * size))?;
    Ok(Case::new(Lang::One, program, inputs, None, None))
}

/// The program that sums the elements of the product of two matrices of a size.
fn demo_program(alloc: Global, size: u32) -> Result<Vec<u8>, AllocError>
    ensures { IfOk result (λ program. program.items ≡ demo_program size) }
{
    let mut program = Vec::new(alloc);
    put_square(&mut program, b"input a[", size)?;
    put_square(&mut program, b"input b[", size)?;
    program.extend_from_slice(b"output sum(matmul(a,b));")?;
    Ok(program)
}

/// The declaration of a square matrix, after its first words.
#[tactic(auto, unfolding(crate::specs::Demo::square_text))]
fn put_square(out: &mut Vec<u8>, words: &[u8], size: u32) -> Result<(), AllocError>
    ensures { OnOk result (out.new.items ≡ out.old.items ++ square_text words.now size) }
{
    let mut buffer = Buffer::new();
    let digits = buffer.format(size).as_bytes();
    out.extend_from_slice(words)?;
    out.extend_from_slice(digits)?;
    out.extend_from_slice(b"][")?;
    out.extend_from_slice(digits)?;
    out.extend_from_slice(b"]; ")
}

/// As many inputs, in order, from one past the number on.
fn demo_inputs(alloc: Global, number: u32, count: u32) -> Result<Vec<Fp>, AllocError>
    ensures { IfOk result (λ inputs. inputs.items ≡ demo_inputs number count) }
{
    let mut inputs = Vec::with_capacity(alloc, count as usize)?;
    for j in 0..count {
        inputs.push(Fp::reduce(1 + u64::from(number) + u64::from(j)))?;
    }
    Ok(inputs)
}

/// Verifies a case that was proved for its circuit, which is always accepted.
fn accept(alloc: Global, case: &Case, circuit: &Circuit, proved: &Case) -> Result<(), ReplyError>
    requires compiled { IsCompiled case.now.lang case.now.program circuit.now.parts }
    requires counted { length case.now.inputs ≡ circuit.now.parts.inputs }
    requires proved { IsProved (ProofKind.ByLines ProofVersion.One) case.now proved.now }
    ensures accepted { OnOk result (IsVerdictOn proved.now Accepted) }
    ensures fault { result ≢ Err ReplyError.ReadFault }
{
    one_circuit();
    one_circuit_refusal();
    compiled_or_refused();
    one_saying();
    proved_is_accepted();
    match verify_laid_out(alloc, proved, circuit) {
        Ok(verdict) => match verdict {
            Verdict::Accepted => Ok(()),
            _ => unreachable!(),
        },
        Err(refused) => match refused {
            Refused::Memory => Err(ReplyError::Memory),
            _ => unreachable!(),
        },
    }
}

/// The first output of a case that was proved.
fn first_output(case: &Case, proved: &Case) -> Fp
    requires { IsProved (ProofKind.ByLines ProofVersion.One) case.now proved.now }
    ensures { HasFirst proved.now.outputs result }
{
    one_tree();
    circuit_computes();
    let Some(outputs) = proved.outputs() else {
        unreachable!()
    };
    outputs[0]
}

/// The bytes of the proof of a case that was proved.
fn proof_of(proved: &Case) -> &[u8]
    requires { IsSome proved.now.proof }
    ensures { proved.now.proof ≡ Some result.now }
{
    match proved.proof() {
        Some(proof) => proof,
        None => unreachable!(),
    }
}

/// The summary of the case of a number that was proved and accepted, where its program is laid out as this circuit.
fn summary(number: u32, circuit: &Circuit, case: &Case, proved: &Case) -> DemoSummary
    requires case { case.now ≡ demo_case number }
    requires compiled { IsCompiled case.now.lang case.now.program circuit.now.parts }
    requires proved { IsProved (ProofKind.ByLines ProofVersion.One) case.now proved.now }
    requires accepted { IsVerdictOn proved.now Accepted }
    ensures { IsDemo number result }
{
    let proof = proof_of(proved);
    DemoSummary {
        number,
        size: demo_size(number),
        output: first_output(case, proved),
        layers: circuit.height(),
        proof: proof.len(),
        digest: Sha256::digest(proof),
    }
}
