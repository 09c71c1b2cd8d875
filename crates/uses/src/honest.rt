//! A prover and a verifier that talk to each other.

ghost use Rattle.std.specs.Prelude.{◌≡◌, IfOk};
ghost use Rattle.gkr_layers.specs.declared.verdict.Verdict.TheVariants.{Accepted};
ghost use Rattle.phase_run.specs.Work.{IsWorkerCount};
ghost use Rattle.uses.specs.Claims.{AreCounted, AreOutputs};

use crate::checking::check_statement;
use circuit_core::Circuit;
use circuit_eval::layer_values;
use gkr_layers::Verdict;
use gkr_layers::laws::honest_is_accepted;
use gkr_prove::prove;
use io_edge::OpenGate;
use std::alloc::{AllocError, Global};
use std::marker::Sync;
use std::thread::Threads;
use transcript_fs::laws::always_has;
use transcript_fs::{Statement, Transcript};

/// Proves by so many workers what a statement says of a circuit, and checks the proof with challenges of the same transcript.
/// Where the statement's outputs are the circuit's, it is accepted.
pub fn prove_and_check<R: Threads + Sync>(
    rt: &R,
    alloc: Global,
    circuit: &Circuit,
    statement: &Statement,
    workers: u32,
) -> Result<Verdict, AllocError>
    requires workers { IsWorkerCount workers }
    requires counted { AreCounted circuit.now.parts statement.now.inputs statement.now.outputs }
    requires outputs { AreOutputs circuit.now.parts statement.now.inputs statement.now.outputs }
    ensures { IfOk result (λ verdict. verdict ≡ Accepted) }
{
    always_has();
    honest_is_accepted();
    let values = layer_values(rt, alloc, circuit, statement.inputs())?;
    let mut challenges = Transcript::start(statement);
    let messages = prove(
        rt,
        alloc,
        circuit,
        &values,
        &mut challenges,
        workers,
        &OpenGate,
    )?;
    check_statement(alloc, circuit, statement, &messages)
}
