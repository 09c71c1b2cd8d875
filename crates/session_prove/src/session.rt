//! A session on a case.

ghost use Rattle.std.specs.Prelude.{◌≡◌, ◌≤◌, ◌*◌, length, IfOk, IfErr};
ghost use Rattle.arr_compile.specs.Circuits.{IsCompiled};
ghost use Rattle.gkr_layers.specs.Layers.{challenges_of};
ghost use Rattle.phase_run.specs.Work.{IsWorkerCount};
ghost use Rattle.session_prove.specs.Sessions.{IsSession, RefusesSession};

use crate::challenges::challenges_in;
use crate::exchange::exchange;
use crate::refused::SessionRefused;
use case_prove::{Refused, circuit_of, meant_outputs};
use case_text::{Case, SessionSizes};
use circuit_core::Circuit;
use circuit_eval::layer_values;
use field_ext::Fp;
use gkr_verify::challenge_count;
use io_edge::Gate;
use live_session::{LiveProver, LiveVerifier};
use session_text::SessionCase;
use std::alloc::{AllocError, Global};
use std::marker::Sync;
use std::thread::Threads;

/// How many challenges a session on the case takes, and how many bytes each end is sent until the verifier has accepted,
/// which it always does. It is refused as `Case` exactly where `circuit_case` refuses the case, and else as `Words` exactly
/// where the words aren't two for each challenge. It is the same for pieces of any number of bytes, 1 at least, and for every number
/// of workers; each enters the gate with a piece of a round before it sums it.
pub fn session_case<R: Threads + Sync, G: Gate>(
    rt: &R,
    alloc: Global,
    session: &SessionCase,
    piece: u32,
    workers: u32,
    gate: &G,
) -> Result<SessionSizes, SessionRefused>
    requires piece { 1 ≤ piece }
    requires workers { IsWorkerCount workers }
    ensures session { IfOk result (λ sizes. IsSession session.now.case session.now.words sizes) }
    ensures refused { IfErr result
        (λ refused. RefusesSession session.now.case session.now.words refused) }
{
    let circuit = match circuit_of(alloc, session.case()) {
        Ok(circuit) => circuit,
        Err(refused) => return Err(SessionRefused::Case(refused)),
    };
    let have = session.words().len() as u64;
    let need = 2 * challenge_count(&circuit) as u64;
    if have != need {
        return Err(SessionRefused::Words { have, need });
    }
    match run_session(
        rt,
        alloc,
        session.case(),
        session.words(),
        &circuit,
        piece,
        workers,
        gate,
    ) {
        Ok(sizes) => Ok(sizes),
        Err(_) => Err(SessionRefused::Case(Refused::Memory)),
    }
}

/// The session on a case whose program is laid out as this circuit, with these words.
fn run_session<R: Threads + Sync, G: Gate>(
    rt: &R,
    alloc: Global,
    case: &Case,
    words: &[Fp],
    circuit: &Circuit,
    piece: u32,
    workers: u32,
    gate: &G,
) -> Result<SessionSizes, AllocError>
    requires compiled { IsCompiled case.now.lang case.now.program circuit.now.parts }
    requires counted { length case.now.inputs ≡ circuit.now.parts.inputs }
    requires paired { length words.now ≡ 2 * challenges_of circuit.now.parts }
    requires piece { 1 ≤ piece }
    requires workers { IsWorkerCount workers }
    ensures { IfOk result (λ sizes. IsSession case.now words.now sizes) }
{
    let challenges = challenges_in(alloc, words)?;
    let values = layer_values(rt, alloc, circuit, case.inputs())?;
    let outputs = meant_outputs(alloc, case, circuit, &values)?;
    let verifier = LiveVerifier::start(alloc, circuit, case.inputs(), &outputs, &challenges)?;
    let prover = LiveProver::start(alloc, circuit, &values)?;
    exchange(
        rt,
        alloc,
        circuit,
        verifier,
        prover,
        piece as usize,
        workers,
        gate,
    )
}
