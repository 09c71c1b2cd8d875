//! The prover's end.

ghost use Rattle.std.specs.Prelude.{◌≡◌, ◌<◌, ◌≤◌, ◌^◌, [], ◌++◌, List, None, length, take, IfOk, IfErr};
ghost use Rattle.field_ext.specs.Field.{F};
ghost use Rattle.circuit_eval.specs.Tables.{AreTables};
ghost use Rattle.gkr_layers.specs.Layers.{challenges_of};
ghost use Rattle.phase_run.specs.Work.{IsWorkerCount};
ghost use Rattle.live_session.specs.ProverState.{IsAt};
ghost use Rattle.live_session.specs.Proving.{fed_more, prover_sent, stop_of, verdict_known, words_in};
ghost use Rattle.live_session.specs.Stops.{IsStopFor};

use crate::course::{Course, Stage, go_on};
use crate::intake::Intake;
use crate::progress::{LiveFault, ProverStop};
use circuit_core::Circuit;
use circuit_eval::Values;
use field_ext::Ext;
use gkr_prove::buffers_for;
use gkr_verify::challenge_count;
use io_edge::Gate;
use std::alloc::{AllocError, Global};
use std::marker::{Model, Sync};
use std::thread::Threads;

/// A prover that takes the verifier's challenges as bytes, in pieces of any length, and sends each honest message once all
/// challenges before it are there. Contracts see the circuit, the values of its layers and the bytes that it was fed.
#[derive(Drop)]
pub struct LiveProver<'a> {
    circuit: &'a Circuit,
    values: &'a Values,
    intake: Intake,
    course: Course<'a>,
}

impl<'a> Model for LiveProver<'a> {
    ghost use Rattle.std.specs.Prelude.{◌≡◌, ◌+◌, ◌*◌, List, None};
    ghost use Rattle.field_ext.specs.Field.{F};
    ghost use Rattle.circuit_eval.specs.Tables.{AreTables};
    ghost use Rattle.live_session.specs.Proving.{Proving};
    ghost use Rattle.live_session.specs.OnCourse.{IsOnCourse};

    ghost Value = { Proving };

    ghost view = { λ a. record {
      parts = a.circuit.now.parts;
      values = a.values.now;
      bytes = a.intake.bytes;
    } };

    ghost invariant = { λ a. IsOnCourse a.circuit.now.parts a.values.now a.intake a.course };
}

impl<'a> LiveProver<'a> {
    /// A prover for a circuit with these values of its layers, which are its values for some inputs. Err only where no memory
    /// is found.
    pub fn start(
        alloc: Global,
        circuit: &'a Circuit,
        values: &'a Values,
    ) -> Result<LiveProver<'a>, AllocError>
        requires { (inputs : List F) × AreTables circuit.now.parts inputs values.now }
        ensures { IfOk result (λ prover. prover
            ≡ record { parts = circuit.now.parts; values = values.now; bytes = [] }) }
    {
        let intake = Intake::new(alloc, challenge_count(circuit), 2)?;
        let buffers = buffers_for(alloc, circuit)?;
        Ok(LiveProver {
            circuit,
            values,
            intake,
            course: Course {
                layer: 0,
                base: 0,
                stage: Stage::Before(buffers),
                sent: Vec::new(alloc),
            },
        })
    }

    /// Takes more bytes of the verifier's, challenges and then the last byte, and goes on as far as they lead. A challenge out
    /// of range, a last byte that is neither 0 nor 1 and a byte after it stop the prover, by the lowest place; so does running out
    /// of memory. The messages are summed by so many workers.
    pub fn feed<R: Threads + Sync, G: Gate>(
        self,
        rt: &R,
        alloc: Global,
        bytes: &[u8],
        workers: u32,
        gate: &G,
    ) -> Result<LiveProver<'a>, ProverStop>
        requires { IsWorkerCount workers }
        ensures goes { IfOk result (λ prover. prover ≡ fed_more self.entry bytes.now) }
        ensures faultless { IfOk result (λ _. stop_of (challenges_of self.entry.parts)
            (self.entry.bytes ++ bytes.now) ≡ None) }
        ensures stops { IfErr result (λ stop. IsStopFor (stop_of (challenges_of self.entry.parts)
            (self.entry.bytes ++ bytes.now)) stop) }
    {
        let LiveProver {
            circuit,
            values,
            mut intake,
            course,
        } = self;
        let used = intake.elements().len();
        intake.feed(bytes);
        if let Some(fault) = stop_at(challenge_count(circuit), &intake) {
            return Err(fault.into());
        }
        let course = run(
            rt,
            alloc,
            circuit,
            values,
            course,
            intake.elements(),
            used,
            workers,
            gate,
        )?;
        Ok(LiveProver {
            circuit,
            values,
            intake,
            course,
        })
    }

    /// All bytes that the prover has sent.
    pub fn sent(&self) -> &[u8]
        ensures { (inputs : List F) → AreTables self.now.parts inputs self.now.values
            → result.now ≡ prover_sent self.now.parts inputs (words_in self.now) }
    {
        &self.course.sent
    }

    /// Whether the last byte says that the verifier accepts, once it was fed.
    pub fn verdict(&self) -> Option<bool>
        ensures { result ≡ verdict_known (challenges_of self.now.parts) self.now.bytes }
    {
        let due = challenge_count(self.circuit);
        if self.intake.len() > 8 * due {
            Some(self.intake.byte(8 * due) == 1)
        } else {
            None
        }
    }
}

/// Goes on by the challenges from number `used` on.
fn run<'a, R: Threads + Sync, G: Gate>(
    rt: &R,
    alloc: Global,
    circuit: &'a Circuit,
    values: &'a Values,
    mut course: Course<'a>,
    words: &[Ext],
    used: usize,
    workers: u32,
    gate: &G,
) -> Result<Course<'a>, AllocError>
    requires workers { IsWorkerCount workers }
    requires values { (inputs : List F) × AreTables circuit.now.parts inputs values.now }
    requires used { used ≤ length words.now }
    requires few { length words.now ≤ challenges_of circuit.now.parts }
    requires at_stage { (inputs : List F) → AreTables circuit.now.parts inputs values.now
        → IsAt circuit.now.parts inputs (take used words.now) course }
    ensures { IfOk result (λ next. (inputs : List F) → AreTables circuit.now.parts inputs values.now
        → IsAt circuit.now.parts inputs words.now next) }
{
    for u in used..words.len() {
        course = go_on(rt, alloc, circuit, values, course, words, u, workers, gate)?;
    }
    Ok(course)
}

/// The fault of the lowest place in the bytes that were fed, where so many challenges and the last byte are due.
fn stop_at(due: usize, intake: &Intake) -> Option<LiveFault>
    requires most { intake.now.most ≡ due }
    requires small { due < 2 ^ 32 }
    ensures { result ≡ stop_of due intake.now.bytes }
{
    let words = intake.elements().len();
    let fed = intake.len();
    if words < due {
        if fed >= 8 * words + 8 {
            return Some(LiveFault::Range { at: 8 * words });
        }
        return None;
    }
    if intake.byte(8 * due) > 1 {
        return Some(LiveFault::Range { at: 8 * due });
    }
    if fed >= 8 * due + 2 {
        return Some(LiveFault::Extra { at: 8 * due + 1 });
    }
    None
}
