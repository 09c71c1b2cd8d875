//! How both ends of a session hand each other their bytes.

ghost use Rattle.std.specs.Prelude.{◌≡◌, ◌≤◌, ◌+◌, ◌*◌, None, length, take, IfOk};
ghost use Rattle.gkr_layers.specs.Layers.{challenges_of};
ghost use Rattle.live_session.specs.Proving.{stop_of};
ghost use Rattle.live_session.specs.Verifying.{element_count};
ghost use Rattle.phase_run.specs.Work.{IsWorkerCount};
ghost use Rattle.session_prove.specs.Exchange.{HaveBegun, HasEnded, sizes_of, whole_session};

use case_text::SessionSizes;
use circuit_core::Circuit;
use gkr_verify::challenge_count;
use io_edge::Gate;
use live_session::{LiveProver, LiveVerifier, ProverStop};
use std::alloc::{AllocError, Global};
use std::marker::Sync;
use std::thread::Threads;

/// Hands both ends' bytes over, in turn and in pieces of at most so many bytes, until the prover has the last byte. The
/// outputs that the verifier was started with are those of the circuit. Answers how many challenges there were, and how
/// many bytes each end was sent.
pub(crate) fn exchange<R: Threads + Sync, G: Gate>(
    rt: &R,
    alloc: Global,
    circuit: &Circuit,
    mut verifier: LiveVerifier<'_>,
    mut prover: LiveProver<'_>,
    piece: usize,
    workers: u32,
    gate: &G,
) -> Result<SessionSizes, AllocError>
    requires circuit { verifier.parts ≡ circuit.now.parts }
    requires begun { HaveBegun verifier prover }
    requires piece { 1 ≤ piece }
    requires workers { IsWorkerCount workers }
    ensures ended { IfOk result (λ sizes. HasEnded (whole_session verifier.entry)) }
    ensures sizes { IfOk result (λ sizes. sizes ≡ sizes_of (whole_session verifier.entry)) }
{
    let mut to_prover = 0;
    let mut to_verifier = 0;
    while prover.verdict().is_none() {
        let sent = verifier.sent();
        let count = piece.min(sent.len() - to_prover);
        prover = feed_prover(rt, alloc, prover, sent, to_prover, count, workers, gate)?;
        to_prover += count;
        let sent = prover.sent();
        let count = piece.min(sent.len() - to_verifier);
        feed_verifier(&mut verifier, sent, to_verifier, count);
        to_verifier += count;
    }
    Ok(SessionSizes {
        challenges: challenge_count(circuit) as u64,
        to_prover: to_prover as u64,
        to_verifier: to_verifier as u64,
    })
}

/// The prover with so many more bytes of what the verifier has sent, of which it has taken the first.
#[tactic(auto, using(crate::proofs::Steps::prover_next, crate::proofs::Steps::stops_for_memory))]
fn feed_prover<'a, R: Threads + Sync, G: Gate>(
    rt: &R,
    alloc: Global,
    prover: LiveProver<'a>,
    sent: &[u8],
    taken: usize,
    count: usize,
    workers: u32,
    gate: &G,
) -> Result<LiveProver<'a>, AllocError>
    requires there { taken + count ≤ length sent.now }
    requires taken { prover.bytes ≡ take taken sent.now }
    requires faultless { stop_of (challenges_of prover.parts) sent.now ≡ None }
    requires workers { IsWorkerCount workers }
    ensures { IfOk result (λ next. next
        ≡ record prover.entry { bytes = take (taken + count) sent.now }) }
{
    let (_, behind) = sent.split_at(taken);
    let (more, _) = behind.split_at(count);
    match prover.feed(rt, alloc, more, workers, gate) {
        Ok(prover) => Ok(prover),
        Err(ProverStop::Memory) => Err(AllocError),
        Err(_) => unreachable!(),
    }
}

/// Gives the verifier so many more bytes of what the prover has sent, of which it has taken the first.
fn feed_verifier(verifier: &mut LiveVerifier<'_>, sent: &[u8], taken: usize, count: usize)
    requires there { taken + count ≤ length sent.now }
    requires taken { verifier.old.bytes ≡ take taken sent.now }
    requires few { length sent.now ≤ 8 * element_count verifier.old.parts }
    ensures { verifier.new ≡ record verifier.old { bytes = take (taken + count) sent.now } }
{
    let (_, behind) = sent.split_at(taken);
    let (more, _) = behind.split_at(count);
    // What it answers is known by the last byte that it sends.
    let _progress = verifier.feed(more);
}
