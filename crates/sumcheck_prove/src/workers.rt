//! The workers of a proof.

ghost use Rattle.std.specs.Prelude.{◌≡◌, ◌<◌, ◌+◌, ◌^◌, [], IfOk, length, vec_len};
ghost use Rattle.phase_run.specs.Work.{IsWorkerCount, IsEachWorked};
ghost use Rattle.sumcheck_prove.specs.Ahead.{IsNextMessage};
ghost use Rattle.sumcheck_prove.specs.Jobs.{work_of};

use crate::jobs::{Job, Jobs};
use crate::message::{PAIRS_TO_SUM, round_in, threads_from};
use field_ext::Ext;
use io_edge::Gate;
use phase_run::{PartWork, run_parts};
use round_tables::GateTables;
use std::alloc::{AllocError, Global};
use std::marker::{Model, Sync};
use std::thread::Threads;

/// The first round of so many pieces is shared, whatever its size.
const PIECES_TO_MEET: usize = 4;

/// Such a round has a worker for so many of its pieces.
const PIECES_FOR_EACH: usize = 2;

/// So many parts of a layer's tables, or of its line, pay for a thread.
pub(crate) const PAYING_PARTS: usize = 4;

/// Workers that share the wide stages of a proof: the calling thread, which is worker 0, and threads that are started for a stage and
/// joined at its end. Each enters the gate between its claim of a part and its work on it. Contracts see how many share a wide stage.
#[derive(Drop)]
pub struct Workers<'r, R, G> {
    rt: &'r R,
    alloc: Global,
    gate: &'r G,
    asked: u32,
    count: u32,
    met: bool,
}

impl<'r, R, G> Model for Workers<'r, R, G> {
    ghost use Rattle.std.specs.Prelude.{ℕ};
    ghost use Rattle.phase_run.specs.Work.{IsWorkerCount};

    ghost Value = { ℕ };

    ghost view = { λ w. w.count };

    ghost invariant = { λ w. IsWorkerCount w.asked × IsWorkerCount w.count };
}

impl<'r, R: Threads + Sync, G: Gate> Workers<'r, R, G> {
    /// As many workers as were asked for, of which so many share a wide stage.
    pub fn new(rt: &'r R, alloc: Global, asked: u32, count: u32, gate: &'r G) -> Workers<'r, R, G>
        requires asked { IsWorkerCount asked }
        requires count { IsWorkerCount count }
        ensures { result ≡ count }
    {
        Workers {
            rt,
            alloc,
            gate,
            asked,
            count,
            met: false,
        }
    }

    /// How many share a wide stage.
    pub fn count(&self) -> u32
        ensures { result ≡ self.now }
    {
        self.count
    }

    /// The message of the next round, where one is left, as `round` gives it. The first round of four pieces or more is shared by those who
    /// were asked for, one for two pieces, whatever its size, so that they are seen to work. Err only where no memory is found.
    pub fn round(&mut self, tables: &GateTables<'_>) -> Result<[Ext; 3], AllocError>
        requires here { tables.now.lent ≡ [] }
        requires left { length tables.now.bound < tables.now.k + tables.now.k }
        ensures message { IfOk result (IsNextMessage tables.now) }
    {
        let mut threads = threads_from(tables.pairs(), PAIRS_TO_SUM, self.count);
        if !self.met && tables.pieces() >= PIECES_TO_MEET {
            self.met = true;
            threads = met_by(self.asked, tables.pieces());
        }
        round_in(self.rt, self.alloc, tables, threads, self.gate)
    }

    /// Works each job once, at its place: place k of the result is what job k becomes, whatever the number of workers and the order of
    /// their claims. So many jobs pay for a worker. Where no memory is found for the claims, the calling thread works all.
    pub(crate) fn work<'a>(&self, jobs: Vec<Job<'a>>, paying: usize) -> Vec<Job<'a>>
        requires few { vec_len jobs < 2 ^ 32 }
        requires some { 0 < paying }
        ensures len { vec_len result ≡ vec_len jobs.entry }
        ensures each { IsEachWorked work_of jobs.entry.items result.items }
    {
        let threads = self.count.min((jobs.len() / paying) as u32);
        if threads <= 1 {
            return work_alone(jobs, &Jobs::new(), self.gate);
        }
        match run_parts(self.rt, self.alloc, jobs, threads, &Jobs::new(), self.gate) {
            Ok(jobs) => jobs,
            Err(jobs) => work_alone(jobs, &Jobs::new(), self.gate),
        }
    }
}

/// How many of the workers that were asked for share the round of so many pieces in which they meet.
fn met_by(asked: u32, pieces: usize) -> u32
    requires { IsWorkerCount asked }
    ensures { IsWorkerCount result }
{
    let Ok(most) = u32::try_from(pieces / PIECES_FOR_EACH) else {
        return asked;
    };
    asked.min(most.max(1))
}

/// Works each part at its place, in this thread, as worker 0.
fn work_alone<W: PartWork, G: Gate>(mut parts: Vec<W::Part>, work: &W, gate: &G) -> Vec<W::Part>
where
    W::Part: Drop,
    requires few { vec_len parts < 2 ^ 32 }
    ensures len { vec_len result ≡ vec_len parts }
    ensures each { IsEachWorked (W.part_of work.now) parts.items result.items }
{
    for k in 0..parts.len() {
        gate.enter(0, k as u32);
        work.work(k as u32, &mut parts[k]);
    }
    parts
}
