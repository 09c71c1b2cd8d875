//! The gathering of a layer's gates by workers.

ghost use Rattle.std.specs.Prelude.{◌≡◌, ◌≤◌, ◌<◌, ◌^◌, ℕ, IfOk, false, true, length, vec_len};
ghost use Rattle.sumcheck_prove.specs.Jobs.{HasRange, HaveRanges};

use crate::jobs::{Job, jobs_for};
use crate::workers::Workers;
use io_edge::Gate;
use round_tables::{Collecting, GateTables, Gathered, Lending, OpenTables, Rooms, Share, Unlent};
use std::alloc::{AllocError, Global};
use std::marker::{Model, Sync};
use std::mem::replace;
use std::thread::Threads;

/// What gathering by workers takes: a job and a room for each range. Seen as the number of ranges.
#[derive(Drop)]
pub struct GatherJobs<'a> {
    alloc: Global,
    jobs: Vec<Job<'a>>,
    rooms: Rooms,
}

impl<'a> Model for GatherJobs<'a> {
    ghost use Rattle.std.specs.Prelude.{◌≡◌, ℕ, vec_len};

    ghost Value = { ℕ };

    ghost view = { λ g. vec_len g.jobs };

    ghost invariant = { λ g. g.rooms ≡ vec_len g.jobs };
}

impl<'a> GatherJobs<'a> {
    /// For gathering in so many ranges over tables of up to so many values, of layers of up to so many gates. Err only where no memory
    /// is found; no later call takes any for such a layer.
    pub fn new(
        alloc: Global,
        ranges: usize,
        gates: usize,
        values: usize,
    ) -> Result<GatherJobs<'a>, AllocError>
        ensures { IfOk result (λ jobs. jobs ≡ ranges) }
    {
        Ok(GatherJobs {
            alloc,
            jobs: jobs_for(alloc, ranges)?,
            rooms: Rooms::new(alloc, ranges, gates, values)?,
        })
    }
}

/// Gives a job a range.
fn take_share<'a>(job: &mut Job<'a>, share: Share<'a>)
    ensures { HasRange share.entry job.new }
{
    job.line = None;
    job.share = Some(share);
}

/// Lends the first jobs the ranges of their places.
fn lend_all<'a>(lending: &mut Lending<'a>, jobs: &mut [Job<'a>])
    requires none { lending.old.lent ≡ 0 }
    requires number { lending.old.number ≤ length jobs.old }
    ensures lent { lending.new ≡ record lending.old { lent = lending.old.number } }
    ensures jobs { length jobs.new ≡ length jobs.old }
    ensures ranges { HaveRanges lending.old.sum lending.old.parts lending.old.size false
        lending.old.number jobs.new }
{
    for k in 0..lending.count() {
        take_share(&mut jobs[k], lending.lend());
    }
}

/// Takes the range of a job out.
fn give_share<'a>(job: &mut Job<'a>) -> Option<Share<'a>>
    ensures { result ≡ job.old.share }
{
    job.share.take()
}

/// Takes the ranges of the first jobs back.
fn collect_all<'a>(collecting: &mut Collecting<'a>, jobs: &mut [Job<'a>])
    requires none { collecting.old.back ≡ 0 }
    requires number { collecting.old.number ≤ length jobs.old }
    requires ranges { HaveRanges collecting.old.sum collecting.old.parts collecting.old.size true
        collecting.old.number jobs.old }
    ensures back { collecting.new ≡ record collecting.old { back = collecting.old.number } }
    ensures jobs { length jobs.new ≡ length jobs.old }
{
    for k in 0..collecting.count() {
        let Some(share) = give_share(&mut jobs[k]) else {
            unreachable!()
        };
        collecting.take_back(share);
    }
}

/// The tables of the phase that begins, gathered by workers in ranges.
fn gathered_by<'a, R: Threads + Sync, G: Gate>(
    workers: &Workers<'_, R, G>,
    mut lending: Lending<'a>,
    gather: &mut GatherJobs<'a>,
    mut jobs: Vec<Job<'a>>,
) -> GateTables<'a>
    requires none { lending.lent ≡ 0 }
    requires rooms { lending.rooms ≡ vec_len jobs }
    requires number { lending.number ≤ vec_len jobs }
    requires few { vec_len jobs < 2 ^ 32 }
    ensures tables { result ≡ lending.entry.sum }
    ensures gather { gather.new ≡ vec_len jobs.entry }
{
    lend_all(&mut lending, &mut jobs);
    let mut jobs = workers.work(jobs, 1);
    let mut collecting = lending.collect();
    collect_all(&mut collecting, &mut jobs);
    let Gathered { tables, rooms } = collecting.gathered();
    gather.jobs = jobs;
    gather.rooms = rooms;
    tables
}

/// The tables of the phase that begins, as `OpenTables::gathered` makes them: in a wide layer workers gather ranges of their places, in
/// any order. Where there aren't two, or they don't divide the tables, the calling thread gathers alone. Past the claims of the workers it
/// takes no memory but where the jobs are for a narrower layer.
pub fn gather_by<'a, R: Threads + Sync, G: Gate>(
    workers: &Workers<'_, R, G>,
    tables: OpenTables<'a>,
    wide: bool,
    gather: &mut GatherJobs<'a>,
) -> GateTables<'a>
    requires few { gather.old < 2 ^ 32 }
    ensures tables { result ≡ tables.entry }
    ensures gather { gather.new ≡ gather.old }
{
    if !wide {
        return tables.gathered();
    }
    let jobs = replace(&mut gather.jobs, Vec::new(gather.alloc));
    let rooms = replace(&mut gather.rooms, Rooms::none(gather.alloc));
    match tables.lend(rooms) {
        Ok(lending) => gathered_by(workers, lending, gather, jobs),
        Err(unlent) => {
            let Unlent { tables, rooms } = unlent;
            gather.jobs = jobs;
            gather.rooms = rooms;
            tables.gathered()
        }
    }
}
