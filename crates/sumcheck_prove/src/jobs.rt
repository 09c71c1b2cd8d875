//! What workers work: parts of a layer's tables, parts of its line, and ranges of places to which its gates are gathered.

ghost use Rattle.std.specs.Prelude.{◌≡◌, ℕ, ◌<◌, ◌^◌, [], IfOk, length, map, slice_index_or, vec_len};
ghost use Rattle.field_ext.specs.Field.{K, k_ops};
ghost use Rattle.field_ext.specs.Polynomial.{value_at};
ghost use Rattle.field_ext.specs.Sums.{sum_below};
ghost use Rattle.sumcheck_prove.specs.Jobs.{job_of, round_of};

use crate::adding::{no_message, plus};
use crate::lines::LineShare;
use crate::workers::{PAYING_PARTS, Workers};
use field_ext::Ext;
use io_edge::Gate;
use mle_table::BaseTable;
use phase_run::PartWork;
use round_tables::Share;
use std::alloc::{AllocError, Global};
use std::marker::{PhantomData, Sync};
use std::mem::swap;
use std::thread::Threads;
use table_parts::Part;

/// What a worker is to do: to work a part of the line, where there is one, or to gather a range of places, where there is one, or
/// else to fold a part of the tables by a challenge and to sum it.
#[derive(Drop)]
pub struct Job<'a> {
    part: Part,
    r: Ext,
    sum: [Ext; 3],
    pub(crate) line: Option<LineShare<'a>>,
    pub(crate) share: Option<Share<'a>>,
}

/// The work: each job is done as it says.
#[derive(Drop)]
pub struct Jobs<'a> {
    tables: PhantomData<&'a BaseTable>,
}

impl<'a> Jobs<'a> {
    /// The work of jobs that are over tables of this lifetime.
    pub fn new() -> Jobs<'a> {
        Jobs {
            tables: PhantomData,
        }
    }
}

impl<'a> PartWork for Jobs<'a> {
    ghost use Rattle.sumcheck_prove.specs.Jobs.{work_of};

    type Part = Job<'a>;

    ghost part_of = { λ work k job. work_of k job };

    fn work(&self, k: u32, job: &mut Job<'a>) {
        if let Some(mut line) = job.line.take() {
            line.work(k);
            job.line = Some(line);
        } else if let Some(mut share) = job.share.take() {
            share.gather();
            job.share = Some(share);
        } else {
            job.part.fold(job.r);
            job.sum = job.part.sum();
        }
    }
}

/// A job with no part of the tables in it yet.
pub(crate) fn job_with<'a>(alloc: Global, line: Option<LineShare<'a>>) -> Job<'a>
    ensures { result.line ≡ line.entry }
{
    Job {
        part: Part::empty(alloc),
        r: Ext::zero(),
        sum: no_message(),
        line,
        share: None,
    }
}

/// Jobs for so many parts of the tables, with none in them yet. Err only where no memory is found.
pub fn jobs_for<'a>(alloc: Global, parts: usize) -> Result<Vec<Job<'a>>, AllocError>
    ensures { IfOk result (λ jobs. vec_len jobs ≡ parts) }
{
    let mut jobs = Vec::with_capacity(alloc, parts)?;
    for _ in 0..parts {
        jobs.push(job_with(alloc, None))?;
    }
    Ok(jobs)
}

/// Puts a part into a job, in exchange for the part that is there.
fn take_in(job: &mut Job<'_>, part: &mut Part, r: Ext, none: [Ext; 3])
    ensures job { job.new ≡ job_of r none part.old }
    ensures part { part.new ≡ job.old.part }
{
    swap(&mut job.part, part);
    job.r = r;
    job.sum = none;
    job.line = None;
    job.share = None;
}

/// Takes the part of a job out, in exchange for another.
fn give_back(job: &mut Job<'_>, part: &mut Part)
    ensures { part.new ≡ job.old.part }
{
    swap(&mut job.part, part);
}

/// Puts each part into the job of its place, in exchange for the part that is there.
fn load(parts: &mut [Part], jobs: &mut [Job<'_>], r: Ext, none: [Ext; 3])
    requires same { length jobs.old ≡ length parts.old }
    ensures parts { length parts.new ≡ length parts.old }
    ensures jobs { jobs.new ≡ map (job_of r none) parts.old }
{
    for k in 0..parts.len() {
        take_in(&mut jobs[k], &mut parts[k], r, none);
    }
}

/// Takes the part of each job out to its place, in exchange for the part that is there.
pub(crate) fn unload(jobs: &mut [Job<'_>], parts: &mut [Part])
    requires same { length parts.old ≡ length jobs.old }
    ensures jobs { length jobs.new ≡ length jobs.old }
    ensures parts { parts.new ≡ map (λ job. job.part) jobs.old }
{
    for k in 0..jobs.len() {
        give_back(&mut jobs[k], &mut parts[k]);
    }
}

/// Lets workers fold and sum each part, by the job of its place. The parts are in the jobs then.
pub(crate) fn worked<'a, R: Threads + Sync, G: Gate>(
    workers: &Workers<'_, R, G>,
    parts: &mut Vec<Part>,
    mut jobs: Vec<Job<'a>>,
    r: Ext,
    none: [Ext; 3],
) -> Vec<Job<'a>>
    requires same { vec_len jobs ≡ vec_len parts.old }
    requires few { vec_len jobs < 2 ^ 32 }
    ensures parts { vec_len parts.new ≡ vec_len parts.old }
    ensures jobs { result.items
        ≡ map (λ part. round_of (job_of r none part)) parts.old.items }
{
    load(parts, &mut jobs, r, none);
    workers.work(jobs, PAYING_PARTS)
}

/// What the sums of the jobs add to.
pub(crate) fn added(jobs: &[Job<'_>]) -> [Ext; 3]
    requires { (k : ℕ) → k < length jobs.now
        → length (slice_index_or (map (λ job. job.sum) jobs.now) k []) ≡ 3 }
    ensures three { length result ≡ 3 }
    ensures value { (e : K) → value_at k_ops result e ≡ sum_below k_ops (length jobs.now)
        (λ k. value_at k_ops (slice_index_or (map (λ job. job.sum) jobs.now) k []) e) }
{
    let mut total = no_message();
    for k in 0..jobs.len() {
        total = plus(total, jobs[k].sum);
    }
    total
}
