//! The line of a layer by workers.

ghost use Rattle.std.specs.Prelude.{◌≡◌, ℕ, ◌+◌, ◌*◌, ◌<◌, ◌≤◌, ◌++◌, [], All, IfOk, length, map, slice_index_or, vec_len, vec_capacity};
ghost use Rattle.field_ext.specs.Field.{k_ops};
ghost use Rattle.field_ext.specs.Polynomial.{coefficients};
ghost use Rattle.gkr_layers.specs.Sumcheck.{line_polynomial};
ghost use Rattle.line_reduce.specs.Parts.{joined, most_coordinates, part_coefficients, part_coordinates, parts_of};
ghost use Rattle.sumcheck_prove.specs.Jobs.{HasLine, aimed, line_of};
ghost use Rattle.sumcheck_prove.specs.Lines.{aimed_line, worked_line};

use crate::jobs::{Job, job_with};
use crate::workers::{PAYING_PARTS, Workers};
use field_ext::Ext;
use io_edge::Gate;
use line_reduce::{LinePart, PART_COEFFICIENTS, line_of_parts};
use mle_table::BaseTable;
use std::alloc::{AllocError, Global};
use std::marker::{Model, Sync};
use std::thread::Threads;

/// A part of a line, and the table over which it is.
#[derive(Drop)]
pub(crate) struct LineShare<'a> {
    part: LinePart,
    table: &'a BaseTable,
}

impl<'a> Model for LineShare<'a> {
    ghost use Rattle.sumcheck_prove.specs.Lines.{LineView};

    ghost Value = { LineView };

    ghost view = { λ l. record { part = l.part; values = l.table.now.items } };
}

impl<'a> LineShare<'a> {
    /// A part of a line over this table, without points yet.
    fn new(alloc: Global, table: &'a BaseTable) -> Result<LineShare<'a>, AllocError>
        ensures { IfOk result (λ line. line.values ≡ table.now.items) }
    {
        Ok(LineShare {
            part: LinePart::new(alloc)?,
            table,
        })
    }

    /// Takes the points of the line.
    fn aim(&mut self, b: &[Ext], c: &[Ext])
        requires start { part_coordinates ≤ length b.now }
        requires end { part_coordinates ≤ length c.now }
        ensures { self.new ≡ aimed_line b.now c.now self.old }
    {
        self.part.aim(b, c);
    }

    /// Works the part with this number.
    pub(crate) fn work(&mut self, k: u32)
        ensures { self.new ≡ worked_line k self.old }
    {
        self.part.work(self.table.values(), k);
    }

    /// The coefficients of the part's line.
    fn line(&self) -> &[Ext]
        ensures { result.now ≡ self.now.part.line }
    {
        self.part.line()
    }
}

/// What a line over a table by workers takes: a job for each part of the table, and a buffer for the lines of all.
#[derive(Drop)]
pub struct LineJobs<'a> {
    jobs: Vec<Job<'a>>,
    lines: Vec<Ext>,
    table: &'a BaseTable,
}

impl<'a> Model for LineJobs<'a> {
    ghost use Rattle.std.specs.Prelude.{◌≡◌, ◌*◌, ◌≤◌, All, vec_len, vec_capacity};
    ghost use Rattle.line_reduce.specs.Parts.{part_coefficients};
    ghost use Rattle.sumcheck_prove.specs.Jobs.{HasLine};
    ghost use Rattle.sumcheck_prove.specs.Lines.{LineJobsView};

    ghost Value = { LineJobsView };

    ghost view = { λ l. record { number = vec_len l.jobs; values = l.table.now.items } };

    ghost invariant = { λ l. All (HasLine l.table.now.items) l.jobs.items × (vec_len l.lines ≡ 0)
        × (part_coefficients * vec_len l.jobs ≤ vec_capacity l.lines) };
}

impl<'a> LineJobs<'a> {
    /// For a line of so many parts over this table. Err only where no memory is found; no later call takes any.
    pub fn new(
        alloc: Global,
        table: &'a BaseTable,
        parts: usize,
    ) -> Result<LineJobs<'a>, AllocError>
        requires few { parts ≤ 512 }
        ensures number { IfOk result (λ jobs. jobs.number ≡ parts) }
        ensures values { IfOk result (λ jobs. jobs.values ≡ table.now.items) }
    {
        let lines = Vec::with_capacity(alloc, PART_COEFFICIENTS * parts)?;
        let jobs = line_jobs(alloc, table, parts)?;
        Ok(LineJobs { jobs, lines, table })
    }
}

/// Jobs for so many parts of a line over this table.
fn line_jobs<'a>(
    alloc: Global,
    table: &'a BaseTable,
    parts: usize,
) -> Result<Vec<Job<'a>>, AllocError>
    ensures count { IfOk result (λ jobs. vec_len jobs ≡ parts) }
    ensures lines { IfOk result (λ jobs. All (HasLine table.now.items) jobs.items) }
{
    let mut jobs = Vec::with_capacity(alloc, parts)?;
    for _ in 0..parts {
        let line = LineShare::new(alloc, table)?;
        jobs.push(job_with(alloc, Some(line)))?;
    }
    Ok(jobs)
}

/// Gives a job the points of the line.
fn aim_job(job: &mut Job<'_>, b: &[Ext], c: &[Ext])
    requires start { part_coordinates ≤ length b.now }
    requires end { part_coordinates ≤ length c.now }
    ensures { job.new ≡ aimed b.now c.now job.old }
{
    if let Some(mut line) = job.line.take() {
        line.aim(b, c);
        job.line = Some(line);
    }
}

/// Gives each job the points of the line.
fn aim_all(jobs: &mut [Job<'_>], b: &[Ext], c: &[Ext])
    requires start { part_coordinates ≤ length b.now }
    requires end { part_coordinates ≤ length c.now }
    ensures { jobs.new ≡ map (aimed b.now c.now) jobs.old }
{
    for k in 0..jobs.len() {
        aim_job(&mut jobs[k], b, c);
    }
}

/// Puts the line of a job after others.
fn add_line(job: &Job<'_>, lines: &mut Vec<Ext>)
    requires { vec_len lines.old + length (line_of job.now) ≤ vec_capacity lines.old }
    ensures items { lines.new.items ≡ lines.old.items ++ line_of job.now }
    ensures capacity { vec_capacity lines.old ≤ vec_capacity lines.new }
{
    if let Some(line) = &job.line {
        let Ok(()) = lines.extend_from_slice(line.line()) else {
            unreachable!()
        };
    }
}

/// The lines of all jobs, one after another.
fn collected(jobs: &[Job<'_>], mut lines: Vec<Ext>) -> Vec<Ext>
    requires none { vec_len lines ≡ 0 }
    requires sizes { (k : ℕ) → k < length jobs.now
        → length (slice_index_or (map line_of jobs.now) k []) ≡ part_coefficients }
    requires capacity { part_coefficients * length jobs.now ≤ vec_capacity lines }
    ensures { result.items
        ≡ joined (λ k. slice_index_or (map line_of jobs.now) k []) (length jobs.now) }
{
    for k in 0..jobs.len() {
        add_line(&jobs[k], &mut lines);
    }
    lines
}

/// The coefficients of the line from `b`, at 0, to `c`, at 1, over the table that the jobs are for, as `line_poly` gives them:
/// workers work the parts of the table, in any order. It takes no memory but for their claims.
pub fn line_by<'a, R: Threads + Sync, G: Gate>(
    workers: &Workers<'_, R, G>,
    table: &BaseTable,
    b: &[Ext],
    c: &[Ext],
    jobs: LineJobs<'a>,
) -> Vec<Ext>
    requires least { part_coordinates ≤ table.now.k }
    requires most { table.now.k ≤ most_coordinates }
    requires start { length b.now ≡ table.now.k }
    requires end { length c.now ≡ table.now.k }
    requires values { jobs.values ≡ table.now.items }
    requires parts { jobs.number ≡ parts_of table.now.k }
    ensures line { result.items ≡ coefficients k_ops (table.now.k + 1)
        (line_polynomial k_ops table.now.items b.now c.now) }
{
    let LineJobs {
        mut jobs,
        lines,
        ..
    } = jobs;
    aim_all(&mut jobs, b, c);
    let jobs = workers.work(jobs, PAYING_PARTS);
    let lines = collected(&jobs, lines);
    line_of_parts(table, lines, b, c)
}
