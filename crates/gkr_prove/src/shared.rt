//! The rounds of a layer, and its line, by workers that share what is wide.

ghost use Rattle.std.specs.Prelude.{◌≡◌, ◌+◌, ◌<◌, ◌≤◌, ◌^◌, IfOk, IfSome, [], IsTrue, length};
ghost use Rattle.phase_run.specs.Work.{IsWorkerCount};
ghost use Rattle.sumcheck_prove.specs.Ahead.{IsNextMessage};
ghost use Rattle.gkr_prove.specs.Rounds.{AreBegun, IsLineFor, IsLineAhead};

use crate::rounds::{ProvedRounds, note};
use field_ext::Ext;
use io_edge::Gate;
use line_reduce::part_count;
use mle_table::BaseTable;
use proof_wire::ProofForm;
use round_tables::{GateTables, OpenTables};
use std::alloc::{AllocError, Global};
use std::marker::Sync;
use std::thread::{Threads, available_parallelism};
use sumcheck_prove::{
    Advanced, GatherJobs, Job, LineJobs, Workers, advance_by, gather_by, jobs_for, line_by,
};
use transcript_fs::Challenges;

/// Layers of so many values, 2^17, have stages that pay for threads.
const VALUES_TO_SHARE: usize = 131072;

/// There are at most so many parts of a layer's tables.
const PARTS: usize = 512;

/// Workers prove the rounds, and share what is wide.
#[derive(Drop)]
pub(crate) struct Shared<'r, 'a, R, G> {
    workers: Workers<'r, R, G>,
    gather: GatherJobs<'a>,
}

impl<'r, 'a, R: Threads + Sync, G: Gate> Shared<'r, 'a, R, G> {
    /// So many workers at this gate, for a proof whose widest layer has so many gates or values. Err only where no memory is found.
    pub(crate) fn new(
        rt: &'r R,
        alloc: Global,
        asked: u32,
        gate: &'r G,
        widest: usize,
    ) -> Result<Shared<'r, 'a, R, G>, AllocError>
        requires { IsWorkerCount asked }
        ensures { IfOk result (λ shared. shared.gather < 2 ^ 32) }
    {
        let count = if widest < VALUES_TO_SHARE {
            1
        } else {
            processors_for(rt, asked)
        };
        let gather = GatherJobs::new(alloc, ranges_for(count), widest, widest)?;
        Ok(Shared {
            workers: Workers::new(rt, alloc, asked, count, gate),
            gather,
        })
    }
}

/// Proves all rounds of a layer over values of the base field by workers, and may work the layer's line too. Err only where no memory is
/// found.
pub(crate) fn share_rounds<'a, R: Threads + Sync, G: Gate, C: Challenges>(
    shared: &mut Shared<'_, 'a, R, G>,
    alloc: Global,
    form: ProofForm,
    tables: OpenTables<'a>,
    values: &'a BaseTable,
    challenges: &mut C,
) -> Result<ProvedRounds, AllocError>
    requires few { shared.old.gather < 2 ^ 32 }
    requires begun { tables.bound ≡ [] }
    requires most { values.now.k ≤ 20 }
    requires k { tables.k ≡ values.now.k }
    requires has { IsTrue (C.source.has (C.state challenges.old) (tables.k + tables.k)) }
    ensures rounds { IfOk result (λ rounds. AreBegun C.source tables.entry
        (C.state challenges.old) (tables.entry.k + tables.entry.k) rounds.messages.items
        rounds.drawn.items (C.state challenges.new)) }
    ensures line { IfOk result (λ rounds. IsLineAhead values.now.k values.now.items
        rounds.drawn.items rounds.line) }
    ensures few { IfOk result (λ _. shared.new.gather < 2 ^ 32) }
{
    let parts = parts_of_layer(values, shared.workers.count());
    let jobs = jobs_for(alloc, parts)?;
    let line = line_jobs(alloc, form, values, parts)?;
    let ProvedRounds {
        messages,
        drawn,
        buffers,
        line: _,
    } = rounds_by(
        &mut shared.workers,
        alloc,
        tables,
        challenges,
        jobs,
        &mut shared.gather,
    )?;
    let line = line_ahead(&shared.workers, values, &drawn, line);
    Ok(ProvedRounds {
        messages,
        drawn,
        buffers,
        line,
    })
}

/// How many parts of a layer's tables so many workers share, or 0 where the calling thread works alone.
fn parts_of_layer(values: &BaseTable, workers: u32) -> usize
    requires { values.now.k ≤ 20 }
    ensures few { result ≤ 512 }
{
    if workers == 1 || values.values().len() < VALUES_TO_SHARE {
        return 0;
    }
    match part_count(values.k()) {
        Some(count) => count.min(PARTS),
        None => 0,
    }
}

/// What workers take for the line of a layer with so many parts, if the layer ends in one.
fn line_jobs<'a>(
    alloc: Global,
    form: ProofForm,
    values: &'a BaseTable,
    parts: usize,
) -> Result<Option<LineJobs<'a>>, AllocError>
    requires most { values.now.k ≤ 20 }
    requires few { parts ≤ 512 }
    ensures { IfOk result (λ line. IfSome line
        (λ l. IsLineFor l values.now.k values.now.items)) }
{
    let Some(count) = part_count(values.k()) else {
        return Ok(None);
    };
    if parts < count {
        return Ok(None);
    }
    match form {
        ProofForm::Line => Ok(Some(LineJobs::new(alloc, values, count)?)),
        ProofForm::Pair => Ok(None),
    }
}

/// Proves all rounds of a layer by workers, which share the wide ones where there is a job for each part of its tables.
fn rounds_by<'a, R: Threads + Sync, G: Gate, C: Challenges>(
    workers: &mut Workers<'_, R, G>,
    alloc: Global,
    tables: OpenTables<'a>,
    challenges: &mut C,
    mut jobs: Vec<Job<'a>>,
    gather: &mut GatherJobs<'a>,
) -> Result<ProvedRounds, AllocError>
    requires begun { tables.bound ≡ [] }
    requires few { gather.old < 2 ^ 32 }
    requires has { IsTrue (C.source.has (C.state challenges.old) (tables.k + tables.k)) }
    ensures rounds { IfOk result (λ rounds. AreBegun C.source tables.entry
        (C.state challenges.old) (tables.entry.k + tables.entry.k) rounds.messages.items
        rounds.drawn.items (C.state challenges.new)) }
    ensures gather { IfOk result (λ _. gather.new ≡ gather.old) }
{
    let mut tables = gather_by(workers, tables, !jobs.is_empty(), gather);
    let count = tables.rounds_left();
    let mut messages = Vec::with_capacity(alloc, count)?;
    let mut drawn = Vec::with_capacity(alloc, count)?;
    let mut ahead = None;
    for _number in 0..count {
        let message = message_by(workers, &tables, ahead)?;
        let challenge = note(challenges, message, &mut messages, &mut drawn)?;
        let Advanced {
            tables: next,
            jobs: back,
            message: after,
        } = advance_by(workers, tables, challenge, jobs, gather);
        tables = next;
        jobs = back;
        ahead = after;
    }
    let buffers = tables.into_buffers();
    Ok(ProvedRounds {
        messages,
        drawn,
        buffers,
        line: None,
    })
}

/// The message of the next round: the one that was summed with the binding before it, or else summed now.
fn message_by<R: Threads + Sync, G: Gate>(
    workers: &mut Workers<'_, R, G>,
    tables: &GateTables<'_>,
    ahead: Option<[Ext; 3]>,
) -> Result<[Ext; 3], AllocError>
    requires here { tables.now.lent ≡ [] }
    requires left { length tables.now.bound < tables.now.k + tables.now.k }
    requires ahead { IfSome ahead (IsNextMessage tables.now) }
    ensures { IfOk result (IsNextMessage tables.now) }
{
    match ahead {
        Some(message) => Ok(message),
        None => workers.round(tables),
    }
}

/// The line of a layer, where it has jobs for that, at the challenges of its rounds.
fn line_ahead<'a, R: Threads + Sync, G: Gate>(
    workers: &Workers<'_, R, G>,
    values: &BaseTable,
    drawn: &[Ext],
    line: Option<LineJobs<'a>>,
) -> Option<Vec<Ext>>
    requires most { values.now.k ≤ 20 }
    requires drawn { length drawn.now ≡ values.now.k + values.now.k }
    requires line { IfSome line (λ l. IsLineFor l values.now.k values.now.items) }
    ensures { IsLineAhead values.now.k values.now.items drawn.now result }
{
    let jobs = line?;
    let (left, right) = drawn.split_at(values.k() as usize);
    Some(line_by(workers, values, left, right, jobs))
}

/// How many ranges the gates of a layer are gathered in by so many workers, if by several: each goes over all gates, so there are hardly
/// more ranges than workers.
fn ranges_for(workers: u32) -> usize
    ensures { result ≤ 16 }
{
    if workers <= 1 {
        0
    } else if workers <= 2 {
        2
    } else if workers <= 4 {
        4
    } else if workers <= 8 {
        8
    } else {
        16
    }
}

/// How many of so many workers there are processors for, one at least: more would take longer.
fn processors_for<R: Threads>(rt: &R, workers: u32) -> u32
    requires { IsWorkerCount workers }
    ensures { IsWorkerCount result }
{
    let Ok(there) = available_parallelism(rt) else {
        return workers;
    };
    let Ok(most) = u32::try_from(there.get()) else {
        return workers;
    };
    workers.min(most.max(1))
}
