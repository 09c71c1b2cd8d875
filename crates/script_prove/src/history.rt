//! A script from its jobs to their replies and the history of its table.

ghost use Rattle.std.specs.Prelude.{◌≡◌, ◌≤◌, ◌<◌, map, length, get_or, vec_len, IfOk};
ghost use Rattle.std.specs.Thread.{IsSync};
ghost use Rattle.phase_run.specs.Work.{IsWorkerCount};
ghost use Rattle.script_text.specs.declared.script.MarkedJob.{MarkedJob};
ghost use Rattle.script_prove.specs.Served.{AreReportedTo, IsServed, IsServedHistory, IsReportedTo, line_of, marked_job};

use crate::prover::{ByCalls, JobReply, reply};
use crate::script::Threading;
use case_text::{HistoryLine, ServedHistory, ServedJob};
use io_edge::Gate;
use prove_serve::{Entry, HistoryOutcome, Run, serve_history};
use script_text::{MarkedJob, ScriptJob};
use std::alloc::{AllocError, Global};
use std::marker::Sync;
use std::sync::Wait;
use std::thread::Threads;

/// The replies to the jobs of a script, in its order, and the lines of a history of them, as `IsServedHistory` says. Running out of
/// memory in one job is that of all.
pub fn serve_script_history<R: Threads + Wait + Sync, G: Gate>(
    rt: &R,
    alloc: Global,
    script: Vec<MarkedJob>,
    threading: Threading,
    gate: &G,
) -> Result<ServedHistory, AllocError>
    requires few { vec_len script ≤ 256 }
    requires workers { IsWorkerCount threading.workers }
    requires provers { (0 < threading.provers) × (threading.provers ≤ 64) }
    requires clients { (0 < threading.clients) × (threading.clients ≤ 64) }
    ensures { IfOk result (λ history. IsServedHistory script.items history.jobs history.lines) }
{
    let clients = client_numbers(alloc, &script)?;
    let jobs = marked(alloc, script)?;
    let workers = threading.workers;
    let work = ByCalls {
        answer: |job: &ScriptJob| -> Result<JobReply, AllocError>
            requires { IsSync R.row × IsWorkerCount workers }
            ensures { IfOk result (λ reply. IsServed job.now reply.job) }
        { reply(rt, alloc, job, workers, gate) },
    };
    let run = serve_history(rt, alloc, jobs, threading.provers, threading.clients, &work)?;
    let Run {
        outcomes,
        history,
        places,
    } = run;
    let lines = history_lines(alloc, &history, &places)?;
    let served = replies(alloc, outcomes, &clients)?;
    Ok(ServedHistory::new(served, lines))
}

/// The client of each job.
fn client_numbers(alloc: Global, script: &[MarkedJob]) -> Result<Vec<u32>, AllocError>
    ensures { IfOk result (λ clients. clients.items
        ≡ map (λ (job : MarkedJob). job.client) script.now) }
{
    let mut clients = Vec::with_capacity(alloc, script.len())?;
    for job in script {
        clients.push_reserved(job.client);
    }
    Ok(clients)
}

/// Each job as the service takes it.
fn marked(alloc: Global, script: Vec<MarkedJob>) -> Result<Vec<(u32, ScriptJob, bool)>, AllocError>
    ensures { IfOk result (λ jobs. jobs.items ≡ map marked_job script.items) }
{
    let mut jobs = Vec::with_capacity(alloc, script.len())?;
    for job in script {
        let MarkedJob {
            client,
            case,
            withdraw,
        } = job;
        jobs.push_reserved((client, ScriptJob { client, case }, withdraw));
    }
    Ok(jobs)
}

/// A line of the history.
fn history_line(entry: Entry, places: &[u32]) -> HistoryLine
    ensures { result ≡ line_of places.now entry }
{
    match entry {
        Entry::Submit(job) => HistoryLine::Submit {
            job,
            place: number_at(places, job as usize),
        },
        Entry::Take(job) => HistoryLine::Take(job),
        Entry::Finish(job) => HistoryLine::Finish(job),
        Entry::Withdraw(job) => HistoryLine::Withdraw(job),
    }
}

/// The number at a place of a list, or 0 after its end.
fn number_at(numbers: &[u32], place: usize) -> u32
    ensures { result ≡ get_or numbers.now place 0 }
{
    if place < numbers.len() {
        numbers[place]
    } else {
        0
    }
}

/// The lines of the history.
fn history_lines(
    alloc: Global,
    history: &[Entry],
    places: &[u32],
) -> Result<Vec<HistoryLine>, AllocError>
    ensures { IfOk result (λ lines. lines.items ≡ map (line_of places.now) history.now) }
{
    let mut lines = Vec::with_capacity(alloc, history.len())?;
    for entry in history {
        lines.push_reserved(history_line(*entry, places));
    }
    Ok(lines)
}

/// What is reported of an outcome.
fn reported(
    alloc: Global,
    outcome: HistoryOutcome<JobReply>,
    client: u32,
) -> Result<ServedJob, AllocError>
    ensures { IfOk result (λ served. IsReportedTo client outcome served) }
{
    match outcome {
        HistoryOutcome::Answer(reply) => Ok(reply.job),
        HistoryOutcome::Memory => Err(AllocError),
        HistoryOutcome::Withdrawn => ServedJob::withdrawn(alloc, client),
    }
}

/// The replies, where no outcome is out of memory.
fn replies(
    alloc: Global,
    outcomes: Vec<HistoryOutcome<JobReply>>,
    clients: &[u32],
) -> Result<Vec<ServedJob>, AllocError>
    requires { length clients.now ≡ length outcomes.items }
    ensures { IfOk result (λ served. AreReportedTo clients.now outcomes.items served.items) }
{
    let mut served = Vec::with_capacity(alloc, outcomes.len())?;
    let mut place: usize = 0;
    for outcome in outcomes {
        served.push_reserved(reported(alloc, outcome, number_at(clients, place))?);
        place += 1;
    }
    Ok(served)
}
