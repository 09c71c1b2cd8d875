//! A script from its jobs to their replies.

ghost use Rattle.std.specs.Prelude.{◌≡◌, ◌≤◌, ◌<◌, map, vec_len, IfOk};
ghost use Rattle.std.specs.Thread.{IsSync};
ghost use Rattle.phase_run.specs.Work.{IsWorkerCount};
ghost use Rattle.script_prove.specs.Served.{AreServed, IsServed, numbered_job, answer_of};

use crate::prover::{ByCalls, JobReply, reply};
use case_text::ServedJob;
use io_edge::Gate;
use prove_serve::{Outcome, serve};
use script_text::ScriptJob;
use std::alloc::{AllocError, Global};
use std::marker::Sync;
use std::sync::Wait;
use std::thread::Threads;

/// How many workers a proof has, how many threads prove, and how many submit and prove: each from 1 to 64.
#[derive(Clone, Copy, Debug)]
pub struct Threading {
    pub workers: u32,
    pub provers: u32,
    pub clients: u32,
}

/// The replies to the jobs of a script, in its order. Where one job runs out of memory, all have.
pub fn serve_script<R: Threads + Wait + Sync, G: Gate>(
    rt: &R,
    alloc: Global,
    script: Vec<ScriptJob>,
    threading: Threading,
    gate: &G,
) -> Result<Vec<ServedJob>, AllocError>
    requires few { vec_len script ≤ 256 }
    requires workers { IsWorkerCount threading.workers }
    requires provers { (0 < threading.provers) × (threading.provers ≤ 64) }
    requires clients { (0 < threading.clients) × (threading.clients ≤ 64) }
    ensures { IfOk result (λ served. AreServed script.items served.items) }
{
    let jobs = numbered(alloc, script)?;
    let workers = threading.workers;
    let work = ByCalls {
        answer: |job: &ScriptJob| -> Result<JobReply, AllocError>
            requires { IsSync R.row × IsWorkerCount workers }
            ensures { IfOk result (λ reply. IsServed job.now reply.job) }
        { reply(rt, alloc, job, workers, gate) },
    };
    let outcomes = serve(rt, alloc, jobs, threading.provers, threading.clients, &work)?;
    served(alloc, outcomes)
}

/// Each job with its client's number.
fn numbered(alloc: Global, script: Vec<ScriptJob>) -> Result<Vec<(u32, ScriptJob)>, AllocError>
    ensures { IfOk result (λ jobs. jobs.items ≡ map numbered_job script.items) }
{
    let mut jobs = Vec::with_capacity(alloc, script.len())?;
    for job in script {
        jobs.push_reserved((job.client, job));
    }
    Ok(jobs)
}

/// The replies, where no job ran out of memory.
fn served(alloc: Global, outcomes: Vec<Outcome<JobReply>>) -> Result<Vec<ServedJob>, AllocError>
    ensures { IfOk result (λ served. outcomes.items ≡ map answer_of served.items) }
{
    let mut served = Vec::with_capacity(alloc, outcomes.len())?;
    for outcome in outcomes {
        let Outcome::Answer(reply) = outcome else {
            return Err(AllocError);
        };
        served.push_reserved(reply.job);
    }
    Ok(served)
}
