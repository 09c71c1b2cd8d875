//! The work of the service: the reply of `prove` to a job's case.

ghost use Rattle.std.specs.Prelude.{◌≡◌, IfOk, Result};
ghost use Rattle.std.specs.Fn.{FnReturnsAt};
ghost use Rattle.std.specs.declared.alloc.AllocError.{AllocError};
ghost use Rattle.script_text.specs.declared.script.ScriptJob.{ScriptJob};
ghost use Rattle.script_prove.specs.declared.prover.JobReply.{JobReply};
ghost use Rattle.phase_run.specs.Work.{IsWorkerCount};
ghost use Rattle.script_prove.specs.Served.{IsServed};

use case_prove::answer_case;
use case_text::ServedJob;
use io_edge::Gate;
use job_table::Fits;
use prove_serve::CaseWork;
use script_text::ScriptJob;
use std::alloc::{AllocError, Global};
use std::marker::Sync;
use std::sync::Wait;
use std::thread::Threads;

/// The reply to a job.
#[derive(Drop)]
pub(crate) struct JobReply {
    pub(crate) job: ServedJob,
}

impl Fits<ScriptJob> for JobReply {
    ghost use Rattle.script_prove.specs.Served.{IsServed};

    ghost fits = { λ reply job. IsServed job reply.job };
}

/// Answers jobs by calls of a closure.
#[derive(Drop)]
pub(crate) struct ByCalls<F: Fn(&ScriptJob) -> Result<JobReply, AllocError>> {
    pub(crate) answer: F,
}

impl<F: Fn(&ScriptJob) -> Result<JobReply, AllocError>> CaseWork for ByCalls<F> {
    type Case = ScriptJob;

    type Answer = JobReply;

    // It may be called, and its calls give the reply to the job.
    ghost works = { λ work. F.IsAlwaysCallable work.answer
        × ((job : ScriptJob) (r : Result JobReply AllocError) → FnReturnsAt F.Fn work.answer job r
        → IfOk r (λ reply. IsServed job reply.job)) };

    fn work(&self, _alloc: Global, job: &ScriptJob) -> Result<JobReply, AllocError> {
        (self.answer)(job)
    }
}

/// The reply to a job, whose case is proved by so many workers.
pub(crate) fn reply<R: Threads + Wait + Sync, G: Gate>(
    rt: &R,
    alloc: Global,
    job: &ScriptJob,
    workers: u32,
    gate: &G,
) -> Result<JobReply, AllocError>
    requires { IsWorkerCount workers }
    ensures { IfOk result (λ reply. IsServed job.now reply.job) }
{
    let answered = answer_case(rt, alloc, &job.case, workers, gate)?;
    let proved = answered.proved();
    Ok(JobReply {
        job: ServedJob::new(job.client, proved, answered.into_text()),
    })
}
