//! What each thread does at the table.

ghost use Rattle.std.specs.Prelude.{◌≡◌, ◌⊎◌, ◌<◌, ◌≤◌, ◌+◌, ℕ, true, false, [], Ok, Some, slice_get, length, vec_len, vec_capacity};
ghost use mathlib.Core.List.{IsPrefix};
ghost use Rattle.job_table.specs.declared.table.Receipt.{Receipt};
ghost use Rattle.job_table.specs.Passes.{IsPassOf, NoneQueued};
ghost use Rattle.job_table.specs.Slots.{OutcomeFits};
ghost use Rattle.prove_serve.specs.Script.{AreOf, IsOf, IsDuty};
ghost use Rattle.prove_serve.specs.Sound.{ActsFor, AreMarked, IsMarked, HasSubmitted, Offers, submitted_by};

use crate::job::{Job, Reply};
use crate::script::Duty;
use crate::work::CaseWork;
use job_table::{Fits, Full, JobTable, Outcome, Pass, Receipt};
use std::alloc::{AllocError, Global};
use std::snapshot::Snapshot;
use std::sync::Wait;
use std::sync::atomic::{AtomicU64, Ordering};

fn outcome_of<W: CaseWork>(alloc: Global, work: &W, job: &Job<W::Case>) -> Outcome<Reply<W::Answer>>
where
    W::Case: Drop,
    W::Answer: Drop,
    requires { W.works work.now }
    ensures { OutcomeFits (λ reply job. W.Answer.fits reply.answer job.case) result job.now }
{
    match work.work(alloc, &job.case) {
        Ok(answer) => Outcome::Answer(Reply { answer }),
        Err(_) => Outcome::Memory,
    }
}

/// Takes a job and finishes it. False is answered where no job is queued.
fn answer_one<R: Wait, W: CaseWork>(
    rt: &R,
    alloc: Global,
    table: &JobTable<Job<W::Case>, Reply<W::Answer>>,
    pass: &mut Pass<Job<W::Case>, Reply<W::Answer>>,
    script: &Snapshot<Vec<Job<W::Case>>>,
    work: &W,
) -> bool
where
    W::Case: Drop,
    W::Answer: Drop,
    requires works { W.works work.now }
    requires of { IsPassOf table.now pass.old }
    requires idle { pass.old.held ≡ 0 }
    requires acts { ActsFor script.now.value.items pass.old }
    ensures of { IsPassOf table.now pass.new }
    ensures idle { pass.new.held ≡ 0 }
    ensures shares { pass.new.shares ≡ pass.old.shares }
    ensures acts { ActsFor script.now.value.items pass.new }
    ensures begins { IsPrefix pass.old.seen pass.new.seen }
    ensures submits { submitted_by pass.new ≡ submitted_by pass.old }
    ensures drained { result ≡ false → NoneQueued pass.new.seen }
{
    let taken = table.take(rt, pass);
    let Some(ticket) = taken.0 else {
        return false;
    };
    let outcome = outcome_of(alloc, work, ticket.case());
    table.finish(rt, pass, ticket, outcome);
    true
}

/// Takes and finishes jobs until none is queued.
pub(crate) fn drain<R: Wait, W: CaseWork>(
    rt: &R,
    alloc: Global,
    table: &JobTable<Job<W::Case>, Reply<W::Answer>>,
    pass: &mut Pass<Job<W::Case>, Reply<W::Answer>>,
    script: &Snapshot<Vec<Job<W::Case>>>,
    work: &W,
)
where
    W::Case: Drop,
    W::Answer: Drop,
    requires works { W.works work.now }
    requires of { IsPassOf table.now pass.old }
    requires idle { pass.old.held ≡ 0 }
    requires acts { ActsFor script.now.value.items pass.old }
    ensures of { IsPassOf table.now pass.new }
    ensures idle { pass.new.held ≡ 0 }
    ensures shares { pass.new.shares ≡ pass.old.shares }
    ensures acts { ActsFor script.now.value.items pass.new }
    ensures begins { IsPrefix pass.old.seen pass.new.seen }
    ensures submits { submitted_by pass.new ≡ submitted_by pass.old }
    ensures drained { NoneQueued pass.new.seen }
{
    for _ in rt.forever() {
        if !answer_one(rt, alloc, table, pass, script, work) {
            return;
        }
    }
    unreachable!()
}

/// Answers jobs until none is queued and each client has submitted its own. It sleeps where it has to wait for one.
pub(crate) fn prover<R: Wait, W: CaseWork>(
    rt: &R,
    alloc: Global,
    table: &JobTable<Job<W::Case>, Reply<W::Answer>>,
    mut pass: Pass<Job<W::Case>, Reply<W::Answer>>,
    script: &Snapshot<Vec<Job<W::Case>>>,
    submitting: &AtomicU64,
    work: &W,
) -> Pass<Job<W::Case>, Reply<W::Answer>>
where
    W::Case: Drop,
    W::Answer: Drop,
    requires works { W.works work.now }
    requires of { IsPassOf table.now pass }
    requires idle { pass.held ≡ 0 }
    requires acts { ActsFor script.now.value.items pass }
    requires none { submitted_by pass ≡ 0 }
    ensures of { IsPassOf table.now result }
    ensures idle { result.held ≡ 0 }
    ensures shares { result.shares ≡ pass.shares }
    ensures acts { ActsFor script.now.value.items result }
    ensures none { submitted_by result ≡ 0 }
{
    for _ in rt.forever() {
        let clients = submitting.load(Ordering::SeqCst);
        if answer_one(rt, alloc, table, &mut pass, script, work) {
            continue;
        }
        if clients == 0 {
            return pass;
        }
        submitting.park(rt, (clients & 0xffff_ffff) as u32);
    }
    unreachable!()
}

/// Keeps the receipt of a job that is to be withdrawn.
fn keep<C: Drop>(
    receipts: &mut Vec<Receipt>,
    submitted: Result<Receipt, Full<Job<C>>>,
    marked: bool,
)
    requires capacity { vec_len receipts.old < vec_capacity receipts.old }
    ensures kept { (k : ℕ) (r : Receipt) → slice_get receipts.new.items k ≡ Some r
        → (slice_get receipts.old.items k ≡ Some r) ⊎ ((marked ≡ true) × (submitted ≡ Ok r)) }
    ensures few { vec_len receipts.new ≤ vec_len receipts.old + 1 }
    ensures capacity { vec_capacity receipts.old ≤ vec_capacity receipts.new }
{
    let Ok(receipt) = submitted else {
        return;
    };
    if marked {
        receipts.push_reserved(receipt);
    }
}

/// Submits a job, and keeps its receipt where it is marked.
fn submit_one<R: Wait, C: Drop, A: Fits<C> + Drop>(
    rt: &R,
    table: &JobTable<Job<C>, Reply<A>>,
    pass: &mut Pass<Job<C>, Reply<A>>,
    job: Job<C>,
    receipts: &mut Vec<Receipt>,
    script: &Snapshot<Vec<Job<C>>>,
)
    requires of { IsPassOf table.now pass.old }
    requires job { IsOf script.now.value.items job }
    requires acts { ActsFor script.now.value.items pass.old }
    requires marked { AreMarked pass.old.seen receipts.old.items }
    requires capacity { vec_len receipts.old < vec_capacity receipts.old }
    ensures of { IsPassOf table.now pass.new }
    ensures held { pass.new.held ≡ pass.old.held }
    ensures shares { pass.new.shares ≡ pass.old.shares }
    ensures acts { ActsFor script.now.value.items pass.new }
    ensures offers { Offers job pass.old pass.new }
    ensures marked { AreMarked pass.new.seen receipts.new.items }
    ensures few { vec_len receipts.new ≤ vec_len receipts.old + 1 }
    ensures capacity { vec_capacity receipts.old ≤ vec_capacity receipts.new }
{
    let marked = job.marked;
    let (submitted, _) = table.submit(rt, pass, job);
    keep(receipts, submitted, marked);
}

/// Submits the jobs in order. The table has capacity for all.
fn submit_all<R: Wait, C: Drop, A: Fits<C> + Drop>(
    rt: &R,
    table: &JobTable<Job<C>, Reply<A>>,
    pass: &mut Pass<Job<C>, Reply<A>>,
    jobs: Vec<Job<C>>,
    receipts: &mut Vec<Receipt>,
    script: &Snapshot<Vec<Job<C>>>,
)
    requires of { IsPassOf table.now pass.old }
    requires jobs { AreOf script.now.value.items jobs.items }
    requires acts { ActsFor script.now.value.items pass.old }
    requires none { submitted_by pass.old ≡ 0 }
    requires capacity { (vec_len receipts.old ≡ 0)
        × (length jobs.items ≤ vec_capacity receipts.old) }
    ensures of { IsPassOf table.now pass.new }
    ensures held { pass.new.held ≡ pass.old.held }
    ensures shares { pass.new.shares ≡ pass.old.shares }
    ensures acts { ActsFor script.now.value.items pass.new }
    ensures submitted { HasSubmitted pass.new jobs.items }
    ensures marked { AreMarked pass.new.seen receipts.new.items }
{
    for job in jobs {
        submit_one(rt, table, pass, job, receipts, script);
    }
}

/// Withdraws the jobs in order, as far as no thread has taken them.
fn withdraw_all<R: Wait, C, A: Fits<C>>(
    rt: &R,
    table: &JobTable<Job<C>, Reply<A>>,
    pass: &mut Pass<Job<C>, Reply<A>>,
    receipts: Vec<Receipt>,
    script: &Snapshot<Vec<Job<C>>>,
)
    requires of { IsPassOf table.now pass.old }
    requires acts { ActsFor script.now.value.items pass.old }
    requires marked { AreMarked pass.old.seen receipts.items }
    ensures of { IsPassOf table.now pass.new }
    ensures held { pass.new.held ≡ pass.old.held }
    ensures shares { pass.new.shares ≡ pass.old.shares }
    ensures acts { ActsFor script.now.value.items pass.new }
    ensures begins { IsPrefix pass.old.seen pass.new.seen }
    ensures submits { submitted_by pass.new ≡ submitted_by pass.old }
{
    for receipt in receipts {
        let (_withdrawn, _) = table.withdraw(rt, pass, &receipt);
    }
}

/// Submits the jobs in order, withdraws the marked ones, tells the provers, and then answers one job. It leaves the
/// others to the provers, so that these are as many threads as were asked for.
pub(crate) fn client<R: Wait, W: CaseWork>(
    rt: &R,
    alloc: Global,
    table: &JobTable<Job<W::Case>, Reply<W::Answer>>,
    mut pass: Pass<Job<W::Case>, Reply<W::Answer>>,
    duty: Duty<W::Case>,
    script: &Snapshot<Vec<Job<W::Case>>>,
    submitting: &AtomicU64,
    work: &W,
) -> Pass<Job<W::Case>, Reply<W::Answer>>
where
    W::Case: Drop,
    W::Answer: Drop,
    requires works { W.works work.now }
    requires of { IsPassOf table.now pass }
    requires idle { pass.held ≡ 0 }
    requires duty { IsDuty script.now.value.items duty }
    requires acts { ActsFor script.now.value.items pass }
    requires none { submitted_by pass ≡ 0 }
    ensures of { IsPassOf table.now result }
    ensures idle { result.held ≡ 0 }
    ensures shares { result.shares ≡ pass.shares }
    ensures acts { ActsFor script.now.value.items result }
    ensures submitted { HasSubmitted result duty.jobs.items }
{
    let Duty { jobs, mut receipts } = duty;
    submit_all(rt, table, &mut pass, jobs, &mut receipts, script);
    withdraw_all(rt, table, &mut pass, receipts, script);
    submitting.fetch_sub(1, Ordering::SeqCst);
    submitting.wake_all();
    let _ = answer_one(rt, alloc, table, &mut pass, script, work);
    pass
}

/// A thread of the service: a prover, or a client with its jobs.
pub(crate) fn member<R: Wait, W: CaseWork>(
    rt: &R,
    alloc: Global,
    table: &JobTable<Job<W::Case>, Reply<W::Answer>>,
    pass: Pass<Job<W::Case>, Reply<W::Answer>>,
    duty: Duty<W::Case>,
    proves_alone: bool,
    script: &Snapshot<Vec<Job<W::Case>>>,
    submitting: &AtomicU64,
    work: &W,
) -> Pass<Job<W::Case>, Reply<W::Answer>>
where
    W::Case: Drop,
    W::Answer: Drop,
    requires works { W.works work.now }
    requires of { IsPassOf table.now pass }
    requires idle { pass.held ≡ 0 }
    requires duty { IsDuty script.now.value.items duty }
    requires alone { proves_alone ≡ true → duty.jobs.items ≡ [] }
    requires acts { ActsFor script.now.value.items pass }
    requires none { submitted_by pass ≡ 0 }
    ensures of { IsPassOf table.now result }
    ensures idle { result.held ≡ 0 }
    ensures shares { result.shares ≡ pass.shares }
    ensures acts { ActsFor script.now.value.items result }
    ensures submitted { HasSubmitted result duty.jobs.items }
{
    if proves_alone {
        prover(rt, alloc, table, pass, script, submitting, work)
    } else {
        client(rt, alloc, table, pass, duty, script, submitting, work)
    }
}
