//! All threads of a service.

ghost use Rattle.std.specs.Prelude.{◌≡◌, ℕ, ◌<◌, ◌≤◌, ◌+◌, ◌*◌, ◌^◌, ◌≢◌, ◌⊎◌, true, [], ◌∷◌, ◌++◌, map, Some, length, slice_get, vec_len, vec_capacity, IfOk};
ghost use Rattle.std.specs.Thread.{IsSync, IsSend};
ghost use Rattle.job_table.specs.History.{entries_of};
ghost use Rattle.job_table.specs.Passes.{IsPassOf, NoneQueued};
ghost use Rattle.prove_serve.specs.Script.{AreInPlace, AreDuties, IsDuty, AreOutcomes, AreVacant, ArePlaced, IsPut, plain};
ghost use Rattle.prove_serve.specs.Sound.{ActsFor, HasDone, HasSubmitted, IsServed, submitted_by};
ghost use Rattle.prove_serve.specs.History.{IsHistoryOf};
ghost use Rattle.prove_serve.specs.Reported.{AreReported, place_of, reported};

use crate::job::{Job, Reply};
use crate::outcome::{HistoryOutcome, Run};
use crate::script::{Duty, dealt, numbered, unmarked};
use crate::work::CaseWork;
use crate::worker::{client, drain, member};
use job_table::{Closed, Entry, Event, Fits, JobTable, Outcome, Pass, Seen};
use std::alloc::{AllocError, Global};
use std::snapshot::Snapshot;
use std::sync::Wait;
use std::sync::atomic::AtomicU64;
use std::thread::{Threads, join};

/// The last thread's duty.
fn last<C>(duties: &mut Vec<Duty<C>>, clients: u32, script: &Snapshot<Vec<Job<C>>>) -> Duty<C>
    requires some { 0 < vec_len duties.old }
    requires duties { AreDuties script.now.value.items clients duties.old.items }
    ensures duty { IsDuty script.now.value.items result }
    ensures alone { clients ≤ vec_len duties.new → result.jobs.items ≡ [] }
    ensures fewer { vec_len duties.new + 1 ≡ vec_len duties.old }
    ensures items { duties.old.items ≡ duties.new.items ++ result ∷ [] }
    ensures duties { AreDuties script.now.value.items clients duties.new.items }
{
    let _ = clients;
    let _ = script;
    let Some(duty) = duties.pop() else {
        unreachable!()
    };
    duty
}

/// A pass for one thread more.
fn part<C, A: Fits<C>>(
    table: &JobTable<Job<C>, Reply<A>>,
    pass: &mut Pass<Job<C>, Reply<A>>,
    script: &Snapshot<Vec<Job<C>>>,
) -> Pass<Job<C>, Reply<A>>
    requires of { IsPassOf table.now pass.old }
    requires shares { 1 < pass.old.shares }
    requires acts { ActsFor script.now.value.items pass.old }
    requires none { submitted_by pass.old ≡ 0 }
    ensures of { IsPassOf table.now pass.new × IsPassOf table.now result }
    ensures shares { (pass.new.shares + 1 ≡ pass.old.shares) × (result.shares ≡ 1) }
    ensures held { (pass.new.held ≡ pass.old.held) × (result.held ≡ 0) }
    ensures acts { ActsFor script.now.value.items pass.new
        × ActsFor script.now.value.items result }
    ensures none { (submitted_by pass.new ≡ 0) × (submitted_by result ≡ 0) }
{
    let _ = script;
    table.split(pass, 1)
}

/// Runs a thread for each duty. Those of clients come first, and the provers wait until these have submitted.
#[cycle(threads)]
fn spread<
    R: Threads + Wait + Sync,
    C: Drop + Send,
    A: Fits<C> + Drop + Send,
    W: CaseWork<Case = C, Answer = A> + Sync,
>(
    rt: &R,
    alloc: Global,
    table: &JobTable<Job<C>, Reply<A>>,
    mut pass: Pass<Job<C>, Reply<A>>,
    mut duties: Vec<Duty<C>>,
    clients: u32,
    script: &Snapshot<Vec<Job<C>>>,
    submitting: &AtomicU64,
    work: &W,
) -> Pass<Job<C>, Reply<A>>
    requires works { W.works work.now }
    requires of { IsPassOf table.now pass }
    requires idle { pass.held ≡ 0 }
    requires threads { (0 < vec_len duties) × (vec_len duties ≡ pass.shares) }
    requires duties { AreDuties script.now.value.items clients duties.items }
    requires acts { ActsFor script.now.value.items pass }
    requires none { submitted_by pass ≡ 0 }
    ensures of { IsPassOf table.now result }
    ensures idle { result.held ≡ 0 }
    ensures shares { result.shares ≡ pass.shares }
    ensures acts { ActsFor script.now.value.items result }
    ensures done { HasDone result duties.items }
{
    let duty = last(&mut duties, clients, script);
    if duties.is_empty() {
        return client(rt, alloc, table, pass, duty, script, submitting, work);
    }
    let proves_alone = duties.len() >= clients as usize;
    let theirs = part(table, &mut pass, script);
    let one = move || -> Pass<Job<C>, Reply<A>>
        requires { W.works work.now × IsSync R.row × IsSync W.row × IsSend C.row × IsSend A.row
            × IsPassOf table.now theirs × (theirs.held ≡ 0)
            × IsDuty script.now.value.items duty × (proves_alone ≡ true → duty.jobs.items ≡ [])
            × ActsFor script.now.value.items theirs × (submitted_by theirs ≡ 0) }
        ensures { IsPassOf table.entry.now result × (result.held ≡ 0)
            × (result.shares ≡ theirs.shares) × ActsFor script.entry.now.value.items result
            × HasSubmitted result duty.jobs.items }
    {
        member(
            rt,
            alloc,
            table,
            theirs,
            duty,
            proves_alone,
            script,
            submitting,
            work,
        )
    };
    let others = move || -> Pass<Job<C>, Reply<A>>
        requires { W.works work.now × IsSync R.row × IsSync W.row × IsSend C.row × IsSend A.row
            × IsPassOf table.now pass × (pass.held ≡ 0) × (0 < vec_len duties)
            × (vec_len duties ≡ pass.shares)
            × AreDuties script.now.value.items clients duties.items
            × ActsFor script.now.value.items pass × (submitted_by pass ≡ 0) }
        ensures { IsPassOf table.entry.now result × (result.held ≡ 0)
            × (result.shares ≡ pass.shares) × ActsFor script.entry.now.value.items result
            × HasDone result duties.items }
    {
        spread(
            rt, alloc, table, pass, duties, clients, script, submitting, work,
        )
    };
    let (first, mut all) = join(rt, one, others);
    table.join(&mut all, first);
    all
}

/// How many jobs a table needs capacity for, which is one at least.
fn capacity_for<C>(jobs: &Vec<Job<C>>) -> u32
    requires { vec_len jobs.now ≤ 256 }
    ensures capacity { vec_len jobs.now ≤ result }
    ensures offered { (0 < result) × (result ≤ 256) }
{
    if jobs.is_empty() {
        1
    } else {
        jobs.len() as u32
    }
}

/// Puts all jobs through one table, to its end.
fn run<R: Threads + Wait + Sync, W: CaseWork + Sync>(
    rt: &R,
    alloc: Global,
    jobs: Vec<Job<W::Case>>,
    provers: u32,
    clients: u32,
    work: &W,
) -> Result<Closed<Job<W::Case>, Reply<W::Answer>>, AllocError>
where
    W::Case: Drop + Send,
    W::Answer: Drop + Send,
    requires works { W.works work.now }
    requires few { vec_len jobs ≤ 256 }
    requires places { AreInPlace jobs.items }
    requires provers { provers ≤ 64 }
    requires clients { (0 < clients) × (clients ≤ 64) }
    ensures { IfOk result (λ closed. IsServed (λ reply job. W.Answer.fits reply.answer job.case)
        jobs.items closed.history.items closed.jobs.items) }
{
    let script = Snapshot::of(&jobs);
    let capacity = capacity_for(&jobs);
    let duties = dealt(alloc, jobs, provers, clients)?;
    let (table, pass) = JobTable::new(alloc, capacity, clients + provers)?;
    let submitting = AtomicU64::new(u64::from(clients));
    let mut pass = spread(
        rt,
        alloc,
        &table,
        pass,
        duties,
        clients,
        &script,
        &submitting,
        work,
    );
    drain(rt, alloc, &table, &mut pass, &script, work);
    Ok(table.close(pass))
}

/// Each job's outcome, in the script's order. A job is a client's number, from 1, and a case.
pub fn serve<R: Threads + Wait + Sync, W: CaseWork + Sync>(
    rt: &R,
    alloc: Global,
    jobs: Vec<(u32, W::Case)>,
    provers: u32,
    clients: u32,
    work: &W,
) -> Result<Vec<Outcome<W::Answer>>, AllocError>
where
    W::Case: Drop + Send,
    W::Answer: Drop + Send,
    requires works { W.works work.now }
    requires few { vec_len jobs ≤ 256 }
    requires provers { (0 < provers) × (provers ≤ 64) }
    requires clients { (0 < clients) × (clients ≤ 64) }
    ensures { IfOk result (λ outcomes. AreOutcomes W.Answer.fits jobs.items outcomes.items) }
{
    let mut outcomes = vacant(alloc, jobs.len())?;
    let script = numbered(alloc, unmarked(alloc, jobs)?)?;
    let closed = run(rt, alloc, script, provers, clients, work)?;
    place_all(closed.jobs, &mut outcomes);
    Ok(outcomes)
}

/// Each job's outcome, in the script's order, and a history of a table that these jobs went through, as `IsHistoryOf` says.
/// A job is a client's number, from 1, a case, and whether its client withdraws it once it has submitted all of its jobs.
///
/// A marked job is withdrawn where no thread has taken it yet. With no prover the clients' threads answer one job each, and
/// the caller the others. The error comes where memory runs out, and then the jobs are dropped.
pub fn serve_history<R: Threads + Wait + Sync, W: CaseWork + Sync>(
    rt: &R,
    alloc: Global,
    jobs: Vec<(u32, W::Case, bool)>,
    provers: u32,
    clients: u32,
    work: &W,
) -> Result<Run<W::Answer>, AllocError>
where
    W::Case: Drop + Send,
    W::Answer: Drop + Send,
    requires works { W.works work.now }
    requires few { vec_len jobs ≤ 256 }
    requires provers { provers ≤ 64 }
    requires clients { (0 < clients) × (clients ≤ 64) }
    ensures { IfOk result (λ run. IsHistoryOf W.Answer.fits jobs.items run.outcomes.items
        run.history.items run.places.items) }
{
    let mut outcomes = unended(alloc, jobs.len())?;
    let mut history = Vec::with_capacity(alloc, 3 * jobs.len())?;
    let mut places = Vec::with_capacity(alloc, jobs.len())?;
    let script = numbered(alloc, jobs)?;
    let closed = run(rt, alloc, script, provers, clients, work)?;
    let Closed {
        jobs,
        history: events,
    } = closed;
    copy_entries(events, &mut history);
    copy_places(&jobs, &mut places);
    report_all(jobs, &mut outcomes);
    Ok(Run {
        outcomes,
        history,
        places,
    })
}

/// A place for each outcome.
fn unended<A: Drop>(alloc: Global, count: usize) -> Result<Vec<HistoryOutcome<A>>, AllocError>
    ensures { IfOk result (λ outcomes. vec_len outcomes ≡ count) }
{
    let mut outcomes = Vec::with_capacity(alloc, count)?;
    for _ in 0..count {
        outcomes.push_reserved(HistoryOutcome::Memory);
    }
    Ok(outcomes)
}

/// The steps of the table, without cases and outcomes.
fn copy_entries<C: Drop, A: Drop>(events: Vec<Event<C, A>>, entries: &mut Vec<Entry>)
    requires capacity { (vec_len entries.old ≡ 0)
        × (length events.items ≤ vec_capacity entries.old) }
    ensures { entries.new.items ≡ entries_of events.items }
{
    for event in events {
        entries.push_reserved(event.entry());
    }
}

/// The place of each job.
fn copy_places<C, A>(jobs: &[(Job<C>, Seen<A>)], places: &mut Vec<u32>)
    requires capacity { (vec_len places.old ≡ 0) × (length jobs.now ≤ vec_capacity places.old) }
    ensures { places.new.items ≡ map place_of jobs.now }
{
    for job in jobs {
        places.push_reserved(job.0.place);
    }
}

/// Puts each outcome at its job's place.
fn report_all<C: Drop, A: Fits<C> + Drop>(
    jobs: Vec<(Job<C>, Seen<Reply<A>>)>,
    outcomes: &mut Vec<HistoryOutcome<A>>,
)
    ensures long { vec_len outcomes.new ≡ vec_len outcomes.old }
    ensures each { AreReported jobs.items outcomes.new.items }
{
    for (job, seen) in jobs {
        put_at(outcomes, job.place, reported(seen));
    }
}

fn reported<A>(seen: Seen<Reply<A>>) -> HistoryOutcome<A>
    ensures { result ≡ reported seen }
{
    match seen {
        Seen::Queued | Seen::Running => HistoryOutcome::Memory,
        Seen::Done(Outcome::Answer(Reply { answer })) => HistoryOutcome::Answer(answer),
        Seen::Done(Outcome::Memory) => HistoryOutcome::Memory,
        Seen::Withdrawn => HistoryOutcome::Withdrawn,
    }
}

/// A place for each outcome.
fn vacant<A: Drop>(alloc: Global, count: usize) -> Result<Vec<Outcome<A>>, AllocError>
    ensures { IfOk result (λ outcomes. (vec_len outcomes ≡ count) × AreVacant outcomes.items) }
{
    let mut outcomes = Vec::with_capacity(alloc, count)?;
    for _ in 0..count {
        outcomes.push_reserved(Outcome::Memory);
    }
    Ok(outcomes)
}

/// Puts each outcome at its job's place.
fn place_all<C: Drop, A: Fits<C> + Drop>(
    jobs: Vec<(Job<C>, Seen<Reply<A>>)>,
    outcomes: &mut Vec<Outcome<A>>,
)
    ensures long { vec_len outcomes.new ≡ vec_len outcomes.old }
    ensures each { ArePlaced jobs.items outcomes.old.items outcomes.new.items }
{
    for (job, seen) in jobs {
        put(outcomes, job.place, seen);
    }
}

/// Puts a job's outcome, where it has one, at its place.
fn put<A: Drop>(outcomes: &mut Vec<Outcome<A>>, place: u32, seen: Seen<Reply<A>>)
    ensures long { vec_len outcomes.new ≡ vec_len outcomes.old }
    ensures put { IsPut place seen outcomes.old.items outcomes.new.items }
{
    let Seen::Done(outcome) = seen else {
        return;
    };
    set(outcomes, place, outcome);
}

fn set<A: Drop>(outcomes: &mut Vec<Outcome<A>>, place: u32, outcome: Outcome<Reply<A>>)
    ensures long { vec_len outcomes.new ≡ vec_len outcomes.old }
    ensures at { slice_get outcomes.new.items place ≡ Some (plain outcome)
        ⊎ (vec_len outcomes.old ≤ place) }
    ensures others { (k : ℕ) → k ≢ place
        → slice_get outcomes.new.items k ≡ slice_get outcomes.old.items k }
{
    let plain = match outcome {
        Outcome::Answer(Reply { answer }) => Outcome::Answer(answer),
        Outcome::Memory => Outcome::Memory,
    };
    put_at(outcomes, place, plain);
}

/// Puts the value at this place, where there is one.
fn put_at<T: Drop>(list: &mut Vec<T>, place: u32, value: T)
    ensures long { vec_len list.new ≡ vec_len list.old }
    ensures at { (slice_get list.new.items place ≡ Some value) ⊎ (vec_len list.old ≤ place) }
    ensures others { (k : ℕ) → k ≢ place
        → slice_get list.new.items k ≡ slice_get list.old.items k }
{
    if (place as usize) < list.len() {
        list[place as usize] = value;
    }
}
