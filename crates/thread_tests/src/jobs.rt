//! One table of jobs, its answers and the lengths of its history.

ghost use Rattle.std.specs.Prelude.{◌≡◌, ℕ};
ghost use mathlib.Core.List.{IsPrefix};
ghost use Rattle.job_table.specs.History.{Has, Submits};
ghost use Rattle.job_table.specs.Passes.{IsPassOf, Holds};
ghost use Rattle.thread_tests.specs.Steps.{Keeps};

use job_core::{Entry, Jobs};
use job_table::{Copied, Fits, JobState, JobTable, Late, Outcome, Pass, Receipt, Seen, Ticket};
use std::alloc::{AllocError, Global};
use std::process::Abort;
use std::sync::Wait;

#[derive(Drop)]
struct Square(u32);

impl Fits<u32> for Square {
    ghost fits = { λ a c. Unit {0} };
}

impl Copied for Square {
    fn copied(&self, _alloc: Global) -> Result<Square, AllocError> {
        Ok(Square(self.0))
    }
}

type Table = JobTable<u32, Square>;

type Guest = Pass<u32, Square>;

/// Gives a case to the table, which accepts it under this number: the history has so many entries then.
fn accepted<R: Abort + Wait>(
    rt: &R,
    table: &Table,
    pass: &mut Guest,
    case: u32,
    job: u32,
    len: u64,
) -> Receipt
    requires of { IsPassOf table.now pass.old }
    ensures of { IsPassOf table.now pass.new }
    ensures keeps { Keeps pass.old pass.new }
    ensures submitted { Has pass.new.seen (Submits result.job case) }
{
    let (submitted, history_len) = table.submit(rt, pass, case);
    let Ok(receipt) = submitted else {
        panic!(rt; "the table has room");
    };
    assert!(rt; receipt.job() == job);
    assert!(rt; history_len == len);
    receipt
}

/// Gives a case to the table, which has no room for it.
fn refused<R: Abort + Wait>(
    rt: &R,
    table: &Table,
    pass: &mut Guest,
    case: u32,
    capacity: u32,
    len: u64,
)
    requires of { IsPassOf table.now pass.old }
    ensures of { IsPassOf table.now pass.new }
    ensures keeps { Keeps pass.old pass.new }
{
    let (submitted, history_len) = table.submit(rt, pass, case);
    let Err(full) = submitted else {
        panic!(rt; "the table has no room");
    };
    assert!(rt; full.case == case && full.capacity == capacity);
    assert!(rt; history_len == len);
}

/// Takes a job, which has this number.
fn taken<R: Abort + Wait>(
    rt: &R,
    table: &Table,
    pass: &mut Guest,
    job: u32,
    len: u64,
) -> Ticket<u32>
    requires of { IsPassOf table.now pass.old }
    ensures of { IsPassOf table.now pass.new }
    ensures keeps { Keeps pass.old pass.new }
    ensures job { result.job ≡ job }
    ensures case { Has pass.new.seen (Submits result.job result.case) }
    ensures holds { Holds pass.new.seen pass.new.mine result.job }
{
    let (taken, history_len) = table.take(rt, pass);
    let Some(ticket) = taken else {
        panic!(rt; "a job is queued");
    };
    assert!(rt; history_len == len);
    if ticket.job() != job {
        panic!(rt; "another job is taken");
    }
    ticket
}

/// Sees that no job is there to be taken.
fn none_taken<R: Abort + Wait>(rt: &R, table: &Table, pass: &mut Guest, len: u64)
    requires of { IsPassOf table.now pass.old }
    ensures of { IsPassOf table.now pass.new }
    ensures keeps { Keeps pass.old pass.new }
{
    let (taken, history_len) = table.take(rt, pass);
    if let Some(ticket) = taken {
        table.finish(rt, pass, ticket, Outcome::Memory);
        panic!(rt; "no job is queued");
    }
    assert!(rt; history_len == len);
}

/// Ends a job with this answer.
fn finished<R: Abort + Wait>(
    rt: &R,
    table: &Table,
    pass: &mut Guest,
    ticket: Ticket<u32>,
    answer: u32,
    len: u64,
)
    requires of { IsPassOf table.now pass.old }
    requires holds { Holds pass.old.seen pass.old.mine ticket.job }
    requires case { Has pass.old.seen (Submits ticket.job ticket.case) }
    ensures of { IsPassOf table.now pass.new }
    ensures begins { IsPrefix pass.old.seen pass.new.seen }
    ensures holds { (job : ℕ) → ¬ (job ≡ ticket.job)
        → Holds pass.old.seen pass.old.mine job → Holds pass.new.seen pass.new.mine job }
{
    let history_len = table.finish(rt, pass, ticket, Outcome::Answer(Square(answer)));
    assert!(rt; history_len == len);
}

/// What is seen of a job that was submitted.
fn seen<R: Abort + Wait + AllocGlobal>(
    rt: &R,
    table: &Table,
    pass: &mut Guest,
    receipt: &Receipt,
    len: u64,
) -> Result<Seen<Square>, AllocError>
    requires of { IsPassOf table.now pass.old }
    requires submitted { (c : ℕ) × Has pass.old.seen (Submits receipt.now.job c) }
    ensures of { IsPassOf table.now pass.new }
    ensures keeps { Keeps pass.old pass.new }
{
    let (seen, history_len) = table.fetch(rt, rt.alloc(), pass, receipt);
    assert!(rt; history_len == len);
    seen
}

/// Withdraws a job that was submitted. Gives the state that came before it, if one did.
fn withdrawn<R: Abort + Wait>(
    rt: &R,
    table: &Table,
    pass: &mut Guest,
    receipt: &Receipt,
    len: u64,
) -> Option<JobState>
    requires of { IsPassOf table.now pass.old }
    requires submitted { (c : ℕ) × Has pass.old.seen (Submits receipt.now.job c) }
    ensures of { IsPassOf table.now pass.new }
    ensures keeps { Keeps pass.old pass.new }
{
    let (late, history_len) = table.withdraw(rt, pass, receipt);
    assert!(rt; history_len == len);
    match late {
        Ok(()) => None,
        Err(Late(state)) => Some(state),
    }
}

/// Finishes both jobs of a table of two, of which the first is this receipt's, and looks at it between.
fn finish_both<R: Abort + Wait + AllocGlobal>(
    rt: &R,
    table: &Table,
    pass: &mut Guest,
    receipt: &Receipt,
    first: Ticket<u32>,
    second: Ticket<u32>,
)
    requires of { IsPassOf table.now pass.old }
    requires submitted { (c : ℕ) × Has pass.old.seen (Submits receipt.now.job c) }
    requires two { ¬ (second.job ≡ first.job) }
    requires first { Holds pass.old.seen pass.old.mine first.job }
    requires first_case { Has pass.old.seen (Submits first.job first.case) }
    requires second { Holds pass.old.seen pass.old.mine second.job }
    requires second_case { Has pass.old.seen (Submits second.job second.case) }
{
    finished(rt, table, pass, first, 25, 5);
    let done = seen(rt, table, pass, receipt, 5);
    assert!(rt; matches!(done, Ok(Seen::Done(Outcome::Answer(Square(25))))));
    let late = withdrawn(rt, table, pass, receipt, 5);
    assert!(rt; matches!(late, Some(JobState::Done)));
    finished(rt, table, pass, second, 36, 6);
}

#[test]
fn one_pass_goes_through_all_states(rt: HostRuntime) -> Result<(), AllocError> {
    let (table, mut pass): (Table, Guest) = JobTable::new(rt.alloc(), 2, 1)?;
    let receipt = accepted(&rt, &table, &mut pass, 5, 0, 1);
    accepted(&rt, &table, &mut pass, 6, 1, 2);
    refused(&rt, &table, &mut pass, 7, 2, 2);
    let first = taken(&rt, &table, &mut pass, 0, 3);
    let second = taken(&rt, &table, &mut pass, 1, 4);
    none_taken(&rt, &table, &mut pass, 4);
    let running = seen(&rt, &table, &mut pass, &receipt, 4);
    assert!(&rt; matches!(running, Ok(Seen::Running)));
    finish_both(&rt, &table, &mut pass, &receipt, first, second);
    Ok(())
}

#[test]
fn two_passes_see_one_history(rt: HostRuntime) -> Result<(), AllocError> {
    let (table, mut first): (Table, Guest) = JobTable::new(rt.alloc(), 2, 2)?;
    let mut second = table.split(&mut first, 1);
    let receipt = accepted(&rt, &table, &mut first, 7, 0, 1);
    let ticket = taken(&rt, &table, &mut second, 0, 2);
    assert!(&rt; *ticket.case() == 7);
    let running = seen(&rt, &table, &mut first, &receipt, 2);
    assert!(&rt; matches!(running, Ok(Seen::Running)));
    finished(&rt, &table, &mut second, ticket, 49, 3);
    let done = seen(&rt, &table, &mut first, &receipt, 3);
    assert!(&rt; matches!(done, Ok(Seen::Done(Outcome::Answer(Square(49))))));
    none_taken(&rt, &table, &mut second, 3);
    Ok(())
}

/// A job that is withdrawn still counts among those that the table ever accepted.
#[test]
fn a_withdrawn_job_leaves_no_room(rt: HostRuntime) -> Result<(), AllocError> {
    let (table, mut pass): (Table, Guest) = JobTable::new(rt.alloc(), 1, 1)?;
    let receipt = accepted(&rt, &table, &mut pass, 5, 0, 1);
    assert!(&rt; withdrawn(&rt, &table, &mut pass, &receipt, 2).is_none());
    refused(&rt, &table, &mut pass, 6, 1, 2);
    let gone = seen(&rt, &table, &mut pass, &receipt, 2);
    assert!(&rt; matches!(gone, Ok(Seen::Withdrawn)));
    let late = withdrawn(&rt, &table, &mut pass, &receipt, 2);
    assert!(&rt; matches!(late, Some(JobState::Withdrawn)));
    Ok(())
}

/// What a call answers is of its own step, and not of what its pass saw last: a job that another
/// pass submits after a None is taken, and one that another finishes after a Running is done.
#[test]
fn a_pass_sees_what_another_did(rt: HostRuntime) -> Result<(), AllocError> {
    let (table, mut first): (Table, Guest) = JobTable::new(rt.alloc(), 1, 2)?;
    let mut second = table.split(&mut first, 1);
    none_taken(&rt, &table, &mut second, 0);
    let receipt = accepted(&rt, &table, &mut first, 8, 0, 1);
    let ticket = taken(&rt, &table, &mut second, 0, 2);
    let late = withdrawn(&rt, &table, &mut first, &receipt, 2);
    assert!(&rt; matches!(late, Some(JobState::Running)));
    finished(&rt, &table, &mut second, ticket, 64, 3);
    let late = withdrawn(&rt, &table, &mut first, &receipt, 3);
    assert!(&rt; matches!(late, Some(JobState::Done)));
    none_taken(&rt, &table, &mut second, 3);
    Ok(())
}

/// Takes the next job and answers it.
fn answered<R: Abort + Wait>(rt: &R, table: &Table, pass: &mut Guest, job: u32, answer: u32)
    requires of { IsPassOf table.now pass.old }
    ensures of { IsPassOf table.now pass.new }
    ensures held { pass.new.held ≡ pass.old.held }
    ensures shares { pass.new.shares ≡ pass.old.shares }
{
    let (taken, _) = table.take(rt, pass);
    let Some(ticket) = taken else {
        panic!(rt; "a job is queued");
    };
    let number = ticket.job();
    table.finish(rt, pass, ticket, Outcome::Answer(Square(answer)));
    assert!(rt; number == job);
}

/// Gives a case to the table, which accepts it, and withdraws it where it is to be withdrawn.
fn left<R: Abort + Wait>(rt: &R, table: &Table, pass: &mut Guest, case: u32, is_withdrawn: bool)
    requires of { IsPassOf table.now pass.old }
    ensures of { IsPassOf table.now pass.new }
    ensures held { pass.new.held ≡ pass.old.held }
    ensures shares { pass.new.shares ≡ pass.old.shares }
{
    let (submitted, _) = table.submit(rt, pass, case);
    let Ok(receipt) = submitted else {
        panic!(rt; "the table has room");
    };
    if is_withdrawn {
        let (late, _) = table.withdraw(rt, pass, &receipt);
        assert!(rt; late.is_ok());
    }
}

/// What became of a job by the first letter of its name, with its answer where there is one.
fn letter_and_answer(end: &Seen<Square>) -> (u8, u32) {
    match end {
        Seen::Queued => (b'q', 0),
        Seen::Running => (b'r', 0),
        Seen::Done(Outcome::Answer(square)) => (b'a', square.0),
        Seen::Done(Outcome::Memory) => (b'm', 0),
        Seen::Withdrawn => (b'w', 0),
    }
}

/// Whether these are the ends of three jobs: answered, withdrawn, still queued.
fn are_three_ends(jobs: &[(u32, Seen<Square>)]) -> bool {
    let [(first, one), (second, two), (third, three)] = jobs else {
        return false;
    };
    let answered = *first == 5 && letter_and_answer(one) == (b'a', 25);
    let withdrawn = *second == 6 && letter_and_answer(two) == (b'w', 0);
    let queued = *third == 7 && letter_and_answer(three) == (b'q', 0);
    answered && withdrawn && queued
}

/// A step by the first letter of its name, with its job.
fn letter_and_job(entry: Entry) -> (u8, u32) {
    match entry {
        Entry::Submit(job) => (b's', job),
        Entry::Take(job) => (b't', job),
        Entry::Finish(job) => (b'f', job),
        Entry::Withdraw(job) => (b'w', job),
    }
}

/// A closed table gives each case with what became of it, in the order of submission, and its
/// history.
#[test]
fn a_closed_table_tells_how_each_job_ended(rt: HostRuntime) -> Result<(), AllocError> {
    let (table, mut pass): (Table, Guest) = JobTable::new(rt.alloc(), 3, 1)?;
    left(&rt, &table, &mut pass, 5, false);
    answered(&rt, &table, &mut pass, 0, 25);
    left(&rt, &table, &mut pass, 6, true);
    left(&rt, &table, &mut pass, 7, false);
    let closed = table.close(pass);
    assert!(&rt; are_three_ends(&closed.jobs));
    let steps = [
        (b's', 0),
        (b't', 0),
        (b'f', 0),
        (b's', 1),
        (b'w', 1),
        (b's', 2),
    ];
    assert!(&rt; closed.history.len() == 6);
    for (event, step) in closed.history.iter().zip(steps) {
        assert!(&rt; letter_and_job(event.entry()) == step);
    }
    Ok(())
}

/// The steps of the machine alone, and entries that are none.
#[test]
fn steps_as_the_machine(rt: HostRuntime) -> Result<(), AllocError> {
    let mut jobs = Jobs::new(rt.alloc(), 2)?;
    for (entry, steps, first) in [
        (Entry::Take(0), false, None),
        (Entry::Submit(1), false, None),
        (Entry::Submit(0), true, Some(0)),
        (Entry::Submit(1), true, Some(0)),
        (Entry::Submit(2), false, Some(0)),
        (Entry::Take(1), false, Some(0)),
        (Entry::Finish(0), false, Some(0)),
        (Entry::Take(0), true, Some(1)),
        (Entry::Withdraw(0), false, Some(1)),
        (Entry::Withdraw(1), true, None),
        (Entry::Finish(1), false, None),
        (Entry::Finish(0), true, None),
        (Entry::Finish(0), false, None),
    ] {
        assert!(&rt; jobs.step(entry).is_ok() == steps);
        assert!(&rt; jobs.first_queued() == first);
    }
    assert!(&rt; jobs.len() == 2);
    Ok(())
}
