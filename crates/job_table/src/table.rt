//! The shared table.

ghost use Rattle.std.specs.Prelude.{◌≡◌, ℕ, ◌<◌, ◌≤◌, ◌+◌, ◌-◌, ◌^◌, true, false, [], ◌∷◌, ◌++◌, length, Some, IfOk, MatchResult, MatchOption, slice_get};
ghost use Rattle.tallies.specs.Tallies.{HasEachOnce, Apart};
ghost use Rattle.turn_lock.specs.Lists.{longer, shorter, unite};
ghost use mathlib.Core.List.{IsPrefix};
ghost use Rattle.job_core.specs.JobMachine.{before_queued, are_steps};
ghost use Rattle.job_table.specs.declared.event.Event.TheVariants.{Take, Withdraw};
ghost use Rattle.job_core.specs.declared.entry.JobState.TheVariants.{Queued};
ghost use Rattle.job_table.specs.declared.event.Outcome.TheVariants.{Answer};
ghost use Rattle.job_table.specs.History.{jobs_of, entries_of, Has, Submits, Finishes};
ghost use Rattle.job_table.specs.Slots.{OutcomeFits, IsSeen, AreEnds};
ghost use Rattle.job_table.specs.Passes.{IsPassOf, Looks, Adds, Holds, NoneQueued, NoneRunning, Pairs};

use crate::event::{Event, Outcome};
use crate::pass::{Pass, PassOver};
use crate::slot::Seen;
use crate::state::{Closed, State};
use crate::values::{Copied, Fits};
use job_core::JobState;
use std::alloc::{AllocError, Global};
use std::marker::Model;
use std::sync::Wait;
use turn_lock::{Storied, Turn, TurnLock};

/// A job that the table accepted.
#[derive(Drop)]
pub struct Receipt {
    job: u32,
}

impl Receipt {
    pub fn job(&self) -> u32
        ensures { result ≡ self.now.job }
    {
        self.job
    }
}

/// A case that the table had no capacity for.
#[derive(Drop)]
pub struct Full<C> {
    pub case: C,
    pub capacity: u32,
}

/// A job to be done, with its case. It must be finished.
pub struct Ticket<C> {
    job: u32,
    case: C,
}

impl<C> Ticket<C> {
    pub fn job(&self) -> u32
        ensures { result ≡ self.now.job }
    {
        self.job
    }

    pub fn case(&self) -> &C
        ensures { result.now ≡ self.now.case }
    {
        &self.case
    }
}

/// The state of a job that could no longer be withdrawn.
#[derive(Drop)]
pub struct Late(pub JobState);

/// A table whose state is `S` and whose events are `E`.
#[derive(Drop)]
pub struct TableOver<S: Storied<E>, E> {
    lock: TurnLock<S, E>,
    capacity: u32,
}

impl<S: Storied<E>, E> Model for TableOver<S, E> {
    ghost use Rattle.job_table.specs.Passes.{TableView};

    ghost Value = { TableView };

    ghost view = { λ t. record {
      table = t.lock.table;
      shares = t.lock.seats;
      capacity = t.capacity;
    } };
}

/// Threads share it by reference, each with a pass of its own.
pub type JobTable<C, A> = TableOver<State<C, A>, Event<C, A>>;

impl<C, A: Fits<C>> TableOver<State<C, A>, Event<C, A>> {
    pub fn new(
        alloc: Global,
        capacity: u32,
        passes: u32,
    ) -> Result<(JobTable<C, A>, Pass<C, A>), AllocError>
    where
        C: Drop,
        A: Drop,
        requires capacity { (0 < capacity) × (capacity ≤ 256) }
        requires passes { (0 < passes) × (passes ≤ 256) }
        ensures of { IfOk result (λ made. IsPassOf made.0 made.1) }
        ensures table { IfOk result (λ made. (made.0.capacity ≡ capacity)
            × (made.0.shares ≡ passes)) }
        ensures pass { IfOk result (λ made. (made.1.shares ≡ passes) × (made.1.seen ≡ [])
            × (made.1.mine ≡ []) × (made.1.held ≡ 0)) }
    {
        let state = State::new(alloc, capacity)?;
        match TurnLock::new(alloc, state, passes) {
            Ok((lock, turn)) => Ok((TableOver { lock, capacity }, PassOver { turn, held: 0 })),
            Err(_) => Err(AllocError),
        }
    }

    /// The state, at this pass's turn.
    fn enter<R: Wait>(&self, rt: &R, turn: &mut Turn<State<C, A>, Event<C, A>>) -> State<C, A>
        requires table { turn.old.table ≡ self.now.table }
        requires free { turn.old.holds ≡ false }
        ensures begins { IsPrefix turn.old.seen result.1 }
        ensures owned { Pairs result.1 turn.old.mine }
        ensures capacity { result.0 ≡ turn.old.fixed }
        ensures steps { are_steps turn.old.fixed [] (entries_of result.1) ≡ true }
        ensures turn { turn.new ≡ record turn.old { seen = result.1; holds = true } }
    {
        let state = self.lock.turn(rt, turn);
        state.history_len();
        state
    }

    /// Gives a case to the table. It takes no memory.
    pub fn submit<R: Wait>(
        &self,
        rt: &R,
        pass: &mut Pass<C, A>,
        case: C,
    ) -> (Result<Receipt, Full<C>>, u64)
        requires of { IsPassOf self.now pass.old }
        ensures of { IsPassOf self.now pass.new × (pass.new.held ≡ pass.old.held) }
        ensures history_len { result.1 ≡ length pass.new.seen }
        ensures begins { IsPrefix pass.old.seen pass.new.seen }
        ensures answer { MatchResult result.0
            (λ receipt. Adds pass.old (λ before e. (receipt.job ≡ length (jobs_of before))
            × Submits receipt.job case e) pass.new
            × Has pass.new.seen (Submits receipt.job case))
            (λ full. Looks pass.old pass.new × (full.case ≡ case)
            × (full.capacity ≡ self.now.capacity)
            × (length (jobs_of pass.new.seen) ≡ self.now.capacity)) }
    {
        let mut state = self.enter(rt, &mut pass.turn);
        match state.submit(case) {
            Ok(job) => {
                let history_len = state.history_len();
                self.lock.give_back(&mut pass.turn, state, 1);
                (Ok(Receipt { job }), history_len)
            }
            Err(case) => {
                let history_len = state.history_len();
                self.lock.give_back(&mut pass.turn, state, 0);
                let capacity = self.capacity;
                (Err(Full { case, capacity }), history_len)
            }
        }
    }

    /// Takes the queued job of least number. None comes where no job is queued.
    pub fn take<R: Wait>(&self, rt: &R, pass: &mut Pass<C, A>) -> (Option<Ticket<C>>, u64)
        requires of { IsPassOf self.now pass.old }
        ensures of { IsPassOf self.now pass.new }
        ensures begins { IsPrefix pass.old.seen pass.new.seen }
        ensures history_len { result.1 ≡ length pass.new.seen }
        ensures answer { MatchOption result.0
            (Looks pass.old pass.new × NoneQueued pass.new.seen)
            (λ ticket. Adds pass.old (λ before e. (ticket.job ≡ before_queued (jobs_of before))
            × (e ≡ Take ticket.job)) pass.new
            × Has pass.new.seen (Submits ticket.job ticket.case)
            × Holds pass.new.seen pass.new.mine ticket.job
            × (pass.new.held ≡ pass.old.held + 1)) }
    {
        let mut state = self.enter(rt, &mut pass.turn);
        match state.take() {
            Some((job, case)) => {
                let history_len = state.history_len();
                self.lock.give_back(&mut pass.turn, state, 1);
                pass.held += 1;
                (Some(Ticket { job, case }), history_len)
            }
            None => {
                let history_len = state.history_len();
                self.lock.give_back(&mut pass.turn, state, 0);
                (None, history_len)
            }
        }
    }

    /// Ends a job that the pass has taken. It is never refused.
    pub fn finish<R: Wait>(
        &self,
        rt: &R,
        pass: &mut Pass<C, A>,
        ticket: Ticket<C>,
        outcome: Outcome<A>,
    ) -> u64
    where
        C: Drop,
        A: Drop,
        requires of { IsPassOf self.now pass.old }
        requires holds { Holds pass.old.seen pass.old.mine ticket.job }
        requires case { Has pass.old.seen (Submits ticket.job ticket.case) }
        requires fits { OutcomeFits A.fits outcome ticket.case }
        ensures of { IsPassOf self.now pass.new × (pass.new.held + 1 ≡ pass.old.held) }
        ensures begins { IsPrefix pass.old.seen pass.new.seen }
        ensures history_len { result ≡ length pass.new.seen }
        ensures adds { Adds pass.old (λ _ e. Finishes ticket.job outcome e) pass.new }
    {
        let mut state = self.enter(rt, &mut pass.turn);
        let Ticket { job, case } = ticket;
        state.finish(job, case, outcome);
        let history_len = state.history_len();
        self.lock.give_back(&mut pass.turn, state, 1);
        pass.held -= 1;
        history_len
    }

    /// The job as it is at this call's step. Memory runs out only for the copy of an answer.
    pub fn fetch<R: Wait>(
        &self,
        rt: &R,
        alloc: Global,
        pass: &mut Pass<C, A>,
        receipt: &Receipt,
    ) -> (Result<Seen<A>, AllocError>, u64)
    where
        A: Copied,
        requires of { IsPassOf self.now pass.old }
        requires submitted { (c : C) × Has pass.old.seen (Submits receipt.now.job c) }
        ensures of { IsPassOf self.now pass.new }
        ensures begins { IsPrefix pass.old.seen pass.new.seen }
        ensures looks { Looks pass.old pass.new }
        ensures history_len { result.1 ≡ length pass.new.seen }
        ensures answer { MatchResult result.0 (IsSeen A.fits pass.new.seen receipt.now.job)
            (λ _. (a : A) × Has pass.new.seen (Finishes receipt.now.job (Answer a))) }
    {
        let state = self.enter(rt, &mut pass.turn);
        let seen = state.fetch(alloc, receipt.job);
        let history_len = state.history_len();
        self.lock.give_back(&mut pass.turn, state, 0);
        (seen, history_len)
    }

    /// Withdraws a job that is still queued.
    pub fn withdraw<R: Wait>(
        &self,
        rt: &R,
        pass: &mut Pass<C, A>,
        receipt: &Receipt,
    ) -> (Result<(), Late>, u64)
        requires of { IsPassOf self.now pass.old }
        requires submitted { (c : C) × Has pass.old.seen (Submits receipt.now.job c) }
        ensures of { IsPassOf self.now pass.new × (pass.new.held ≡ pass.old.held) }
        ensures begins { IsPrefix pass.old.seen pass.new.seen }
        ensures history_len { result.1 ≡ length pass.new.seen }
        ensures answer { MatchResult result.0
            (λ _. Adds pass.old (λ before e.
            (slice_get (jobs_of before) receipt.now.job ≡ Some Queued)
            × (e ≡ Withdraw receipt.now.job)) pass.new)
            (λ late. Looks pass.old pass.new
            × (slice_get (jobs_of pass.new.seen) receipt.now.job ≡ Some late.0)
            × ¬ (slice_get (jobs_of pass.new.seen) receipt.now.job ≡ Some Queued)) }
    {
        let mut state = self.enter(rt, &mut pass.turn);
        match state.withdraw(receipt.job) {
            Ok(()) => {
                let history_len = state.history_len();
                self.lock.give_back(&mut pass.turn, state, 1);
                (Ok(()), history_len)
            }
            Err(found) => {
                let history_len = state.history_len();
                self.lock.give_back(&mut pass.turn, state, 0);
                (Err(Late(found)), history_len)
            }
        }
    }

    /// Gives shares to a new pass, which holds nothing.
    pub fn split(&self, pass: &mut Pass<C, A>, give: u32) -> Pass<C, A>
        requires of { IsPassOf self.now pass.old }
        requires give { (0 < give) × (give < pass.old.shares) }
        ensures of { IsPassOf self.now pass.new × IsPassOf self.now result }
        ensures kept { pass.new ≡ record pass.old { shares = pass.old.shares - give } }
        ensures given { result ≡ record pass.old { shares = give; mine = []; held = 0 } }
    {
        let turn = self.lock.split(&mut pass.turn, give);
        PassOver { turn, held: 0 }
    }

    /// Takes in another pass. Neither holds a ticket.
    pub fn join(&self, pass: &mut Pass<C, A>, other: Pass<C, A>)
        requires of { IsPassOf self.now pass.old × IsPassOf self.now other }
        requires idle { (pass.old.held ≡ 0) × (other.held ≡ 0) }
        ensures of { IsPassOf self.now pass.new }
        ensures pass { pass.new ≡ record pass.old {
          shares = pass.old.shares + other.shares;
          seen = longer pass.old.seen other.seen;
          mine = unite pass.old.mine other.mine;
        } }
        ensures begins { IsPrefix (shorter pass.old.seen other.seen)
            (longer pass.old.seen other.seen) }
        ensures apart { Apart pass.old.mine other.mine }
    {
        let PassOver { turn, held: _ } = other;
        self.lock.join(&mut pass.turn, turn);
    }

    /// Ends the table. Every ticket was finished, so each job has its case again.
    pub fn close(self, pass: Pass<C, A>) -> Closed<C, A>
    where
        C: Drop,
        A: Drop,
        requires of { IsPassOf self pass }
        requires whole { pass.shares ≡ self.shares }
        requires idle { pass.held ≡ 0 }
        ensures history { result.history.items ≡ pass.seen }
        ensures jobs { AreEnds A.fits pass.seen result.jobs.items }
        ensures all { HasEachOnce (length pass.seen) pass.mine }
        ensures ended { NoneRunning pass.seen }
    {
        let PassOver { turn, held: _ } = pass;
        let TableOver { lock, capacity: _ } = self;
        lock.close(turn).close()
    }
}
