//! The lock and its turns.

ghost use Rattle.std.specs.Prelude.{◌≡◌, ℕ, ◌+◌, ◌<◌, ◌≤◌, true, false, List, [], ◌∷◌, ◌++◌, length, IfOk, IfErr};
ghost use Rattle.std.specs.Prelude.{◌%◌, ◌^◌, ◌-◌};
ghost use Rattle.tallies.specs.Tallies.{HasEachOnce, Apart};
ghost use Rattle.turn_lock.specs.Lists.{longer, shorter, unite, IsRising};
ghost use Rattle.turn_lock.specs.Turns.{Served, Grows, mine_after};
ghost use mathlib.Core.List.{IsPrefix};

use crate::rule::{Amount, Both, Draw, Gives, InTurn, Leave, Look, Record, Show, Terms, View};
use crate::storied::Storied;
use atomic_table::{Refused, Seat, Shared, Table};
use std::alloc::{AllocFailed, Global};
use std::hint::spin_loop;
use std::marker::{Brand, Model};
use std::snapshot::Snapshot;
use std::sync::Wait;

// The words: the next ticket, the ticket that is served, and the length of the history. Tickets count modulo 2^64.
const TICKET: usize = 0;

const SERVING: usize = 1;

const LENGTH: usize = 2;

/// How often a thread looks before it sleeps.
const LOOKS: u32 = 64;

/// A lock round a state. Threads share it by reference, each with a turn of its own.
#[derive(Drop)]
pub struct TurnLock<S: Storied<E>, E> {
    table: Table<Option<S>, View<E>, Terms<S>, InTurn<S>, Global>,
}

impl<S: Storied<E>, E> Model for TurnLock<S, E> {
    ghost use Rattle.turn_lock.specs.Lock.{LockView};
    ghost use Rattle.std.specs.Prelude.{◌≡◌};

    ghost Value = { LockView };

    ghost view = { λ b. record {
      table = b.table.shared.table_id;
      seats = b.table.shared.key.seats;
    } };

    ghost invariant = { λ b. (b.table.shared.table_id.words ≡ 3)
        × (b.table.shared.table_id.slots ≡ 1) };
}

/// The right to turns. It counts for as many seats as it was given, one at least.
#[derive(Drop)]
pub struct Turn<S, E> {
    seat: Seat<Option<S>, View<E>>,
}

impl<S, E> Model for Turn<S, E> {
    ghost use Rattle.turn_lock.specs.Lock.{TurnView};
    ghost use Rattle.turn_lock.specs.Turns.{AtRest};

    ghost Value = { TurnView E };

    ghost view = { λ t. record {
      table = t.seat.table_id;
      seats = t.seat.me.0.seats;
      fixed = t.seat.me.0.fixed;
      seen = t.seat.me.0.seen;
      mine = t.seat.me.0.mine;
      holds = t.seat.me.0.held;
    } };

    ghost invariant = { λ t. AtRest t.seat.me };
}

fn one_slot<S>(alloc: Global, state: S) -> Result<Vec<Option<S>>, S>
    ensures ok { IfOk result (λ v. v.items ≡ Some state ∷ []) }
    ensures err { IfErr result (λ s. s ≡ state) }
{
    let mut slots = Vec::new(alloc);
    if let Err(failed) = slots.push(Some(state)) {
        let AllocFailed { value } = failed;
        slots.destroy_empty();
        let Some(state) = value else { unreachable!() };
        return Err(state);
    }
    Ok(slots)
}

/// The state that a table had no memory for.
fn only<S>(refused: Refused<Option<S>, Global>) -> S
    requires { (x : S) × (refused.slots.items ≡ Some x ∷ []) }
    ensures { refused.slots.items ≡ Some result ∷ [] }
{
    let Refused { mut slots } = refused;
    let last = slots.pop();
    slots.destroy_empty();
    let Some(slot) = last else { unreachable!() };
    let Some(state) = slot else { unreachable!() };
    state
}

/// Lets time pass: a moment at the first looks, and then until another ticket is served than the one found.
fn pause<R: Wait, S: Storied<E>, E>(
    rt: &R,
    shared: &Shared<Option<S>, View<E>, Terms<S>, InTurn<S>>,
    found: u64,
    looks: u32,
)
    requires { 1 < shared.now.table_id.words }
{
    if looks < LOOKS {
        spin_loop();
    } else {
        shared.park(rt, SERVING, (found & 0xffff_ffff) as u32);
    }
}

/// Looks until the ticket is served, and takes the state out of the slot.
fn wait_for<R: Wait, S: Storied<E>, E>(
    rt: &R,
    shared: &Shared<Option<S>, View<E>, Terms<S>, InTurn<S>>,
    seat: &mut Seat<Option<S>, View<E>>,
    ticket: u64,
)
    requires lock { (seat.old.table_id ≡ shared.now.table_id) × (1 < shared.now.table_id.words) }
    requires waits { (0 < seat.old.me.0.seats) × (seat.old.me.0.out ≡ true)
        × (seat.old.me.0.held ≡ false) }
    requires ticket { ticket ≡ seat.old.me.0.at % 2 ^ 64 }
    ensures seat { (seat.new.table_id ≡ seat.old.table_id) × (seat.new.id ≡ seat.old.id) }
    ensures served { Served S.history S.owns S.fixed seat.old.me seat.new.me }
{
    let mut looks: u32 = 0;
    for _ in rt.forever() {
        let found = shared.load::<Look<S>>(seat, SERVING);
        if found == ticket {
            return;
        }
        pause(rt, shared, found, looks);
        looks = looks.saturating_add(1);
    }
    unreachable!()
}

/// Wakes the turns that wait, where there are any. A ticket drawn later finds the next one served.
fn wake<S: Storied<E>, E>(shared: &Shared<Option<S>, View<E>, Terms<S>, InTurn<S>>, served: u64)
    requires { 1 < shared.now.table_id.words }
{
    if shared.peek(TICKET) != served.wrapping_add(1) {
        shared.wake_all(SERVING);
    }
}

impl<S: Storied<E>, E> TurnLock<S, E> {
    /// A lock for so many seats, and the turn that has them all. Out of memory, the state comes back.
    pub fn new(alloc: Global, state: S, seats: u32) -> Result<(TurnLock<S, E>, Turn<S, E>), S>
        requires fresh { S.history state ≡ [] }
        requires seats { 0 < seats }
        ensures ok { IfOk result (λ r. (r.0.seats ≡ seats)
            × (r.1 ≡ record {
              table = r.0.table;
              seats = seats;
              fixed = S.fixed state;
              seen = [];
              mine = [];
              holds = false;
            })) }
        ensures err { IfErr result (λ s. s ≡ state) }
    {
        let terms = Terms {
            seats,
            first: Snapshot::of(&state),
        };
        let slots = one_slot(alloc, state)?;
        match Table::new(alloc, &[0, 0, 0], slots, &terms) {
            Ok((table, seat)) => Ok((TurnLock { table }, Turn { seat })),
            Err(refused) => Err(only(refused)),
        }
    }

    /// Waits for a turn, and takes the state out. Its history begins with what the turn has seen.
    pub fn turn<R: Wait>(&self, rt: &R, turn: &mut Turn<S, E>) -> S
        requires lock { turn.old.table ≡ self.now.table }
        requires free { turn.old.holds ≡ false }
        ensures begins { IsPrefix turn.old.seen (S.history result) }
        ensures owned { S.owns (S.history result) turn.old.mine }
        ensures fixed { S.fixed result ≡ turn.old.fixed }
        ensures turn { turn.new ≡ record turn.old { seen = S.history result; holds = true } }
    {
        let shared = &self.table.shared;
        let ticket = shared.fetch_add::<Draw>(&mut turn.seat, TICKET, 1);
        wait_for(rt, shared, &mut turn.seat, ticket);
        let Some(state) = shared.exchange(&mut turn.seat, 0, None) else {
            unreachable!()
        };
        state
    }

    /// Gives the state back, with 0 or 1 entries added to its history, and ends the turn. A new place is the turn's.
    pub fn give_back(&self, turn: &mut Turn<S, E>, state: S, added: u64)
        requires lock { turn.old.table ≡ self.now.table }
        requires holds { turn.old.holds ≡ true }
        requires grows { Grows added turn.old.seen (S.history state) }
        requires owned { S.owns (S.history state)
            (mine_after added turn.old.mine (length turn.old.seen)) }
        requires fixed { S.fixed state ≡ turn.old.fixed }
        requires capacity { length (S.history state) < 2 ^ 64 }
        ensures { turn.new ≡ record turn.old {
          seen = S.history state;
          mine = mine_after added turn.old.mine (length turn.old.seen);
          holds = false;
        } }
    {
        let shared = &self.table.shared;
        let old = shared.exchange(&mut turn.seat, 0, Some(state));
        let None = old else { unreachable!() };
        shared.fetch_add::<Record<S>>(&mut turn.seat, LENGTH, added);
        let served = shared.fetch_add::<Leave<S>>(&mut turn.seat, SERVING, 1);
        wake(shared, served);
    }

    /// Gives seats, whose number is in a type, to a new turn.
    fn cut<K: Amount>(&self, turn: &mut Turn<S, E>, give: u32) -> Turn<S, E>
        requires lock { turn.old.table ≡ self.now.table }
        requires free { turn.old.holds ≡ false }
        requires amount { give ≡ K.amount }
        requires give { (0 < give) × (give < turn.old.seats) }
        ensures kept { turn.new ≡ record turn.old { seats = turn.old.seats - give } }
        ensures given { result ≡ record turn.old { seats = give; mine = [] } }
    {
        let seat = self.table.shared.split_seat::<Gives<K>>(&mut turn.seat);
        Turn { seat }
    }

    /// Gives seats to a new turn, which has seen the same and owns no place.
    pub fn split(&self, turn: &mut Turn<S, E>, give: u32) -> Turn<S, E>
        requires lock { turn.old.table ≡ self.now.table }
        requires free { turn.old.holds ≡ false }
        requires give { (0 < give) × (give < turn.old.seats) }
        ensures kept { turn.new ≡ record turn.old { seats = turn.old.seats - give } }
        ensures given { result ≡ record turn.old { seats = give; mine = [] } }
    {
        self.cut::<Brand>(turn, give)
    }

    /// Takes in another turn: its seats, its places, and the longer of the two histories seen.
    pub fn join(&self, turn: &mut Turn<S, E>, other: Turn<S, E>)
        requires lock { (turn.old.table ≡ self.now.table) × (other.table ≡ self.now.table) }
        requires free { (turn.old.holds ≡ false) × (other.holds ≡ false) }
        ensures turn { turn.new ≡ record turn.old {
          seats = turn.old.seats + other.seats;
          seen = longer turn.old.seen other.seen;
          mine = unite turn.old.mine other.mine;
        } }
        ensures begins { IsPrefix (shorter turn.old.seen other.seen)
            (longer turn.old.seen other.seen) }
        ensures apart { Apart turn.old.mine other.mine }
        ensures owned { (log : List E) × IsPrefix turn.new.seen log × S.owns log turn.new.mine }
        ensures rising { IsRising turn.old.mine → IsRising other.mine → IsRising turn.new.mine }
    {
        let Turn { seat } = other;
        self.table.shared.join_seat::<Both>(&mut turn.seat, seat);
        self.table.shared.load::<Show<S>>(&mut turn.seat, 0);
    }

    /// Ends the lock by the turn that has all seats again. The state's history is what that turn has seen, and it owns
    /// every place.
    pub fn close(self, turn: Turn<S, E>) -> S
        requires lock { turn.table ≡ self.table }
        requires free { turn.holds ≡ false }
        requires whole { turn.seats ≡ self.seats }
        ensures history { S.history result ≡ turn.seen }
        ensures fixed { S.fixed result ≡ turn.fixed }
        ensures all { HasEachOnce (length turn.seen) turn.mine }
    {
        let Turn { seat } = turn;
        let TurnLock { table } = self;
        let mut closed = table.close_with(seat);
        let slot = closed.take(0);
        closed.free();
        let Some(state) = slot else { unreachable!() };
        state
    }
}
