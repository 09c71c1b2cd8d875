//! The rule of the lock, and what each kind of step makes known.

ghost use Rattle.std.specs.Prelude.{ℕ};

use crate::storied::Storied;
use atomic_table::{Join, Play, Split, TableRule};
use std::collections::LinkedList;
use std::marker::{Brand, PhantomData};
use std::snapshot::Snapshot;

/// What a turn knows. No value of it is made.
///
/// `known` is the beginning that it last learnt to begin what it has `seen`; `out` says that it has the ticket `at`,
/// and `held` that it holds the state.
pub struct View<E> {
    pub seats: u32,
    pub fixed: u64,
    pub seen: LinkedList<E>,
    pub mine: LinkedList<u64>,
    pub known: LinkedList<E>,
    pub out: bool,
    pub held: bool,
    pub at: u64,
}

/// The rule: tickets are served one by one, and each turn has seen a beginning of one history.
pub struct InTurn<S> {
    of: PhantomData<S>,
}

/// What a lock was made with: how many seats there are, and its first state.
#[derive(Drop)]
pub struct Terms<S> {
    pub seats: u32,
    pub first: Snapshot<S>,
}

impl<S: Storied<E>, E> TableRule<Option<S>, View<E>, Terms<S>> for InTurn<S> {
    ghost use Rattle.turn_lock.specs.Turns.{IsLock, newcomer};

    ghost holds = { λ terms. IsLock S.history S.owns S.fixed (S.fixed terms.first.value)
        terms.seats };

    ghost first = { λ terms. newcomer (S.fixed terms.first.value) terms.seats };
}

/// A ticket is drawn.
pub struct Draw;

impl<S, E> Play<Option<S>, View<E>> for Draw {
    ghost use Rattle.turn_lock.specs.Turns.{drew};

    ghost then = { drew };
}

/// A look at the ticket that is served. Where it is the turn's own, the state comes out of the slot.
pub struct Look<S> {
    of: PhantomData<S>,
}

impl<S: Storied<E>, E> Play<Option<S>, View<E>> for Look<S> {
    ghost use Rattle.turn_lock.specs.Turns.{looked};

    ghost then = { looked S.history S.owns S.fixed };
}

/// The length of the history grows by the entries added.
pub struct Record<S> {
    of: PhantomData<S>,
}

impl<S: Storied<E>, E> Play<Option<S>, View<E>> for Record<S> {
    ghost use Rattle.turn_lock.specs.Turns.{recorded};

    ghost then = { recorded S.history S.owns S.fixed };
}

/// The next ticket is served.
pub struct Leave<S> {
    of: PhantomData<S>,
}

impl<S: Storied<E>, E> Play<Option<S>, View<E>> for Leave<S> {
    ghost use Rattle.turn_lock.specs.Turns.{left};

    ghost then = { left S.history S.owns S.fixed };
}

/// A look that makes known what the rule says of the turn's own view.
pub struct Show<S> {
    of: PhantomData<S>,
}

impl<S: Storied<E>, E> Play<Option<S>, View<E>> for Show<S> {
    ghost use Rattle.turn_lock.specs.Turns.{known_so};

    ghost then = { known_so S.history S.owns S.fixed };
}

/// How many seats are given away. Each call picks it.
pub trait Amount {
    ghost amount: { ℕ };
}

impl Amount for Brand {
    ghost amount = { 0 };
}

/// A turn is split in two.
pub struct Gives<K> {
    of: PhantomData<K>,
}

impl<K: Amount, E> Split<View<E>> for Gives<K> {
    ghost use Rattle.turn_lock.specs.Turns.{kept, given};

    ghost left = { kept K.amount };

    ghost right = { given K.amount };
}

/// Two turns become one.
pub struct Both;

impl<E> Join<View<E>> for Both {
    ghost use Rattle.turn_lock.specs.Turns.{joined, spent};

    ghost both = { joined };

    ghost spent = { spent };
}
