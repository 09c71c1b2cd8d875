//! The board of parts and its claimers.

ghost use Rattle.std.specs.Prelude.{◌≡◌, ℕ, ◌-◌, ◌<◌, ◌≤◌, ◌↔◌, ◌^◌, true, false, [], length, Some, None, IfOk, IfErr, IfSome, IfNone, IsTrue, vec_len, slice_get, All};
ghost use Rattle.std.specs.List.{range_with_len};
ghost use Rattle.std.specs.List.Sorted.{IsPermutation};
ghost use Rattle.tallies.specs.Tallies.{times};
ghost use Rattle.chunk_board.specs.PartViews.{IsOfParts, IsFresh, IsPartClaim, IsPut, took, gave, united_parts};

use crate::part_rule::{Done, HomeOrHeld, Look, PartHand, PartPlan, Take};
use crate::rule::{Amount, Both, Gives};
use crate::slots::{brought_home, emptied, filled, vacant};
use atomic_table::{Refused, Seat, Table};
use std::alloc::Global;
use std::marker::{Brand, Model};
use std::snapshot::Snapshot;

/// The word of the next number.
const NEXT: usize = 0;

/// The word of how many parts were put back.
const BACK: usize = 1;

/// A board of numbered parts, which lie in its slots. Claimers draw them, each once, and put them back, from any number of
/// threads.
#[derive(Drop)]
pub struct PartBoard<T: Drop> {
    table: Table<Option<T>, PartHand<T>, PartPlan<T>, HomeOrHeld, Global>,
    count: u32,
    buffer: Vec<T>,
}

impl<T: Drop> Model for PartBoard<T> {
    ghost use Rattle.std.specs.Prelude.{◌≡◌, ◌≤◌, length, vec_len, vec_capacity};
    ghost use Rattle.chunk_board.specs.PartViews.{PartBoardView};

    ghost Value = { PartBoardView T };

    ghost view = { λ b. record {
      table = b.table.shared.table_id;
      parts = b.table.shared.key.parts.value.items;
      shares = b.table.shared.key.shares;
    } };

    ghost invariant = { λ b. let n = length b.table.shared.key.parts.value.items in
        (b.table.shared.table_id.words ≡ 2) × (b.table.shared.table_id.slots ≡ n) × (b.count ≡ n)
        × (vec_len b.buffer ≡ 0) × (b.count ≤ vec_capacity b.buffer) };
}

/// The right to claim parts of one board, one at a time: some of its shares, what was drawn and put back under them, and the
/// number of the part that is out, if any.
#[derive(Drop)]
pub struct PartClaimer<T> {
    shares: u32,
    holding: Option<u32>,
    stopped: bool,
    seat: Seat<Option<T>, PartHand<T>>,
}

impl<T> Model for PartClaimer<T> {
    ghost use Rattle.std.specs.Prelude.{◌≡◌, ◌<◌, [], ◌∷◌, None, MatchOption};
    ghost use Rattle.chunk_board.specs.PartViews.{PartClaimerView};

    ghost Value = { PartClaimerView T };

    ghost view = { λ c. record {
      table = c.seat.table_id;
      parts = c.seat.me.0.parts;
      shares = c.shares;
      drawn = c.seat.me.0.drawn;
      put = c.seat.me.0.put;
      held = c.holding;
      stopped = c.stopped;
    } };

    ghost invariant = { λ c. let m = c.seat.me in (0 < c.shares) × (m.0.shares ≡ c.shares)
        × (m.0.stopped ≡ c.stopped) × (m.0.held ≡ c.holding)
        × MatchOption c.holding (m.1 ≡ []) (λ k. m.1 ≡ (k, None) ∷ []) };
}

/// What a closed board gives: whether each part was drawn, and the parts in their order.
#[derive(Drop)]
pub struct Parts<T: Drop> {
    pub all: bool,
    pub parts: Vec<T>,
}

impl<T> PartClaimer<T> {
    /// Whether a claim of this claimer, or of one that it comes from or took in, found no part left.
    pub fn stopped(&self) -> bool
        ensures { result ≡ self.now.stopped }
    {
        self.stopped
    }

    /// How many of the board's shares it holds.
    pub fn shares(&self) -> u32
        ensures { result ≡ self.now.shares }
    {
        self.shares
    }

    /// The number of the part that it drew and didn't put back yet.
    pub fn holding(&self) -> Option<u32>
        ensures { result ≡ self.now.held }
    {
        self.holding
    }
}

impl<T: Drop> PartBoard<T> {
    /// A board of these parts, none of them drawn, and a claimer with all shares. Err only where no memory is found, with
    /// the parts as before; no other call takes any.
    pub fn new(
        alloc: Global,
        mut parts: Vec<T>,
        shares: u32,
    ) -> Result<(PartBoard<T>, PartClaimer<T>), Vec<T>>
        requires some { 0 < vec_len parts }
        requires few { vec_len parts < 2 ^ 32 }
        requires shares { 0 < shares }
        ensures board { IfOk result (λ r. IsOfParts r.0 r.1) }
        ensures parts { IfOk result (λ r. r.0.parts ≡ parts.items) }
        ensures shares { IfOk result (λ r. (r.0.shares ≡ shares) × (r.1.shares ≡ shares)) }
        ensures fresh { IfOk result (λ r. IsFresh r.1) }
        ensures refused { IfErr result (λ back. back.items ≡ parts.items) }
    {
        let count = parts.len();
        let plan = PartPlan {
            shares,
            parts: Snapshot::of(&parts),
        };
        let Ok(slots) = vacant(alloc, count) else {
            return Err(parts);
        };
        let slots = filled(slots, &mut parts);
        match Table::new(alloc, &[0, 0], slots, &plan) {
            Ok((table, seat)) => {
                let board = PartBoard {
                    table,
                    count: count as u32,
                    buffer: parts,
                };
                let claimer = PartClaimer {
                    shares,
                    holding: None,
                    stopped: false,
                    seat,
                };
                Ok((board, claimer))
            }
            Err(refused) => {
                let Refused { slots } = refused;
                emptied(slots, &mut parts);
                Err(parts)
            }
        }
    }

    /// How many parts there are, drawn or not.
    pub fn count(&self) -> u32
        ensures { result ≡ length self.now.parts }
    {
        self.count
    }

    /// Draws the next part, by one `fetch_add`, and takes it out of its slot. None comes exactly where at that step each part
    /// was drawn, by this or another claimer, and it stops the claimer.
    pub fn claim_part(&self, claimer: &mut PartClaimer<T>) -> Option<(u32, T)>
        requires board { IsOfParts self.now claimer.old }
        requires going { claimer.old.stopped ≡ false }
        requires free { claimer.old.held ≡ None }
        ensures part { IfSome result (λ r. slice_get self.now.parts r.0 ≡ Some r.1) }
        ensures some { IfSome result (λ r. claimer.new ≡ took r.0 claimer.old) }
        ensures few { length claimer.new.drawn ≤ length self.now.parts }
        ensures step { IsPartClaim claimer.old result claimer.new }
        ensures none { IfNone result (claimer.new ≡ record claimer.old { stopped = true }) }
    {
        let found = self
            .table
            .shared
            .fetch_add::<Take>(&mut claimer.seat, NEXT, 1);
        if found < u64::from(self.count) {
            let slot = self
                .table
                .shared
                .exchange(&mut claimer.seat, found as usize, None);
            claimer.holding = Some(found as u32);
            let Some(part) = slot else { unreachable!() };
            Some((found as u32, part))
        } else {
            claimer.stopped = true;
            None
        }
    }

    /// Puts a part into the slot of the part that the claimer holds, and counts it.
    pub fn put_back(&self, claimer: &mut PartClaimer<T>, k: u32, part: T)
        requires board { IsOfParts self.now claimer.old }
        requires holds { claimer.old.held ≡ Some k }
        ensures put { claimer.new ≡ gave k part claimer.old }
        ensures step { IsPut claimer.old k claimer.new }
    {
        let old = self
            .table
            .shared
            .exchange(&mut claimer.seat, k as usize, Some(part));
        let None = old else { unreachable!() };
        self.table
            .shared
            .fetch_add::<Done>(&mut claimer.seat, BACK, 1);
        claimer.holding = None;
    }

    /// `split`, whose amount the step's rule knows by the type K.
    fn cut<K: Amount>(&self, claimer: &mut PartClaimer<T>, give: u32) -> PartClaimer<T>
        requires board { IsOfParts self.now claimer.old }
        requires free { claimer.old.held ≡ None }
        requires amount { give ≡ K.amount }
        requires give { (0 < give) × (give < claimer.old.shares) }
        ensures kept { claimer.new ≡ record claimer.old { shares = claimer.old.shares - give } }
        ensures given { result ≡ record claimer.old { shares = give; drawn = []; put = [] } }
    {
        let seat = self.table.shared.split_seat::<Gives<K>>(&mut claimer.seat);
        claimer.shares -= give;
        PartClaimer {
            shares: give,
            holding: None,
            stopped: claimer.stopped,
            seat,
        }
    }

    /// Gives shares to a new claimer, which has drawn nothing, and is stopped where this one is. No part may be out.
    pub fn split(&self, claimer: &mut PartClaimer<T>, give: u32) -> PartClaimer<T>
        requires board { IsOfParts self.now claimer.old }
        requires free { claimer.old.held ≡ None }
        requires give { (0 < give) × (give < claimer.old.shares) }
        ensures kept { claimer.new ≡ record claimer.old { shares = claimer.old.shares - give } }
        ensures given { result ≡ record claimer.old { shares = give; drawn = []; put = [] } }
    {
        self.cut::<Brand>(claimer, give)
    }

    /// Takes in another claimer of the board: its shares, what it drew and put back, and its mark where it has stopped. No
    /// part of either may be out.
    pub fn join(&self, claimer: &mut PartClaimer<T>, other: PartClaimer<T>)
        requires board { IsOfParts self.now claimer.old × IsOfParts self.now other }
        requires free { (claimer.old.held ≡ None) × (other.held ≡ None) }
        ensures { claimer.new ≡ united_parts claimer.old other }
    {
        let PartClaimer {
            shares,
            holding: _,
            stopped,
            seat,
        } = other;
        self.table.shared.join_seat::<Both>(&mut claimer.seat, seat);
        self.table.shared.load::<Look>(&mut claimer.seat, NEXT);
        claimer.shares += shares;
        claimer.stopped = claimer.stopped || stopped;
    }

    /// Whether each part was drawn, and the parts in their order, as the claimer that has all shares again knows: for each the
    /// one that was put back for it, or the part as it was where it wasn't drawn.
    pub fn close(self, claimer: PartClaimer<T>) -> Parts<T>
        requires board { IsOfParts self claimer }
        requires whole { claimer.shares ≡ self.shares }
        requires free { claimer.held ≡ None }
        ensures len { vec_len result.parts ≡ length self.parts }
        ensures put { All (λ p. slice_get result.parts.items p.0 ≡ Some p.1) claimer.put }
        ensures kept { (k : ℕ) (x : T) → times k claimer.drawn ≡ 0 → slice_get self.parts k ≡ Some x
            → slice_get result.parts.items k ≡ Some x }
        ensures stopped { claimer.stopped ≡ true → IsTrue result.all }
        ensures all { IsTrue result.all
            ↔ IsPermutation (range_with_len 0 (length self.parts)) claimer.drawn }
    {
        let PartClaimer { seat, .. } = claimer;
        let PartBoard {
            table,
            count,
            buffer,
        } = self;
        let closed = table.close_with(seat);
        let next = closed.word(NEXT);
        let parts = brought_home(closed, count as usize, buffer);
        Parts {
            all: next >= u64::from(count),
            parts,
        }
    }
}
