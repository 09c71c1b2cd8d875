//! The rule of a board of parts, that it is the claim machine with slots, and what its steps make known.

use crate::rule::{Amount, Both, Gives};
use atomic_table::{Join, Play, Split, TableRule};
use std::collections::LinkedList;
use std::snapshot::Snapshot;

/// What a claimer of parts knows: a worker of the machine, beside the parts as they were, what it put back and the number of
/// the part that it holds. No value of it is made.
pub struct PartHand<T> {
    pub parts: LinkedList<T>,
    pub shares: u32,
    pub drawn: LinkedList<u32>,
    pub put: LinkedList<(u32, T)>,
    pub held: Option<u32>,
    pub stopped: bool,
}

/// What a board of parts is made with.
#[derive(Drop)]
pub struct PartPlan<T> {
    pub shares: u32,
    pub parts: Snapshot<Vec<T>>,
}

pub struct HomeOrHeld;

impl<T> TableRule<Option<T>, PartHand<T>, PartPlan<T>> for HomeOrHeld {
    ghost use Rattle.chunk_board.specs.PartHands.{KeptParts, newcomer};

    ghost holds = { KeptParts };

    ghost first = { newcomer };
}

pub struct Take;

impl<T> Play<Option<T>, PartHand<T>> for Take {
    ghost use Rattle.chunk_board.specs.PartHands.{TookPart};

    ghost then = { TookPart };
}

pub struct Done;

impl<T> Play<Option<T>, PartHand<T>> for Done {
    ghost use Rattle.chunk_board.specs.PartHands.{PutPart};

    ghost then = { PutPart };
}

pub struct Look;

impl<T> Play<Option<T>, PartHand<T>> for Look {
    ghost use Rattle.chunk_board.specs.PartHands.{CountedParts};

    ghost then = { CountedParts };
}

impl<T, K: Amount> Split<PartHand<T>> for Gives<K> {
    ghost use Rattle.chunk_board.specs.PartHands.{left_part_hand, right_part_hand};

    ghost left = { left_part_hand K.amount };

    ghost right = { right_part_hand K.amount };
}

impl<T> Join<PartHand<T>> for Both {
    ghost use Rattle.chunk_board.specs.PartHands.{joined_parts, spent_parts};

    ghost both = { joined_parts };

    ghost spent = { spent_parts };
}
