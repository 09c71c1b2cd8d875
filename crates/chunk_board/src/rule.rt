//! The rule of the board, that it is the claim machine, and what its steps make known.

ghost use Rattle.std.specs.Prelude.{ℕ};

use atomic_table::{Join, Play, Split, TableRule};
use std::collections::LinkedList;
use std::marker::{Brand, PhantomData};

/// What a claimer knows: a worker of the machine, beside the number of pieces. No value of it is made.
pub struct Hand {
    pub pieces: u32,
    pub shares: u32,
    pub drawn: LinkedList<u32>,
    pub stopped: bool,
}

/// What a board is made with.
#[derive(Drop)]
pub struct Plan {
    pub pieces: u32,
    pub shares: u32,
}

pub struct EachOnce;

impl TableRule<(), Hand, Plan> for EachOnce {
    ghost use Rattle.std.specs.Prelude.{false, []};
    ghost use Rattle.chunk_board.specs.Hands.{hand, Kept};

    ghost holds = { Kept };

    ghost first = { λ p. hand p.pieces p.shares [] false };
}

pub struct Claim;

impl Play<(), Hand> for Claim {
    ghost use Rattle.chunk_board.specs.Hands.{Claimed};

    ghost then = { Claimed };
}

pub struct Count;

impl Play<(), Hand> for Count {
    ghost use Rattle.chunk_board.specs.Hands.{Counted};

    ghost then = { Counted };
}

/// How many shares are given away. Each call picks it.
pub trait Amount {
    ghost amount: { ℕ };
}

impl Amount for Brand {
    ghost amount = { 0 };
}

pub struct Gives<K> {
    of: PhantomData<K>,
}

impl<K: Amount> Split<Hand> for Gives<K> {
    ghost use Rattle.chunk_board.specs.Hands.{left_hand, right_hand};

    ghost left = { left_hand K.amount };

    ghost right = { right_hand K.amount };
}

pub struct Both;

impl Join<Hand> for Both {
    ghost use Rattle.chunk_board.specs.Hands.{joined, spent};

    ghost both = { joined };

    ghost spent = { spent };
}
