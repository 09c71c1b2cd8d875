//! What a turn takes of the lock that clients and provers share their jobs by, where no other thread waits.

ghost use Rattle.std.specs.Prelude.{◌≡◌, ◌<◌, false, [], IfOk};

use bench_parts::nanoseconds_since;
use std::alloc::{AllocError, Global};
use std::io;
use std::sync::Wait;
use std::time::Instant;
use turn_lock::{Storied, Turn, TurnLock};

/// A state that has no history.
#[derive(Drop)]
struct Count {
    turns: u64,
}

impl Storied<u32> for Count {
    ghost use Rattle.std.specs.Prelude.{[]};

    ghost history = { λ state. [] };

    ghost fixed = { λ state. 0 };

    ghost owns = { λ history mine. Unit {0} };

    ghost owns_none = { λ history. tt };

    ghost owns_both = { λ history a b of_a of_b apart. tt };

    ghost owns_others = { λ history entry mine other of_mine of_other apart. tt };
}

/// A lock, and the one turn of it.
fn locked(alloc: Global) -> Result<(TurnLock<Count, u32>, Turn<Count, u32>), AllocError>
    ensures lock { IfOk result (λ made. made.1.table ≡ made.0.table) }
    ensures free { IfOk result (λ made. (made.1.holds ≡ false) × (made.1.seen ≡ [])
        × (made.1.fixed ≡ 0)) }
{
    match TurnLock::new(alloc, Count { turns: 0 }, 1) {
        Ok(made) => Ok(made),
        Err(_) => Err(AllocError),
    }
}

/// Takes so many turns, one after another, and gives the state back in each.
fn take_turns<R: Wait>(rt: &R, lock: &TurnLock<Count, u32>, turn: &mut Turn<Count, u32>, count: u32)
    requires lock { turn.old.table ≡ lock.now.table }
    requires free { (turn.old.holds ≡ false) × (turn.old.seen ≡ []) × (turn.old.fixed ≡ 0) }
    ensures lock { turn.new.table ≡ lock.now.table }
    ensures free { (turn.new.holds ≡ false) × (turn.new.seen ≡ []) × (turn.new.fixed ≡ 0) }
{
    for _ in 0..count {
        let mut state = lock.turn(rt, turn);
        state.turns = state.turns.wrapping_add(1);
        lock.give_back(turn, state, 0);
    }
}

/// The least time of twenty runs of so many turns.
fn least_time<R: Wait>(
    rt: &HostRuntime,
    waits: &R,
    lock: &TurnLock<Count, u32>,
    turn: &mut Turn<Count, u32>,
    count: u32,
) -> io::Result<u64>
    requires lock { turn.old.table ≡ lock.now.table }
    requires free { (turn.old.holds ≡ false) × (turn.old.seen ≡ []) × (turn.old.fixed ≡ 0) }
{
    let mut least = u64::MAX;
    for _ in 0..20 {
        let begun = Instant::now(rt)?;
        take_turns(waits, lock, turn, count);
        least = least.min(nanoseconds_since(rt, begun)?);
    }
    Ok(least)
}

/// Prints what each of so many turns took.
fn print_turns(rt: &HostRuntime, count: u32, time: u64) -> io::Result<()> {
    println!(rt; "turns: {} turns, {} ns a turn", count, time)
}

/// Prints what a turn takes, in nanoseconds.
pub fn turns<R: Wait>(rt: &HostRuntime, waits: &R, count: u32) -> io::Result<()> {
    let (lock, mut turn) = locked(rt.alloc())?;
    let count = count.clamp(1, 100_000_000);
    let least = least_time(rt, waits, &lock, &mut turn, count)?;
    print_turns(rt, count, least / u64::from(count))
}
