//! One lock, and two turns that hand its state round.

use std::alloc::AllocError;
use turn_lock::{Storied, Turn, TurnLock};

/// A state that has no history.
#[derive(Drop)]
struct Count {
    turns: u64,
}

impl Storied<u32> for Count {
    ghost use Rattle.std.specs.Prelude.{[]};

    ghost history = { λ state. [] };

    ghost fixed = { λ state. 0 };

    ghost owns = { λ history mine. Unit {0} };

    ghost owns_none = { λ history. tt };

    ghost owns_both = { λ history a b of_a of_b apart. tt };

    ghost owns_others = { λ history entry mine other of_mine of_other apart. tt };
}

type Made = Result<(TurnLock<Count, u32>, Turn<Count, u32>), Count>;

#[test]
fn hands_the_state_from_turn_to_turn(rt: HostRuntime) -> Result<(), AllocError> {
    let made: Made = TurnLock::new(rt.alloc(), Count { turns: 5 }, 2);
    let Ok((lock, mut first)) = made else {
        return Err(AllocError);
    };
    let mut second = lock.split(&mut first, 1);
    let state = lock.turn(&rt, &mut first);
    assert!(&rt; state.turns == 5);
    lock.give_back(&mut first, Count { turns: 6 }, 0);
    let state = lock.turn(&rt, &mut second);
    assert!(&rt; state.turns == 6);
    lock.give_back(&mut second, Count { turns: 7 }, 0);
    let state = lock.turn(&rt, &mut first);
    assert!(&rt; state.turns == 7);
    lock.give_back(&mut first, state, 0);
    lock.join(&mut first, second);
    let last = lock.close(first);
    assert!(&rt; last.turns == 7);
    Ok(())
}
