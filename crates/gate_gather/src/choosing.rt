//! Which gates of a block are sent into a range of places.

ghost use Rattle.std.specs.Prelude.{◌≡◌, ◌≢◌, ◌≤◌, ◌<◌, ◌+◌, ℕ, length};
ghost use Rattle.circuit_core.specs.declared.gate.CircuitGate.{CircuitGate};
ghost use Rattle.gate_gather.specs.Gathering.{left_of, right_of};
ghost use Rattle.gate_gather.specs.Choosing.{AreChosen};

use circuit_core::CircuitGate;

/// The operand by whose place gates are sent.
pub(crate) trait Side {
    ghost of: { CircuitGate → ℕ };

    /// The place of a gate's operand.
    fn place(gate: CircuitGate) -> usize
        ensures { result ≡ of gate };
}

/// Gates are sent to their left operands.
pub(crate) struct ByLeft;

/// Gates are sent to their right operands.
pub(crate) struct ByRight;

impl Side for ByLeft {
    ghost of = { left_of };

    #[inline]
    fn place(gate: CircuitGate) -> usize {
        gate.left as usize
    }
}

impl Side for ByRight {
    ghost of = { right_of };

    #[inline]
    fn place(gate: CircuitGate) -> usize {
        gate.right as usize
    }
}

/// 1 where a place is one of the `places` places from `from` on, else 0, without a branch.
#[inline]
fn is_among(place: usize, from: usize, places: usize) -> usize
    ensures few { result ≤ 1 }
    ensures inside { result ≡ 1 → (from ≤ place) × (place < from + places) }
    ensures outside { result ≡ 0 → (x : ℕ) → x < places → place ≢ from + x }
{
    if place < from || place - from >= places {
        0
    } else {
        1
    }
}

/// Writes which of the positions from `start` to before `end` have gates that are sent to the `places` places from `from` on, and
/// answers how many. No branch depends on the gates, which may be in no order.
#[inline]
pub(crate) fn choose<S: Side>(
    gates: &[CircuitGate],
    start: usize,
    end: usize,
    from: usize,
    places: usize,
    chosen: &mut [usize],
) -> usize
    requires order { start ≤ end }
    requires within { end ≤ length gates.now }
    requires room { end ≤ start + length chosen.old }
    ensures count { result ≤ length chosen.new }
    ensures room { length chosen.new ≡ length chosen.old }
    ensures chosen { AreChosen S.of gates.now from places start end chosen.new result }
{
    let mut count = 0;
    for position in start..end {
        chosen[count] = position;
        count += is_among(S::place(gates[position]), from, places);
    }
    count
}
