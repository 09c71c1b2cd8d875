//! Four numbers at once.

ghost use Rattle.std.specs.Prelude.{◌≡◌, ◌+◌, ◌*◌, ◌<◌, ◌≤◌, length};
ghost use Rattle.lane_kernel.specs.Kernel.{prime, minus, IsBelowFrom};
ghost use Rattle.lane_kernel.specs.Four.{combination, all_of, opposite, lows, differences, stored, EachBelow, EachAtMost};

use std::simd::prelude::*;

/// The prime.
pub(crate) const PRIME: u64 = 2147483647;

/// Four numbers.
#[derive(Clone, Copy)]
pub(crate) struct Four {
    pub(crate) a: u64,
    pub(crate) b: u64,
    pub(crate) c: u64,
    pub(crate) d: u64,
}

/// In each lane the first number plus a multiple of the second and one of the fourth. Nothing is reduced.
pub(crate) fn combined(x: Four, y: Four, s: Four, z: Four, t: Four) -> Four
    requires first { EachBelow x }
    requires second { EachAtMost y × EachAtMost s }
    requires third { EachAtMost z × EachAtMost t }
    ensures { result ≡ combination x y s z t }
{
    let first = u64x4::from_array([x.a, x.b, x.c, x.d]);
    let second = u64x4::from_array([y.a, y.b, y.c, y.d]);
    let third = u64x4::from_array([z.a, z.b, z.c, z.d]);
    let by_second = u64x4::from_array([s.a, s.b, s.c, s.d]);
    let by_third = u64x4::from_array([t.a, t.b, t.c, t.d]);
    let once = first.strict_add(second.strict_mul(by_second));
    let both = once.strict_add(third.strict_mul(by_third));
    let [a, b, c, d] = both.to_array();
    Four { a, b, c, d }
}

/// One number in each lane.
pub(crate) fn splat(n: u64) -> Four
    ensures { result ≡ all_of n }
{
    Four {
        a: n,
        b: n,
        c: n,
        d: n,
    }
}

/// What each number lacks to the prime.
pub(crate) fn opposites(x: Four) -> Four
    requires { EachAtMost x }
    ensures { result ≡ opposite x }
{
    let [a, b, c, d] = u64x4::splat(PRIME)
        .strict_sub(u64x4::from_array([x.a, x.b, x.c, x.d]))
        .to_array();
    Four { a, b, c, d }
}

/// The difference of two numbers below p.
pub(crate) fn difference(low: u32, high: u32) -> u64
    requires { (low < prime) × (high < prime) }
    ensures value { result ≡ minus low high }
    ensures below { result < prime }
{
    (high as u64 + (PRIME - low as u64)) % PRIME
}

/// The first numbers of four pairs, from pair j on.
pub(crate) fn lows_from(values: &[u32], j: usize) -> Four
    requires pairs { 2 * j + 8 ≤ length values.now }
    requires below { IsBelowFrom (2 * j) values.now }
    ensures lows { result ≡ lows values.now j }
    ensures below { EachBelow result }
{
    Four {
        a: values[2 * j] as u64,
        b: values[2 * j + 2] as u64,
        c: values[2 * j + 4] as u64,
        d: values[2 * j + 6] as u64,
    }
}

/// The differences of four pairs, from pair j on.
pub(crate) fn differences_from(values: &[u32], j: usize) -> Four
    requires pairs { 2 * j + 8 ≤ length values.now }
    requires below { IsBelowFrom (2 * j) values.now }
    ensures differences { result ≡ differences values.now j }
    ensures below { EachBelow result }
{
    Four {
        a: difference(values[2 * j], values[2 * j + 1]),
        b: difference(values[2 * j + 2], values[2 * j + 3]),
        c: difference(values[2 * j + 4], values[2 * j + 5]),
        d: difference(values[2 * j + 6], values[2 * j + 7]),
    }
}

/// Writes the remainders of four numbers from place j on.
pub(crate) fn store(values: &mut [u32], j: usize, x: Four)
    requires { j + 4 ≤ length values.old }
    ensures { values.new ≡ stored values.old j x }
{
    values[j] = (x.a % PRIME) as u32;
    values[j + 1] = (x.b % PRIME) as u32;
    values[j + 2] = (x.c % PRIME) as u32;
    values[j + 3] = (x.d % PRIME) as u32;
}
