//! Sums over pairs.

ghost use Rattle.std.specs.Prelude.{◌≡◌, ◌+◌, ◌*◌, ◌/◌, ◌%◌, ◌<◌, ◌≤◌, length};
ghost use Rattle.lane_kernel.specs.Kernel.{prime, AreBelow};
ghost use Rattle.lane_kernel.specs.Four.{lows, differences};
ghost use Rattle.lane_kernel.specs.Sums.{parts, low, slope, constant_re, constant_im, linear_re, linear_im, square_re, square_im};
ghost use Rattle.lane_kernel.specs.Lanes.{AreLines, AreReduced, added, more, sums_of, one_lane, IsTableOf, coefficients_of};

use crate::lanes::{
    Four, PRIME, combined, difference, differences_from, lows_from, opposites, splat,
};

/// The lines through four pairs of a table: their values at 0 and their slopes.
#[derive(Clone, Copy)]
struct Lines {
    low_re: Four,
    low_im: Four,
    slope_re: Four,
    slope_im: Four,
}

/// The coefficients so far, reduced.
#[derive(Clone, Copy)]
struct Sums {
    constant_re: u64,
    constant_im: u64,
    linear_re: u64,
    linear_im: u64,
    square_re: u64,
    square_im: u64,
}

/// The lines of four pairs, from pair j on.
fn four_lines(re: &[u32], im: &[u32], j: usize) -> Lines
    requires re_pairs { 2 * j + 8 ≤ length re.now }
    requires im_pairs { 2 * j + 8 ≤ length im.now }
    requires re { AreBelow re.now }
    requires im { AreBelow im.now }
    ensures lines { result ≡ record {
      low_re = lows re.now j;
      low_im = lows im.now j;
      slope_re = differences re.now j;
      slope_im = differences im.now j;
    } }
    ensures below { AreLines result }
{
    Lines {
        low_re: lows_from(re, j),
        low_im: lows_from(im, j),
        slope_re: differences_from(re, j),
        slope_im: differences_from(im, j),
    }
}

/// A number in the first lane.
fn first(n: u64) -> Four
    ensures { result ≡ one_lane n }
{
    Four {
        a: n,
        b: 0,
        c: 0,
        d: 0,
    }
}

/// The line of the pair j, in the first lane.
fn one_line(re: &[u32], im: &[u32], j: usize) -> Lines
    requires re_pairs { 2 * j + 2 ≤ length re.now }
    requires im_pairs { 2 * j + 2 ≤ length im.now }
    requires re { AreBelow re.now }
    requires im { AreBelow im.now }
    ensures lines { result ≡ record {
      low_re = one_lane (low re.now j);
      low_im = one_lane (low im.now j);
      slope_re = one_lane (slope re.now j);
      slope_im = one_lane (slope im.now j);
    } }
    ensures below { AreLines result }
{
    Lines {
        low_re: first(re[2 * j] as u64),
        low_im: first(im[2 * j] as u64),
        slope_re: first(difference(re[2 * j], re[2 * j + 1])),
        slope_im: first(difference(im[2 * j], im[2 * j + 1])),
    }
}

/// A sum with the numbers of all lanes.
fn with(sum: u64, x: Four) -> u64
    requires { sum < prime }
    ensures value { result ≡ more sum x }
    ensures below { result < prime }
{
    (sum + x.a % PRIME + x.b % PRIME + x.c % PRIME + x.d % PRIME) % PRIME
}

/// The sums with what the products of these lines, and the third ones, give.
fn with_lines(sums: Sums, v: Lines, g: Lines, a: Lines) -> Sums
    requires sums { AreReduced sums }
    requires lines { AreLines v × AreLines g × AreLines a }
    ensures value { result ≡ added sums v g a }
    ensures below { AreReduced result }
{
    let none = splat(0);
    let less_low = opposites(g.low_im);
    let less_slope = opposites(g.slope_im);
    let inner_re = combined(a.slope_re, v.low_re, g.slope_re, v.low_im, less_slope);
    let outer_re = combined(none, v.slope_re, g.low_re, v.slope_im, less_low);
    let inner_im = combined(a.slope_im, v.low_re, g.slope_im, v.low_im, g.slope_re);
    let outer_im = combined(none, v.slope_re, g.low_im, v.slope_im, g.low_re);
    Sums {
        constant_re: with(
            sums.constant_re,
            combined(a.low_re, v.low_re, g.low_re, v.low_im, less_low),
        ),
        constant_im: with(
            sums.constant_im,
            combined(a.low_im, v.low_re, g.low_im, v.low_im, g.low_re),
        ),
        linear_re: with(with(sums.linear_re, inner_re), outer_re),
        linear_im: with(with(sums.linear_im, inner_im), outer_im),
        square_re: with(
            sums.square_re,
            combined(none, v.slope_re, g.slope_re, v.slope_im, less_slope),
        ),
        square_im: with(
            sums.square_im,
            combined(none, v.slope_re, g.slope_im, v.slope_im, g.slope_re),
        ),
    }
}

/// The coefficients of 1, X and X² of the sum over all pairs j of `lin(v, j) lin(g, j) + lin(a, j)`, where `lin(x, j)` is the line
/// through the elements 2j and 2j + 1 of the table x. Each is a real and an imaginary part below p.
pub fn pair_sums(
    v_re: &[u32],
    v_im: &[u32],
    g_re: &[u32],
    g_im: &[u32],
    a_re: &[u32],
    a_im: &[u32],
) -> [(u32, u32); 3]
    requires even { length v_re.now % 2 ≡ 0 }
    requires v { IsTableOf (length v_re.now) v_re.now v_im.now }
    requires g { IsTableOf (length v_re.now) g_re.now g_im.now }
    requires a { IsTableOf (length v_re.now) a_re.now a_im.now }
    ensures { result ≡ coefficients_of (sums_of (length v_re.now / 2) (parts v_re.now v_im.now)
        (parts g_re.now g_im.now) (parts a_re.now a_im.now)) }
{
    let pairs = v_re.len() / 2;
    let blocks = pairs / 4;
    let mut sums = Sums {
        constant_re: 0,
        constant_im: 0,
        linear_re: 0,
        linear_im: 0,
        square_re: 0,
        square_im: 0,
    };
    for block in 0..blocks {
        let v = four_lines(v_re, v_im, 4 * block);
        let g = four_lines(g_re, g_im, 4 * block);
        sums = with_lines(sums, v, g, four_lines(a_re, a_im, 4 * block));
    }
    for j in 4 * blocks..pairs {
        let v = one_line(v_re, v_im, j);
        let g = one_line(g_re, g_im, j);
        sums = with_lines(sums, v, g, one_line(a_re, a_im, j));
    }
    [
        (sums.constant_re as u32, sums.constant_im as u32),
        (sums.linear_re as u32, sums.linear_im as u32),
        (sums.square_re as u32, sums.square_im as u32),
    ]
}
