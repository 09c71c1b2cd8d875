//! Folding.

ghost use Rattle.std.specs.Prelude.{◌≡◌, ◌+◌, ◌*◌, ◌/◌, ◌%◌, ◌<◌, ◌≤◌, length};
ghost use Rattle.lane_kernel.specs.Kernel.{prime, AreBelow, IsBelowFrom, re_at, im_at, AreAt};

use crate::lanes::{
    PRIME, combined, difference, differences_from, lows_from, opposites, splat, store,
};

/// Folds four pairs, from pair j on.
fn fold_four(re: &mut [u32], im: &mut [u32], j: usize, s: u32, t: u32)
    requires pairs { 2 * j + 8 ≤ length re.old }
    requires same { length im.old ≡ length re.old }
    requires by { (s < prime) × (t < prime) }
    requires re { IsBelowFrom j re.old }
    requires im { IsBelowFrom j im.old }
    ensures re { AreAt j 4 (re_at re.old im.old s t) re.old re.new }
    ensures im { AreAt j 4 (im_at re.old im.old s t) im.old im.new }
{
    let (low_re, low_im) = (lows_from(re, j), lows_from(im, j));
    let (more_re, more_im) = (differences_from(re, j), differences_from(im, j));
    let (by_re, by_im) = (splat(s as u64), splat(t as u64));
    let new_re = combined(low_re, more_re, by_re, opposites(more_im), by_im);
    let new_im = combined(low_im, more_im, by_re, more_re, by_im);
    store(re, j, new_re);
    store(im, j, new_im);
}

/// Folds the pair j.
fn fold_one(re: &mut [u32], im: &mut [u32], j: usize, s: u32, t: u32)
    requires pairs { 2 * j + 2 ≤ length re.old }
    requires same { length im.old ≡ length re.old }
    requires by { (s < prime) × (t < prime) }
    requires re { IsBelowFrom j re.old }
    requires im { IsBelowFrom j im.old }
    ensures re { AreAt j 1 (re_at re.old im.old s t) re.old re.new }
    ensures im { AreAt j 1 (im_at re.old im.old s t) im.old im.new }
{
    let (low_re, low_im) = (re[2 * j] as u64, im[2 * j] as u64);
    let more_re = difference(re[2 * j], re[2 * j + 1]);
    let more_im = difference(im[2 * j], im[2 * j + 1]);
    let new_re = low_re + s as u64 * more_re + t as u64 * (PRIME - more_im);
    let new_im = low_im + s as u64 * more_im + t as u64 * more_re;
    re[j] = (new_re % PRIME) as u32;
    im[j] = (new_im % PRIME) as u32;
}

/// Binds the first coordinate of a table, whose elements have these real and imaginary parts, to the element of the parts `r`:
/// place j of the first half gets the value at `r` of the line through the elements 2j and 2j + 1. The second half stays.
pub fn fold_pairs(re: &mut [u32], im: &mut [u32], r: (u32, u32))
    requires even { length re.old % 2 ≡ 0 }
    requires same { length im.old ≡ length re.old }
    requires re { AreBelow re.old }
    requires im { AreBelow im.old }
    requires by { (r.0 < prime) × (r.1 < prime) }
    ensures re { AreAt 0 (length re.old / 2) (re_at re.old im.old r.0 r.1) re.old re.new }
    ensures im { AreAt 0 (length re.old / 2) (im_at re.old im.old r.0 r.1) im.old im.new }
{
    let pairs = re.len() / 2;
    let blocks = pairs / 4;
    for block in 0..blocks {
        fold_four(re, im, 4 * block, r.0, r.1);
    }
    for j in 4 * blocks..pairs {
        fold_one(re, im, j, r.0, r.1);
    }
}
