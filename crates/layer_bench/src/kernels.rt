//! The vector kernels, beside the loops over pairs of the prover's tables.

ghost use Rattle.std.specs.Prelude.{◌≡◌, ◌<◌, ◌+◌, ◌*◌, ◌%◌, [], IfOk, length};
ghost use Rattle.lane_kernel.specs.Kernel.{AreBelow};

use crate::proving::{LayerCase, case_of, started_in};
use bench_parts::{Ratio, nanoseconds_since};
use field_ext::{Ext, Fp};
use lane_kernel::{fold_pairs, pair_sums};
use round_tables::{Buffers, GateTables};
use std::alloc::{AllocError, Global};
use std::io;
use std::time::Instant;

const PRIME: u32 = 2_147_483_647;

/// The real or the imaginary parts of so many pairs of elements.
fn parts(alloc: Global, pairs: u32) -> Result<Vec<u32>, AllocError>
    ensures below { IfOk result (λ parts. AreBelow parts.items) }
    ensures size { IfOk result (λ parts. length parts.items ≡ 2 * pairs) }
{
    let mut found = Vec::new(alloc);
    for j in 0..pairs {
        let number = j.wrapping_mul(2_654_435_761);
        found.push(number % PRIME)?;
        found.push(number.wrapping_add(40_503) % PRIME)?;
    }
    Ok(found)
}

/// How many nanoseconds a fold by vectors of elements with these parts took, and a digest of the parts then.
fn fold_once(rt: &HostRuntime, re: &mut [u32], im: &mut [u32]) -> io::Result<(u64, u32)>
    requires even { length re.old % 2 ≡ 0 }
    requires same { length im.old ≡ length re.old }
    requires re { AreBelow re.old }
    requires im { AreBelow im.old }
{
    let begun = Instant::now(rt)?;
    fold_pairs(re, im, (123_456_789, 987_654_321));
    let time = nanoseconds_since(rt, begun)?;
    let mut seen = 0u32;
    for part in re.iter().chain(im.iter()) {
        seen = seen.wrapping_add(*part);
    }
    Ok((time, seen))
}

/// The same of so many pairs.
fn fold_of(rt: &HostRuntime, pairs: u32) -> io::Result<(u64, u32)> {
    let mut re = parts(rt.alloc(), pairs)?;
    let mut im = parts(rt.alloc(), pairs)?;
    fold_once(rt, &mut re, &mut im)
}

/// The least of twenty times of a fold of so many pairs by vectors.
fn time_fold(rt: &HostRuntime, pairs: u32) -> io::Result<(u64, u32)> {
    let (mut best, mut seen) = (u64::MAX, 0u32);
    for _ in 0..20u32 {
        let (time, digest) = fold_of(rt, pairs)?;
        best = best.min(time);
        seen = seen.wrapping_add(digest);
    }
    Ok((best, seen))
}

/// How many nanoseconds the sums by vectors over three tables of these parts took, and a digest of them.
fn sum_once(rt: &HostRuntime, v: &[u32], g: &[u32], a: &[u32]) -> io::Result<(u64, u32)>
    requires even { length v.now % 2 ≡ 0 }
    requires g { length g.now ≡ length v.now }
    requires a { length a.now ≡ length v.now }
    requires below { AreBelow v.now × AreBelow g.now × AreBelow a.now }
{
    let begun = Instant::now(rt)?;
    let [constant, linear, square] = pair_sums(v, g, g, a, a, v);
    let time = nanoseconds_since(rt, begun)?;
    Ok((time, constant.0 ^ linear.1 ^ square.0))
}

/// The least of twenty such times.
fn least_sum(rt: &HostRuntime, v: &[u32], g: &[u32], a: &[u32]) -> io::Result<(u64, u32)>
    requires even { length v.now % 2 ≡ 0 }
    requires g { length g.now ≡ length v.now }
    requires a { length a.now ≡ length v.now }
    requires below { AreBelow v.now × AreBelow g.now × AreBelow a.now }
{
    let (mut best, mut seen) = (u64::MAX, 0u32);
    for _ in 0..20u32 {
        let (time, digest) = sum_once(rt, v, g, a)?;
        best = best.min(time);
        seen = seen.wrapping_add(digest);
    }
    Ok((best, seen))
}

/// The least of twenty times of the sums over so many pairs by vectors.
fn time_sums(rt: &HostRuntime, pairs: u32) -> io::Result<(u64, u32)> {
    let v = parts(rt.alloc(), pairs)?;
    let g = parts(rt.alloc(), pairs)?;
    let a = parts(rt.alloc(), pairs)?;
    least_sum(rt, &v, &g, &a)
}

/// A round's message, a piece after another, of which a digest is left.
pub(crate) fn summed(tables: &GateTables<'_>) -> u32
    requires home { tables.now.lent ≡ [] }
    requires left { length tables.now.bound < tables.now.k + tables.now.k }
{
    let mut seen = 0u32;
    for piece in 0..tables.pieces() {
        let sum = tables.piece_sum(piece);
        seen = seen.wrapping_add(sum[0].re().value() ^ sum[2].im().value());
    }
    seen
}

/// What the loops take for a round: to sum its message, of which a digest is left, and to bind its coordinate.
#[derive(Clone, Copy)]
pub(crate) struct Loops {
    pub(crate) sum: u64,
    pub(crate) bind: u64,
    pub(crate) seen: u32,
}

/// Sums and binds the next round of a layer.
pub(crate) fn time_round(rt: &HostRuntime, tables: &mut GateTables<'_>, r: Ext) -> io::Result<Loops>
    requires home { tables.old.lent ≡ [] }
    requires left { length tables.old.bound < tables.old.k + tables.old.k }
    ensures { IfOk result (λ _. tables.new.lent ≡ []) }
{
    let begun = Instant::now(rt)?;
    let seen = summed(tables);
    let sum = nanoseconds_since(rt, begun)?;
    let begun = Instant::now(rt)?;
    tables.bind(r);
    let bind = nanoseconds_since(rt, begun)?;
    Ok(Loops { sum, bind, seen })
}

/// Keeps what the loops take for the second round of a layer, where it has one and they take less.
/// The first round is bound before, so that the tables have values of the extension.
fn time_second(rt: &HostRuntime, tables: &mut GateTables<'_>, least: &mut Loops) -> io::Result<()>
    requires { tables.old.lent ≡ [] }
    ensures { IfOk result (λ _. tables.new.lent ≡ []) }
{
    if tables.rounds_left() < 2 {
        return Ok(());
    }
    let r = Ext::of(Fp::reduce(123_456_789), Fp::reduce(987_654_321));
    tables.bind(r);
    let loops = time_round(rt, tables, r)?;
    *least = Loops {
        sum: least.sum.min(loops.sum),
        bind: least.bind.min(loops.bind),
        seen: least.seen.wrapping_add(loops.seen),
    };
    Ok(())
}

/// Times a layer that is started, keeps the lesser times, and gives the buffers back.
fn time_started(
    rt: &HostRuntime,
    mut tables: GateTables<'_>,
    least: &mut Loops,
) -> io::Result<Buffers>
    requires { tables.lent ≡ [] }
{
    time_second(rt, &mut tables, least)?;
    Ok(tables.into_buffers())
}

/// Times a layer in the buffers, where there are any, and gives them back where its sizes fit.
fn time_layer(
    rt: &HostRuntime,
    room: Option<Buffers>,
    case: &LayerCase,
    least: &mut Loops,
) -> io::Result<Option<Buffers>> {
    match started_in(room, case)? {
        Some(tables) => Ok(Some(time_started(rt, tables, least)?)),
        None => Ok(None),
    }
}

/// The least of twenty times of the loops.
fn time_loops(rt: &HostRuntime, case: &LayerCase, k: u32) -> io::Result<Loops> {
    let width = 1usize << k.min(20);
    let mut room = Some(Buffers::new(rt.alloc(), width, width)?);
    let mut least = Loops {
        sum: u64::MAX,
        bind: u64::MAX,
        seen: 0,
    };
    for _ in 0..20u32 {
        room = time_layer(rt, room, case, &mut least)?;
    }
    Ok(least)
}

/// Prints two times for so many pairs as nanoseconds a pair with two digits, and the ratio of the second to the first.
fn print_times(
    rt: &HostRuntime,
    what: &str,
    loops: u64,
    vectors: u64,
    pairs: u64,
    seen: u32,
) -> io::Result<()> {
    println!(rt;
        "{}: {} pairs, loops {} ns a pair, vectors {}, {} of the loops ({})",
        what,
        pairs,
        Ratio::of(loops, pairs),
        Ratio::of(vectors, pairs),
        Ratio::of(vectors, loops),
        seen
    )
}

/// Prints what the kernels take over the pairs of a layer's second round, beside the loops.
fn print_kernels(rt: &HostRuntime, case: &LayerCase, k: u32) -> io::Result<()> {
    let loops = time_loops(rt, case, k)?;
    let pairs = (1u32 << k.min(20)) / 4;
    let (fold, fold_seen) = time_fold(rt, pairs)?;
    let (sums, sums_seen) = time_sums(rt, pairs)?;
    let three = fold.min(1_000_000_000_000) * 3;
    let pairs = u64::from(pairs);
    print_times(rt, "fold", loops.bind, three, pairs, fold_seen)?;
    let seen = loops.seen ^ sums_seen;
    print_times(rt, "sums", loops.sum, sums, pairs, seen)
}

/// Prints what a fold of three tables and the sums of a round take over the pairs of the second round of a layer of `2^k`
/// gates, by the prover's loops and by the kernels. The kernels have the parts of an element in two slices.
pub fn kernels(rt: &HostRuntime, k: u32) -> io::Result<()> {
    match case_of(rt.alloc(), k)? {
        Some(case) => print_kernels(rt, &case, k),
        None => println!(rt; "kernels: no layer of that size"),
    }
}
