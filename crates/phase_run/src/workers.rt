//! Workers that claim pieces, each in a thread of its own.

ghost use Rattle.std.specs.Prelude.{◌≡◌, ◌+◌, ◌<◌, ◌≤◌, ◌^◌, true, false, [], ◌++◌, IsOk, IfOk};
ghost use Rattle.std.specs.Thread.{IsSync, IsSend};
ghost use Rattle.chunk_board.specs.Board.{IsOf};
ghost use Rattle.phase_run.specs.Work.{IsWork};

use crate::work::PieceWork;
use chunk_board::{ChunkBoard, Claimer};
use io_edge::Gate;
use std::alloc::{AllocError, Global};
use std::thread::{Threads, join};

/// Claims pieces, enters the gate and works each, until no piece is left. Out of memory, it claims no more.
fn work_on<W: PieceWork, G: Gate>(
    alloc: Global,
    board: &ChunkBoard,
    mut claimer: Claimer,
    worker: u32,
    work: &W,
    gate: &G,
) -> (Claimer, Result<Vec<(u32, W::Out)>, AllocError>)
where
    W::Out: Drop,
    requires board { IsOf board.now claimer }
    requires pieces { board.now.pieces ≤ W.pieces work.now }
    requires fresh { (claimer.drawn ≡ []) × (claimer.stopped ≡ false) }
    ensures claimer { IsOf board.now result.0 × (result.0.shares ≡ claimer.shares) }
    ensures done { IfOk result.1 (λ v. IsWork (W.out_of work.now) v.items result.0.drawn
        × (result.0.stopped ≡ true)) }
{
    let mut results = Vec::new(alloc);
    for turn in 0..u64::from(board.pieces()) + 1 {
        let Some(k) = board.claim(&mut claimer) else {
            return (claimer, Ok(results));
        };
        gate.enter(worker, k);
        let Ok(out) = work.work(alloc, k) else {
            return (claimer, Err(AllocError));
        };
        if results.push((k, out)).is_err() {
            return (claimer, Err(AllocError));
        }
    }
    unreachable!()
}

/// Both lists, where both workers found memory.
fn both<X: Drop>(
    first: Result<Vec<(u32, X)>, AllocError>,
    second: Result<Vec<(u32, X)>, AllocError>,
) -> Result<Vec<(u32, X)>, AllocError>
    ensures items { IfOk result
        (λ v. IfOk first (λ x. IfOk second (λ y. v.items ≡ x.items ++ y.items))) }
    ensures ok { IfOk result (λ v. IsOk first × IsOk second) }
{
    let mut all = first?;
    let mut rest = second?;
    all.append(&mut rest)?;
    Ok(all)
}

/// Runs a worker for each share of the claimer, numbered from `first`. All of them end before it returns; where one ran
/// out of memory, the others went on.
#[cycle(workers)]
pub(crate) fn spread<R: Threads + Sync, W: PieceWork + Sync, G: Gate>(
    rt: &R,
    alloc: Global,
    board: &ChunkBoard,
    mut claimer: Claimer,
    first: u32,
    work: &W,
    gate: &G,
) -> (Claimer, Result<Vec<(u32, W::Out)>, AllocError>)
where
    W::Out: Drop + Send,
    requires board { IsOf board.now claimer }
    requires pieces { board.now.pieces ≤ W.pieces work.now }
    requires fresh { (claimer.drawn ≡ []) × (claimer.stopped ≡ false) }
    requires workers { (0 < claimer.shares) × (first + claimer.shares < 2 ^ 32) }
    ensures claimer { IsOf board.now result.0 × (result.0.shares ≡ claimer.shares) }
    ensures done { IfOk result.1 (λ v. IsWork (W.out_of work.now) v.items result.0.drawn
        × (result.0.stopped ≡ true)) }
{
    let shares = claimer.shares();
    if shares == 1 {
        return work_on(alloc, board, claimer, first, work, gate);
    }
    let half = shares / 2;
    let left = shares - half;
    let second = first + left;
    let theirs = board.split(&mut claimer, half);
    let front = move || -> (Claimer, Result<Vec<(u32, W::Out)>, AllocError>)
        requires { IsSync R.row × IsSync W.row × IsSync G.row × IsSend W.Out.row
            × IsOf board.now claimer × (board.now.pieces ≤ W.pieces work.now) × (claimer.drawn ≡ [])
            × (claimer.stopped ≡ false) × (0 < claimer.shares) × (first + claimer.shares < 2 ^ 32) }
        ensures { IsOf board.entry.now result.0 × (result.0.shares ≡ claimer.shares)
            × IfOk result.1 (λ v. IsWork (W.out_of work.entry.now) v.items result.0.drawn
            × (result.0.stopped ≡ true)) }
    { spread(rt, alloc, board, claimer, first, work, gate) };
    let back = move || -> (Claimer, Result<Vec<(u32, W::Out)>, AllocError>)
        requires { IsSync R.row × IsSync W.row × IsSync G.row × IsSend W.Out.row
            × IsOf board.now theirs × (board.now.pieces ≤ W.pieces work.now) × (theirs.drawn ≡ [])
            × (theirs.stopped ≡ false) × (0 < theirs.shares) × (second + theirs.shares < 2 ^ 32) }
        ensures { IsOf board.entry.now result.0 × (result.0.shares ≡ theirs.shares)
            × IfOk result.1 (λ v. IsWork (W.out_of work.entry.now) v.items result.0.drawn
            × (result.0.stopped ≡ true)) }
    { spread(rt, alloc, board, theirs, second, work, gate) };
    let ((mut mine, a), (other, b)) = join(rt, front, back);
    board.join(&mut mine, other);
    (mine, both(a, b))
}
