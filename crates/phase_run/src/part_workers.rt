//! Workers that claim parts and change them, each in a thread of its own.

ghost use Rattle.std.specs.Prelude.{◌≡◌, ◌+◌, ◌<◌, ◌^◌, true, None};
ghost use Rattle.std.specs.Thread.{IsSync, IsSend};
ghost use Rattle.chunk_board.specs.PartViews.{IsOfParts, IsFresh};
ghost use Rattle.phase_run.specs.Work.{ArePartsWorked};

use crate::work::PartWork;
use chunk_board::{PartBoard, PartClaimer};
use io_edge::Gate;
use std::thread::{Threads, join};

/// Claims parts, enters the gate, works each and puts it back, until none is left.
fn work_on<W: PartWork, G: Gate>(
    board: &PartBoard<W::Part>,
    mut claimer: PartClaimer<W::Part>,
    worker: u32,
    work: &W,
    gate: &G,
) -> PartClaimer<W::Part>
where
    W::Part: Drop,
    requires board { IsOfParts board.now claimer }
    requires fresh { IsFresh claimer }
    ensures claimer { IsOfParts board.now result × (result.shares ≡ claimer.shares)
        × (result.held ≡ None) × (result.stopped ≡ true) }
    ensures worked { ArePartsWorked (W.part_of work.now) board.now.parts result.put result.drawn }
{
    for turn in 0..u64::from(board.count()) + 1 {
        let Some((k, mut part)) = board.claim_part(&mut claimer) else {
            return claimer;
        };
        gate.enter(worker, k);
        work.work(k, &mut part);
        board.put_back(&mut claimer, k, part);
    }
    unreachable!()
}

/// Runs a worker for each share of the claimer, numbered from `first`. All of them end before it returns.
#[cycle(part_workers)]
pub(crate) fn spread<R: Threads + Sync, W: PartWork + Sync, G: Gate>(
    rt: &R,
    board: &PartBoard<W::Part>,
    mut claimer: PartClaimer<W::Part>,
    first: u32,
    work: &W,
    gate: &G,
) -> PartClaimer<W::Part>
where
    W::Part: Drop + Send + Sync,
    requires board { IsOfParts board.now claimer }
    requires fresh { IsFresh claimer }
    requires workers { (0 < claimer.shares) × (first + claimer.shares < 2 ^ 32) }
    ensures claimer { IsOfParts board.now result × (result.shares ≡ claimer.shares)
        × (result.held ≡ None) × (result.stopped ≡ true) }
    ensures worked { ArePartsWorked (W.part_of work.now) board.now.parts result.put result.drawn }
{
    let shares = claimer.shares();
    if shares == 1 {
        return work_on(board, claimer, first, work, gate);
    }
    let half = shares / 2;
    let left = shares - half;
    let second = first + left;
    let theirs = board.split(&mut claimer, half);
    let front = move || -> PartClaimer<W::Part>
        requires { IsSync R.row × IsSync W.row × IsSync G.row × IsSend W.Part.row
            × IsSync W.Part.row × IsOfParts board.now claimer × IsFresh claimer
            × (0 < claimer.shares) × (first + claimer.shares < 2 ^ 32) }
        ensures { IsOfParts board.entry.now result × (result.shares ≡ claimer.shares)
            × (result.held ≡ None) × (result.stopped ≡ true)
            × ArePartsWorked (W.part_of work.entry.now) board.entry.now.parts result.put
            result.drawn }
    { spread(rt, board, claimer, first, work, gate) };
    let back = move || -> PartClaimer<W::Part>
        requires { IsSync R.row × IsSync W.row × IsSync G.row × IsSend W.Part.row
            × IsSync W.Part.row × IsOfParts board.now theirs × IsFresh theirs
            × (0 < theirs.shares) × (second + theirs.shares < 2 ^ 32) }
        ensures { IsOfParts board.entry.now result × (result.shares ≡ theirs.shares)
            × (result.held ≡ None) × (result.stopped ≡ true)
            × ArePartsWorked (W.part_of work.entry.now) board.entry.now.parts result.put
            result.drawn }
    { spread(rt, board, theirs, second, work, gate) };
    let (mut mine, other) = join(rt, front, back);
    board.join(&mut mine, other);
    mine
}
