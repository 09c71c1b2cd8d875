//! A run of workers.

ghost use Rattle.std.specs.Prelude.{◌≡◌, ◌<◌, ◌≤◌, ◌^◌, map, vec_len, IfOk, IfErr};
ghost use Rattle.std.specs.List.{range_with_len};
ghost use Rattle.phase_run.specs.Work.{IsWorkerCount, IsEachWorked};

use crate::gathering::placed;
use crate::part_workers;
use crate::work::{PartWork, PieceWork};
use crate::workers::spread;
use chunk_board::{ChunkBoard, PartBoard, Parts};
use io_edge::Gate;
use std::alloc::{AllocError, Global};
use std::thread::Threads;

/// Works the pieces 0 to n - 1 with so many workers, numbered from 0: place k of the result is what piece k gives. Each worker
/// enters the gate between its claim of a piece and its work on it. Err only where no memory is found, by any worker; the
/// others then go on to the end first.
pub fn run<R: Threads + Sync, W: PieceWork + Sync, G: Gate>(
    rt: &R,
    alloc: Global,
    n: u32,
    workers: u32,
    work: &W,
    gate: &G,
) -> Result<Vec<W::Out>, AllocError>
where
    W::Out: Drop + Send,
    requires pieces { (0 < n) × (n ≤ W.pieces work.now) }
    requires workers { IsWorkerCount workers }
    ensures { IfOk result
        (λ outputs. outputs.items ≡ map (W.out_of work.now) (range_with_len 0 n)) }
{
    let (board, claimer) = ChunkBoard::new(alloc, n, workers)?;
    let (claimer, results) = spread(rt, alloc, &board, claimer, 0, work, gate);
    let results = results?;
    let full = board.close(claimer);
    prove!(full);
    placed(alloc, n, work, results)
}

/// Works each part in place with so many workers, numbered from 0: place k of the result is what part k becomes. Each worker
/// enters the gate between its claim of a part and its work on it. Err only where no memory is found for the board, before any
/// part was worked, with the parts as before.
pub fn run_parts<R: Threads + Sync, W: PartWork + Sync, G: Gate>(
    rt: &R,
    alloc: Global,
    parts: Vec<W::Part>,
    workers: u32,
    work: &W,
    gate: &G,
) -> Result<Vec<W::Part>, Vec<W::Part>>
where
    W::Part: Drop + Send + Sync,
    requires parts { (0 < vec_len parts) × (vec_len parts < 2 ^ 32) }
    requires workers { IsWorkerCount workers }
    ensures len { IfOk result (λ v. vec_len v ≡ vec_len parts) }
    ensures each { IfOk result (λ v. IsEachWorked (W.part_of work.now) parts.items v.items) }
    ensures refused { IfErr result (λ back. back.items ≡ parts.items) }
{
    let (board, claimer) = PartBoard::new(alloc, parts, workers)?;
    let claimer = part_workers::spread(rt, &board, claimer, 0, work, gate);
    let Parts { all, parts } = board.close(claimer);
    prove!(all);
    Ok(parts)
}
