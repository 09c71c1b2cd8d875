//! The message of a round.

ghost use Rattle.std.specs.Prelude.{◌≡◌, ◌<◌, ◌+◌, IfOk, [], length};
ghost use Rattle.field_ext.specs.Field.{k_ops};
ghost use Rattle.field_ext.specs.Polynomial.{coefficients};
ghost use Rattle.round_tables.specs.LayerSum.{next_poly, pieces_of, piece_poly};
ghost use Rattle.phase_run.specs.Work.{IsWorkerCount};
ghost use Rattle.sumcheck_prove.specs.Ahead.{AreAhead};

use crate::adding::{no_message, plus};
use crate::pieces::PieceSums;
use field_ext::Ext;
use io_edge::Gate;
use phase_run::run;
use round_tables::GateTables;
use std::alloc::{AllocError, Global};
use std::marker::Sync;
use std::thread::Threads;

/// Starting and joining threads takes as long as summing some 8,192 pairs, so only a round of so many pairs is shared.
pub(crate) const PAIRS_TO_SUM: usize = 65536;

/// `round` shares the first round of a layer, once in the layer, from so many pairs on.
const PAIRS_TO_SUM_AT_FIRST: usize = 4096;

/// A thread is started for so many pairs.
const PAIRS_FOR_EACH: usize = 8192;

/// The coefficients of 1, X and X² of the next round's polynomial, where a round is left: the sum of what its pieces give,
/// whatever the number of workers and the order of their claims. Each piece is entered at the gate before it is summed.
/// A round of fewer pairs than threads pay for is summed on the calling thread, as worker 0. Err only where no memory is
/// found, which one worker takes none of.
pub fn round<R: Threads + Sync, G: Gate>(
    rt: &R,
    alloc: Global,
    tables: &GateTables<'_>,
    workers: u32,
    gate: &G,
) -> Result<[Ext; 3], AllocError>
    requires here { tables.now.lent ≡ [] }
    requires left { length tables.now.bound < tables.now.k + tables.now.k }
    requires workers { IsWorkerCount workers }
    ensures { IfOk result (λ message. message ≡ coefficients k_ops 3 (next_poly tables.now)) }
{
    let least = if tables.is_fresh() {
        PAIRS_TO_SUM_AT_FIRST
    } else {
        PAIRS_TO_SUM
    };
    let threads = threads_from(tables.pairs(), least, workers);
    round_in(rt, alloc, tables, threads, gate)
}

/// The coefficients that `round` gives, summed in so many threads whatever the number of pairs, and in no more than there are pieces.
pub fn round_in<R: Threads + Sync, G: Gate>(
    rt: &R,
    alloc: Global,
    tables: &GateTables<'_>,
    threads: u32,
    gate: &G,
) -> Result<[Ext; 3], AllocError>
    requires here { tables.now.lent ≡ [] }
    requires left { length tables.now.bound < tables.now.k + tables.now.k }
    requires threads { IsWorkerCount threads }
    ensures { IfOk result (λ message. message ≡ coefficients k_ops 3 (next_poly tables.now)) }
{
    let ahead = summed_ahead(rt, alloc, tables, threads, gate)?;
    let mut total = no_message();
    for piece in 0..tables.pieces() {
        total = plus(total, piece_message(tables, &ahead, piece, gate));
    }
    Ok(total)
}

/// The messages of all pieces, where there are several, and threads to sum them.
fn summed_ahead<R: Threads + Sync, G: Gate>(
    rt: &R,
    alloc: Global,
    tables: &GateTables<'_>,
    threads: u32,
    gate: &G,
) -> Result<Option<Vec<[Ext; 3]>>, AllocError>
    requires here { tables.now.lent ≡ [] }
    requires left { length tables.now.bound < tables.now.k + tables.now.k }
    requires threads { IsWorkerCount threads }
    ensures { IfOk result (AreAhead tables.now) }
{
    let Ok(pieces) = u32::try_from(tables.pieces()) else {
        return Ok(None);
    };
    let threads = threads.min(pieces);
    if threads <= 1 {
        return Ok(None);
    }
    let sums = run(rt, alloc, pieces, threads, &PieceSums { tables }, gate)?;
    Ok(Some(sums))
}

/// How many threads so many pairs pay for, from the least that pays for two on.
pub(crate) fn threads_from(pairs: usize, least: usize, workers: u32) -> u32
    requires { IsWorkerCount workers }
    ensures { IsWorkerCount result }
{
    if pairs < least {
        return 1;
    }
    let Ok(paid) = u32::try_from(pairs / PAIRS_FOR_EACH) else {
        return workers;
    };
    workers.min(paid.max(2))
}

/// The message of a piece: as it was summed ahead, or summed now, by worker 0.
fn piece_message<G: Gate>(
    tables: &GateTables<'_>,
    ahead: &Option<Vec<[Ext; 3]>>,
    piece: usize,
    gate: &G,
) -> [Ext; 3]
    requires here { tables.now.lent ≡ [] }
    requires left { length tables.now.bound < tables.now.k + tables.now.k }
    requires piece { piece < pieces_of tables.now }
    requires ahead { AreAhead tables.now ahead.now }
    ensures { result ≡ coefficients k_ops 3 (piece_poly tables.now piece) }
{
    match ahead {
        Some(sums) => sums[piece],
        None => {
            gate.enter(0, u32::try_from(piece).unwrap_or(u32::MAX));
            tables.piece_sum(piece)
        }
    }
}
