//! The binding of a round's coordinate.

ghost use Rattle.std.specs.Prelude.{◌≡◌, ◌<◌, ◌+◌, IfOk, IfErr, [], ◌∷◌, ◌++◌, length};
ghost use Rattle.phase_run.specs.Work.{IsWorkerCount};

use crate::message::threads_from;
use field_ext::Ext;
use io_edge::Gate;
use phase_run::{PartWork, run_parts};
use round_tables::GateTables;
use std::alloc::{AllocError, Global};
use std::marker::Sync;
use std::thread::Threads;
use table_parts::Part;

/// Folding takes less than summing, so only the widest rounds pay for threads.
const PAIRS_TO_FOLD_BY_TWO: usize = 32768;

/// Binds the next coordinate to the challenge `r`, where a round is left, as `GateTables::bind` does: workers fold the parts of
/// the tables, each part entered at the gate before, whatever their number and the order of their claims. A round of fewer
/// pairs than threads pay for is folded on the calling thread, which enters no gate. Err only where no memory is found, which
/// one worker takes none of; the tables are then as before.
pub fn bind_round<R: Threads + Sync, G: Gate>(
    rt: &R,
    alloc: Global,
    tables: &mut GateTables<'_>,
    r: Ext,
    workers: u32,
    gate: &G,
) -> Result<(), AllocError>
    requires here { tables.old.lent ≡ [] }
    requires left { length tables.old.bound < tables.old.k + tables.old.k }
    requires workers { IsWorkerCount workers }
    ensures bound { IfOk result
        (λ _. tables.new ≡ record tables.old { bound = tables.old.bound ++ r ∷ [] }) }
    ensures refused { IfErr result (λ _. tables.new ≡ tables.old) }
{
    let threads = threads_from(tables.pairs(), PAIRS_TO_FOLD_BY_TWO, workers);
    if threads == 1 {
        tables.bind(r);
        return Ok(());
    }
    let parts = tables.parts_out();
    match run_parts(rt, alloc, parts, threads, &FoldedBy { r }, gate) {
        Ok(parts) => {
            tables.parts_in(parts, r);
            Ok(())
        }
        Err(parts) => {
            tables.parts_back(parts);
            Err(AllocError)
        }
    }
}

/// The folding of parts by a challenge.
#[derive(Drop)]
struct FoldedBy {
    r: Ext,
}

impl PartWork for FoldedBy {
    ghost use Rattle.table_parts.specs.PartTables.{folded_part};

    type Part = Part;

    ghost part_of = { λ work k part. folded_part work.r part };

    fn work(&self, _k: u32, part: &mut Part) {
        part.fold(self.r);
    }
}
