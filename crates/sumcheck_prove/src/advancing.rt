//! The binding of a coordinate together with the sums of the round after it.

ghost use Rattle.std.specs.Prelude.{◌≡◌, ◌<◌, ◌+◌, ◌^◌, [], ◌∷◌, ◌++◌, IfSome, IsTrue, length, vec_len};
ghost use Rattle.round_tables.specs.LayerSum.{pieces_of};
ghost use Rattle.sumcheck_prove.specs.Ahead.{IsNextMessage};

use crate::adding::no_message;
use crate::gathering::{GatherJobs, gather_by};
use crate::jobs::{Job, added, unload, worked};
use crate::workers::Workers;
use field_ext::Ext;
use io_edge::Gate;
use round_tables::GateTables;
use std::marker::Sync;
use std::thread::Threads;

/// A round of fewer pairs is folded and summed by the calling thread.
const PAIRS_TO_ADVANCE: usize = 32768;

/// Whether workers share a round: it is wide, and there is a job for each part of its tables.
fn is_shared(tables: &GateTables<'_>, jobs: &[Job<'_>]) -> bool
    requires here { tables.now.lent ≡ [] }
    requires left { length tables.now.bound < tables.now.k + tables.now.k }
    ensures { IsTrue result → length jobs.now ≡ pieces_of tables.now }
{
    tables.pairs() >= PAIRS_TO_ADVANCE && tables.pieces() == jobs.len()
}

/// The jobs after a coordinate is bound, and the message of the round after it, if it is there.
#[derive(Drop)]
struct Folded<'a> {
    jobs: Vec<Job<'a>>,
    message: Option<[Ext; 3]>,
}

/// Binds the next coordinate to the challenge `r`, where a round is left, as `GateTables::bind` does: workers fold the parts of
/// the tables, in any order, and sum each for the round after it, or the calling thread folds them where the round is narrow or the
/// jobs are not as many as the parts.
fn bind_by<'a, R: Threads + Sync, G: Gate>(
    workers: &Workers<'_, R, G>,
    tables: &mut GateTables<'_>,
    r: Ext,
    jobs: Vec<Job<'a>>,
) -> Folded<'a>
    requires here { tables.old.lent ≡ [] }
    requires left { length tables.old.bound < tables.old.k + tables.old.k }
    ensures bound { tables.new ≡ record tables.old { bound = tables.old.bound ++ r ∷ [] } }
    ensures jobs { vec_len result.jobs ≡ vec_len jobs.entry }
    ensures message { IfSome result.message (IsNextMessage tables.new) }
{
    if !is_shared(tables, &jobs) {
        tables.bind(r);
        return Folded {
            jobs,
            message: None,
        };
    }
    let stays = tables.stays_in_parts();
    let mut parts = tables.parts_out();
    let mut jobs = worked(workers, &mut parts, jobs, r, no_message());
    let message = added(&jobs);
    unload(&mut jobs, &mut parts);
    tables.parts_in(parts, r);
    if !stays {
        return Folded {
            jobs,
            message: None,
        };
    }
    Folded {
        jobs,
        message: Some(message),
    }
}

/// The tables with one coordinate more bound, the jobs, and the message of the next round, if workers have summed it with the binding.
#[derive(Drop)]
pub struct Advanced<'a> {
    pub tables: GateTables<'a>,
    pub jobs: Vec<Job<'a>>,
    pub message: Option<[Ext; 3]>,
}

/// Binds the next coordinate to the challenge `r`, where a round is left, as `GateTables::bind` does, by workers, which gather the
/// second phase where that begins. They share it where there are jobs, and a round where there is one for each part of its tables.
pub fn advance_by<'a, R: Threads + Sync, G: Gate>(
    workers: &Workers<'_, R, G>,
    mut tables: GateTables<'a>,
    r: Ext,
    jobs: Vec<Job<'a>>,
    gather: &mut GatherJobs<'a>,
) -> Advanced<'a>
    requires here { tables.lent ≡ [] }
    requires left { length tables.bound < tables.k + tables.k }
    requires few { gather.old < 2 ^ 32 }
    ensures bound { result.tables
        ≡ record tables.entry { bound = tables.entry.bound ++ r ∷ [] } }
    ensures jobs { vec_len result.jobs ≡ vec_len jobs.entry }
    ensures message { IfSome result.message (IsNextMessage result.tables) }
    ensures gather { gather.new ≡ gather.old }
{
    if tables.ends_first() {
        let tables = gather_by(workers, tables.bind_open(r), !jobs.is_empty(), gather);
        return Advanced {
            tables,
            jobs,
            message: None,
        };
    }
    let Folded { jobs, message } = bind_by(workers, &mut tables, r, jobs);
    Advanced {
        tables,
        jobs,
        message,
    }
}
