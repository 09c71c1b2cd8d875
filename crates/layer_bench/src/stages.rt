//! What each stage of a layer takes on one thread.

ghost use Rattle.std.specs.Prelude.{◌≡◌, [], IfOk};

use crate::kernels::time_round;
use crate::proving::{LayerCase, case_of, line, started_in};
use bench_parts::{Ratio, nanoseconds_since};
use field_ext::Ext;
use round_tables::{Buffers, GateTables};
use std::io;
use std::time::Instant;

/// The names of the stages, in order.
const STAGES: [&str; 5] = [
    "first tables",
    "first phase",
    "second tables",
    "second phase",
    "line",
];

/// The times of the stages of one layer in nanoseconds, and a digest of its messages.
#[derive(Clone, Copy)]
struct StageTimes {
    times: [u64; 5],
    seen: u32,
}

/// The times of a phase in nanoseconds: its rounds, and the bind of the last of them, which gathers the next phase's tables.
#[derive(Clone, Copy)]
struct PhaseTimes {
    rounds: u64,
    last_bind: u64,
    seen: u32,
}

/// Proves the rounds of a phase, each of one piece after another.
fn time_phase(
    rt: &HostRuntime,
    tables: &mut GateTables<'_>,
    challenges: &[Ext],
) -> io::Result<PhaseTimes>
    requires { tables.old.lent ≡ [] }
    ensures { IfOk result (λ _. tables.new.lent ≡ []) }
{
    let mut phase = PhaseTimes {
        rounds: 0,
        last_bind: 0,
        seen: 0,
    };
    for r in challenges {
        if tables.rounds_left() > 0 {
            let round = time_round(rt, tables, *r)?;
            let before = phase.rounds.saturating_add(phase.last_bind);
            phase = PhaseTimes {
                rounds: before.saturating_add(round.sum),
                last_bind: round.bind,
                seen: phase.seen.wrapping_add(round.seen),
            };
        }
    }
    Ok(phase)
}

/// Proves all rounds of a layer and its line, where its first tables took so long.
fn time_phases(
    rt: &HostRuntime,
    tables: &mut GateTables<'_>,
    case: &LayerCase,
    first_tables: u64,
) -> io::Result<StageTimes>
    requires { tables.old.lent ≡ [] }
    ensures { IfOk result (λ _. tables.new.lent ≡ []) }
{
    let first = time_phase(rt, tables, &case.points.left)?;
    let second = time_phase(rt, tables, &case.points.right)?;
    let begun = Instant::now(rt)?;
    let line_seen = line(rt.alloc(), case)?;
    let line_time = nanoseconds_since(rt, begun)?;
    Ok(StageTimes {
        times: [
            first_tables,
            first.rounds,
            first.last_bind,
            second.rounds.saturating_add(second.last_bind),
            line_time,
        ],
        seen: first.seen.wrapping_add(second.seen).wrapping_add(line_seen),
    })
}

/// The lesser time of each stage.
fn lesser(one: StageTimes, other: StageTimes) -> StageTimes {
    let mut times = one.times;
    for stage in 0..5usize {
        times[stage] = times[stage].min(other.times[stage]);
    }
    StageTimes {
        times,
        seen: other.seen,
    }
}

/// Proves a layer that was begun then and is started, keeps the lesser times, and gives the buffers
/// back.
fn time_started(
    rt: &HostRuntime,
    mut tables: GateTables<'_>,
    case: &LayerCase,
    begun: Instant,
    least: &mut StageTimes,
) -> io::Result<Buffers>
    requires { tables.lent ≡ [] }
{
    let first_tables = nanoseconds_since(rt, begun)?;
    let stages = time_phases(rt, &mut tables, case, first_tables)?;
    *least = lesser(*least, stages);
    Ok(tables.into_buffers())
}

/// Proves a layer in the buffers, where there are any, and gives them back where its sizes fit.
fn time_stages(
    rt: &HostRuntime,
    room: Option<Buffers>,
    case: &LayerCase,
    least: &mut StageTimes,
) -> io::Result<Option<Buffers>> {
    let begun = Instant::now(rt)?;
    match started_in(room, case)? {
        Some(tables) => Ok(Some(time_started(rt, tables, case, begun, least)?)),
        None => Ok(None),
    }
}

/// The least of forty times of each stage. None where the layer isn't of that size.
fn least_stages(rt: &HostRuntime, case: &LayerCase, k: u32) -> io::Result<Option<StageTimes>> {
    let width = 1usize << k.min(20);
    let mut room = Some(Buffers::new(rt.alloc(), width, width)?);
    let mut least = StageTimes {
        times: [u64::MAX; 5],
        seen: 0,
    };
    for _ in 0..40u32 {
        room = time_stages(rt, room, case, &mut least)?;
    }
    Ok(if room.is_some() { Some(least) } else { None })
}

/// Prints the time of a stage as nanoseconds a gate with two digits.
fn print_stage(rt: &HostRuntime, stage: &str, time: u64, k: u32, seen: u32) -> io::Result<()> {
    println!(rt;
        "{}: 2^{} gates, {} ns a gate ({})",
        stage,
        k,
        Ratio::of(time, 1u64 << k.min(20)),
        seen
    )
}

/// Prints what each stage of a layer took, the least of forty times.
fn print_stages(rt: &HostRuntime, case: &LayerCase, k: u32) -> io::Result<()> {
    let Some(least) = least_stages(rt, case, k)? else {
        return println!(rt; "stages: no layer of that size");
    };
    for stage in 0..5usize {
        print_stage(rt, STAGES[stage], least.times[stage], k, least.seen)?;
    }
    Ok(())
}

/// Prints what each stage of a layer of `2^k` gates takes, where there is one of that size.
pub fn layer(rt: &HostRuntime, k: u32) -> io::Result<()> {
    match case_of(rt.alloc(), k)? {
        Some(case) => print_stages(rt, &case, k),
        None => println!(rt; "stages: no layer of that size"),
    }
}
