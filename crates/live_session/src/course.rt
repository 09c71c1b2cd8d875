//! How a prover goes on, one challenge at a time.

ghost use Rattle.std.specs.Prelude.{◌≡◌, ◌≤◌, ◌<◌, ◌+◌, [], ◌++◌, List, length, take, IfOk, OnOk};
ghost use Rattle.std.specs.List.{flat_map};
ghost use Rattle.field_ext.specs.Bytes.{bytes_of};
ghost use Rattle.field_ext.specs.Field.{F};
ghost use Rattle.circuit_core.specs.Parts.{height};
ghost use Rattle.circuit_core.specs.Sound.{exponent_at};
ghost use Rattle.circuit_eval.specs.Tables.{AreTables};
ghost use Rattle.gkr_layers.specs.Layers.{challenges_of};
ghost use Rattle.gkr_layers.specs.Places.{IsOver};
ghost use Rattle.gkr_layers.specs.ClaimPlace.{place_of};
ghost use Rattle.phase_run.specs.Work.{IsWorkerCount};
ghost use Rattle.live_session.specs.Begun.{IsIn, message_due};
ghost use Rattle.live_session.specs.ProverState.{IsWithin, IsAt, tables_at};

use circuit_core::Circuit;
use circuit_eval::Values;
use field_ext::Ext;
use gkr_layers::ClaimPlace;
use gkr_prove::{KeptPlace, last_message};
use io_edge::Gate;
use mle_table::BaseTable;
use proof_wire::ProofForm;
use round_tables::{Buffers, GateTables};
use std::alloc::{AllocError, Global};
use std::marker::Sync;
use std::thread::Threads;
use sumcheck_prove::{bind_round, round};

/// Where the challenges lead: the output point isn't drawn yet, they bind a layer's tables, or all messages are sent.
#[derive(Drop)]
pub(crate) enum Stage<'a> {
    Before(Buffers),
    Within(GateTables<'a>),
    After,
}

/// A prover between two challenges: the layer that it is in, the number of the layer's first challenge, and what it has sent.
#[derive(Drop)]
pub(crate) struct Course<'a> {
    pub(crate) layer: usize,
    pub(crate) base: usize,
    pub(crate) stage: Stage<'a>,
    pub(crate) sent: Vec<u8>,
}

/// Goes on by the challenge with number `u`.
pub(crate) fn go_on<'a, R: Threads + Sync, G: Gate>(
    rt: &R,
    alloc: Global,
    circuit: &'a Circuit,
    values: &'a Values,
    course: Course<'a>,
    words: &[Ext],
    u: usize,
    workers: u32,
    gate: &G,
) -> Result<Course<'a>, AllocError>
    requires workers { IsWorkerCount workers }
    requires values { (inputs : List F) × AreTables circuit.now.parts inputs values.now }
    requires there { u < length words.now }
    requires few { length words.now ≤ challenges_of circuit.now.parts }
    requires at_stage { (inputs : List F) → AreTables circuit.now.parts inputs values.now
        → IsAt circuit.now.parts inputs (take u words.now) course }
    ensures { IfOk result (λ next. (inputs : List F) → AreTables circuit.now.parts inputs values.now
        → IsAt circuit.now.parts inputs (take (u + 1) words.now) next) }
{
    let Course {
        layer,
        base,
        stage,
        sent,
    } = course;
    match stage {
        Stage::Before(buffers) => {
            let k = circuit.coordinates(0);
            if u + 1 < k {
                return Ok(Course {
                    layer,
                    base,
                    stage: Stage::Before(buffers),
                    sent,
                });
            }
            let place = ClaimPlace::One(&words[..k]);
            begin(
                rt, alloc, circuit, values, 0, k, buffers, &place, sent, workers, gate,
            )
        }
        Stage::Within(tables) => {
            if tables.rounds_left() > 0 {
                bind(
                    rt, alloc, circuit, values, layer, base, tables, words, u, sent, workers, gate,
                )
            } else {
                descend(
                    rt, alloc, circuit, values, layer, base, tables, words, u, sent, workers, gate,
                )
            }
        }
        Stage::After => Ok(Course {
            layer,
            base,
            stage: Stage::After,
            sent,
        }),
    }
}

/// Begins a layer where its claim is, and sends its first message after what was sent.
fn begin<'a, R: Threads + Sync, G: Gate>(
    rt: &R,
    alloc: Global,
    circuit: &'a Circuit,
    values: &'a Values,
    layer: usize,
    base: usize,
    buffers: Buffers,
    place: &ClaimPlace<'_>,
    mut sent: Vec<u8>,
    workers: u32,
    gate: &G,
) -> Result<Course<'a>, AllocError>
    requires workers { IsWorkerCount workers }
    requires values { (inputs : List F) × AreTables circuit.now.parts inputs values.now }
    requires layer { layer < height circuit.now.parts }
    requires place { IsOver (exponent_at circuit.now.parts layer) (place_of place.now) }
    ensures { IfOk result (λ next. (inputs : List F) → AreTables circuit.now.parts inputs values.now
        → IsIn layer base (tables_at circuit.now.parts inputs layer (place_of place.now) [])
        (sent.items ++ flat_map bytes_of
        (message_due (tables_at circuit.now.parts inputs layer (place_of place.now) []))) next) }
{
    let table = values.table(layer + 1);
    let tables = GateTables::start_at(buffers, circuit.gates(layer), table, place)?;
    send(rt, alloc, table, &tables, &[], &mut sent, workers, gate)?;
    Ok(Course {
        layer,
        base,
        stage: Stage::Within(tables),
        sent,
    })
}

/// Binds a round's challenge, and sends the next message.
fn bind<'a, R: Threads + Sync, G: Gate>(
    rt: &R,
    alloc: Global,
    circuit: &'a Circuit,
    values: &'a Values,
    layer: usize,
    base: usize,
    mut tables: GateTables<'a>,
    words: &[Ext],
    u: usize,
    mut sent: Vec<u8>,
    workers: u32,
    gate: &G,
) -> Result<Course<'a>, AllocError>
    requires workers { IsWorkerCount workers }
    requires values { (inputs : List F) × AreTables circuit.now.parts inputs values.now }
    requires there { u < length words.now }
    requires layer { layer < height circuit.now.parts }
    requires at { u ≡ base + length tables.bound }
    requires here { tables.lent ≡ [] }
    requires left { length tables.bound < tables.k + tables.k }
    requires at_stage { (inputs : List F) → AreTables circuit.now.parts inputs values.now
        → IsWithin circuit.now.parts inputs (take u words.now) layer base sent.items tables }
    ensures { IfOk result (λ next. (inputs : List F) → AreTables circuit.now.parts inputs values.now
        → IsAt circuit.now.parts inputs (take (u + 1) words.now) next) }
{
    bind_round(rt, alloc, &mut tables, words[u], workers, gate)?;
    send(
        rt,
        alloc,
        values.table(layer + 1),
        &tables,
        &words[base..u + 1],
        &mut sent,
        workers,
        gate,
    )?;
    Ok(Course {
        layer,
        base,
        stage: Stage::Within(tables),
        sent,
    })
}

/// Goes down to the next layer by the challenge after a layer's line, or ends after the last.
fn descend<'a, R: Threads + Sync, G: Gate>(
    rt: &R,
    alloc: Global,
    circuit: &'a Circuit,
    values: &'a Values,
    layer: usize,
    base: usize,
    tables: GateTables<'a>,
    words: &[Ext],
    u: usize,
    sent: Vec<u8>,
    workers: u32,
    gate: &G,
) -> Result<Course<'a>, AllocError>
    requires workers { IsWorkerCount workers }
    requires values { (inputs : List F) × AreTables circuit.now.parts inputs values.now }
    requires there { u < length words.now }
    requires layer { layer < height circuit.now.parts }
    requires at { u ≡ base + length tables.bound }
    requires here { tables.lent ≡ [] }
    requires k { tables.k ≡ exponent_at circuit.now.parts (layer + 1) }
    requires bound { length tables.bound ≡ tables.k + tables.k }
    requires at_stage { (inputs : List F) → AreTables circuit.now.parts inputs values.now
        → IsWithin circuit.now.parts inputs (take u words.now) layer base sent.items tables }
    ensures { IfOk result (λ next. (inputs : List F) → AreTables circuit.now.parts inputs values.now
        → IsAt circuit.now.parts inputs (take (u + 1) words.now) next) }
{
    let (left, right) = words[base..u].split_at(circuit.coordinates(layer + 1));
    let place = KeptPlace::between(alloc, ProofForm::Line, left, right, words[u])?;
    if layer + 1 == circuit.height() {
        return Ok(Course {
            layer,
            base,
            stage: Stage::After,
            sent,
        });
    }
    begin(
        rt,
        alloc,
        circuit,
        values,
        layer + 1,
        u + 1,
        tables.into_buffers(),
        &place.claim_place(),
        sent,
        workers,
        gate,
    )
}

/// Sends the message due of a layer's tables, in which these challenges are bound.
fn send<R: Threads + Sync, G: Gate>(
    rt: &R,
    alloc: Global,
    values: &BaseTable,
    tables: &GateTables<'_>,
    drawn: &[Ext],
    sent: &mut Vec<u8>,
    workers: u32,
    gate: &G,
) -> Result<(), AllocError>
    requires workers { IsWorkerCount workers }
    requires most { values.now.k ≤ 20 }
    requires here { tables.now.lent ≡ [] }
    requires k { tables.now.k ≡ values.now.k }
    requires values { tables.now.values ≡ values.now.items }
    requires drawn { drawn.now ≡ tables.now.bound }
    requires few { length drawn.now ≤ tables.now.k + tables.now.k }
    ensures { OnOk result (sent.new.items ≡ sent.old.items ++ flat_map bytes_of
        (message_due tables.now)) }
{
    if tables.rounds_left() > 0 {
        let message = round(rt, alloc, tables, workers, gate)?;
        return send_elements(sent, &message);
    }
    let (left, right) = drawn.split_at(values.k() as usize);
    let message = last_message(alloc, ProofForm::Line, values, left, right)?;
    send_elements(sent, &message)
}

/// Sends elements.
fn send_elements(sent: &mut Vec<u8>, elements: &[Ext]) -> Result<(), AllocError>
    ensures { OnOk result (sent.new.items ≡ sent.old.items ++ flat_map bytes_of elements.now) }
{
    for element in elements {
        sent.extend_from_slice(&element.to_bytes())?;
    }
    Ok(())
}
