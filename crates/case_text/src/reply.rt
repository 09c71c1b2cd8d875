//! What the program answers.

ghost use Rattle.std.specs.Prelude.{◌≡◌, ◌-◌, ◌++◌, IfOk, OnOk, length};
ghost use Rattle.case_text.specs.Replies.{reply_text, sizes_text, layer_lines, line_text, pair_text, totals_text, bad_proof_text, digest_text, generated_text, proved_text, demo_text, kind_name, program_kind_name};

pub(crate) mod demo;
pub(crate) mod history;
pub(crate) mod outputs;
pub(crate) mod served;
pub(crate) mod session;
pub(crate) mod sizes;
pub(crate) mod verdict;

use crate::case::Case;
use crate::case::refusal::BadCase;
use crate::case::writing::{hex_text, put_counted, put_number, write_case};
use crate::reply::demo::DemoSummary;
use crate::reply::history::{ServedHistory, write_history};
use crate::reply::outputs::Outputs;
use crate::reply::served::{ServedJobs, write_served};
use crate::reply::session::{SessionSizes, put_session};
use crate::reply::sizes::{CircuitSizes, LayerSize};
use crate::reply::verdict::{AuditLines, VerdictLine, put_audit, put_verdict};
use arr_ast::ProgramKind;
use proof_wire::BadProof;
use std::alloc::{AllocError, Global};
use text_parts::DueKind;

/// What the program answers: one line; for a circuit a line each of its height, its layers and its sizes; the text of a case
/// that was proved; or the lines of an audit or of a demo.
#[derive(Debug, Drop)]
pub enum Reply {
    /// The outputs of a program.
    Outputs(Outputs),
    /// The words are no command.
    Usage,
    /// The input is longer than this.
    TooLong(u32),
    /// The bytes are no case.
    Case(BadCase),
    /// The program is refused for this, at this byte of its text.
    Program { kind: ProgramKind, at: usize },
    /// The program's circuit would have this many layers above the input, which are too many.
    Deep { levels: usize },
    /// The program's circuit would have so many positions at this height, which are too many.
    Wide { height: usize, width: usize },
    /// The number of inputs isn't the program's.
    InputCount { have: u64, need: u64 },
    /// The number of outputs isn't the program's.
    OutputCount { have: u64, need: u64 },
    /// The number of words isn't twice that of the challenges.
    WordCount { have: u64, need: u64 },
    /// The bytes of the proof are none of the circuit's shape.
    Proof(BadProof),
    /// The sizes of the program's circuit.
    Circuit(CircuitSizes),
    /// The case with its outputs and the proof of them.
    Proved(Case),
    /// A generated case was proved and accepted.
    Demo(DemoSummary),
    /// The replies to the jobs of a script.
    Served(ServedJobs),
    /// The replies to the jobs of a script, and the history of its table.
    History(ServedHistory),
    /// The verdict on a proof.
    Verdict(VerdictLine),
    /// What an audit says of a proof.
    Audit(AuditLines),
    /// Both ends of a session ran to its end, and the proof is accepted.
    Session(SessionSizes),
}

/// How the kind is named.
fn kind_name(kind: DueKind) -> &'static [u8]
    ensures { result.now ≡ kind_name kind }
{
    match kind {
        DueKind::Header => b"header",
        DueKind::Section => b"section",
        DueKind::Number => b"number",
        DueKind::Range => b"range",
        DueKind::Length => b"length",
        DueKind::Hex => b"hex",
        DueKind::End => b"end",
        DueKind::Rest => b"rest",
    }
}

/// How the kind of a program's refusal is named.
fn program_kind_name(kind: ProgramKind) -> &'static [u8]
    ensures { result.now ≡ program_kind_name kind }
{
    match kind {
        ProgramKind::Lex => b"lex",
        ProgramKind::Syntax => b"syntax",
        ProgramKind::Nesting => b"nesting",
        ProgramKind::Unknown => b"unknown",
        ProgramKind::Taken => b"taken",
        ProgramKind::Shape => b"shape",
        ProgramKind::Index => b"index",
        ProgramKind::IndexSize => b"indexsize",
        ProgramKind::Bounds => b"bounds",
        ProgramKind::Steps => b"steps",
        ProgramKind::Nodes => b"nodes",
        ProgramKind::Defs => b"defs",
        ProgramKind::Dims => b"dims",
        ProgramKind::Outputs => b"outputs",
        ProgramKind::NoOutput => b"nooutput",
    }
}

/// The lines of a circuit's layers.
fn put_layers(out: &mut Vec<u8>, layers: &[LayerSize]) -> Result<(), AllocError>
    ensures { OnOk result (out.new.items ≡ out.old.items ++ layer_lines 0 layers.now) }
{
    let mut number = 0;
    for layer in layers {
        out.extend_from_slice(b"layer ")?;
        put_number(out, number, b' ')?;
        put_number(out, layer.positions, b' ')?;
        put_number(out, layer.products, b'\n')?;
        number += 1;
    }
    Ok(())
}

/// A word and a number on a line.
#[tactic(auto, unfolding(crate::specs::Replies::line_text))]
pub(crate) fn put_line(out: &mut Vec<u8>, word: &[u8], number: u64) -> Result<(), AllocError>
    ensures { OnOk result (out.new.items ≡ out.old.items ++ line_text word.now number) }
{
    out.extend_from_slice(word)?;
    put_number(out, number, b'\n')
}

/// The lines of a circuit.
fn put_sizes(out: &mut Vec<u8>, sizes: &CircuitSizes) -> Result<(), AllocError>
    ensures { OnOk result (out.new.items ≡ out.old.items ++ sizes_text sizes.now) }
{
    put_line(out, b"circuit ", above_the_last(sizes.layers()))?;
    put_layers(out, sizes.layers())?;
    put_totals(out, sizes)
}

/// How many layers are above the last.
fn above_the_last(layers: &[LayerSize]) -> u64
    ensures { result ≡ length layers.now - 1 }
{
    layers.len().saturating_sub(1) as u64
}

/// The lines of what a proof takes.
fn put_totals(out: &mut Vec<u8>, sizes: &CircuitSizes) -> Result<(), AllocError>
    ensures { OnOk result (out.new.items ≡ out.old.items ++ totals_text sizes.now) }
{
    put_line(out, b"proof ", sizes.proof())?;
    put_line(out, b"challenges ", sizes.challenges())?;
    put_line(out, b"bound ", sizes.bound())
}

/// A word and two numbers on a line.
#[tactic(auto, unfolding(crate::specs::Replies::pair_text))]
pub(crate) fn put_pair(
    out: &mut Vec<u8>,
    word: &[u8],
    first: u64,
    second: u64,
) -> Result<(), AllocError>
    ensures { OnOk result (out.new.items ≡ out.old.items ++ pair_text word.now first second) }
{
    out.extend_from_slice(word)?;
    put_number(out, first, b' ')?;
    put_number(out, second, b'\n')
}

/// What is wrong with the bytes of a proof.
fn put_bad_proof(out: &mut Vec<u8>, bad: BadProof) -> Result<(), AllocError>
    ensures { OnOk result (out.new.items ≡ out.old.items ++ bad_proof_text bad) }
{
    match bad {
        BadProof::Magic { at } => put_line(out, b"refused proof magic ", at as u64),
        BadProof::Short { at, need } => put_pair(out, b"refused proof short ", at as u64, need),
        BadProof::Range { at } => put_line(out, b"refused proof range ", at as u64),
        BadProof::Long { extra } => put_line(out, b"refused proof long ", extra as u64),
    }
}

/// The line of a digest.
fn put_digest(alloc: Global, out: &mut Vec<u8>, digest: &[u8]) -> Result<(), AllocError>
    ensures { OnOk result (out.new.items ≡ out.old.items ++ digest_text digest.now) }
{
    out.extend_from_slice(b"digest ")?;
    let digits = hex_text(alloc, digest)?;
    out.extend_from_slice(digits.as_bytes())?;
    out.push(b'\n')?;
    Ok(())
}

/// The lines of a demo on the case that was generated.
fn put_generated(out: &mut Vec<u8>, demo: &DemoSummary) -> Result<(), AllocError>
    ensures { OnOk result (out.new.items ≡ out.old.items ++ generated_text demo.now) }
{
    put_line(out, b"demo ", u64::from(demo.number))?;
    put_line(out, b"size ", u64::from(demo.size))?;
    put_line(out, b"output ", u64::from(demo.output.value()))
}

/// The lines of a demo on the proof.
fn put_proved(alloc: Global, out: &mut Vec<u8>, demo: &DemoSummary) -> Result<(), AllocError>
    ensures { OnOk result (out.new.items ≡ out.old.items ++ proved_text demo.now) }
{
    put_line(out, b"layers ", demo.layers as u64)?;
    put_line(out, b"proof ", demo.proof as u64)?;
    put_digest(alloc, out, &demo.digest)
}

/// The lines of a demo.
fn put_demo(alloc: Global, out: &mut Vec<u8>, demo: &DemoSummary) -> Result<(), AllocError>
    ensures { OnOk result (out.new.items ≡ out.old.items ++ demo_text demo.now) }
{
    put_generated(out, demo)?;
    put_proved(alloc, out, demo)?;
    out.extend_from_slice(b"accepted\n")?;
    Ok(())
}

/// The lines of a reply, each with its LF, in ASCII. The error comes where memory runs out.
#[tactic(auto, unfolding(crate::specs::Replies::line_text, crate::specs::Replies::pair_text))]
pub fn write_reply(alloc: Global, reply: &Reply) -> Result<Vec<u8>, AllocError>
    ensures { IfOk result (λ text. text.items ≡ reply_text reply.now) }
{
    let mut out = Vec::new(alloc);
    match reply {
        Reply::Outputs(outputs) => {
            out.extend_from_slice(b"output ")?;
            put_counted(&mut out, outputs.as_slice())?;
        }
        Reply::Usage => out.extend_from_slice(b"refused usage\n")?,
        Reply::TooLong(limit) => {
            out.extend_from_slice(b"refused long ")?;
            put_number(&mut out, u64::from(*limit), b'\n')?;
        }
        Reply::Case(bad) => {
            out.extend_from_slice(b"refused case ")?;
            out.extend_from_slice(kind_name(bad.kind))?;
            out.push(b' ')?;
            put_number(&mut out, bad.at as u64, b'\n')?;
        }
        Reply::Program { kind, at } => {
            out.extend_from_slice(b"refused program ")?;
            out.extend_from_slice(program_kind_name(*kind))?;
            out.push(b' ')?;
            put_number(&mut out, *at as u64, b'\n')?;
        }
        Reply::Deep { levels } => {
            put_line(&mut out, b"refused program deep ", *levels as u64)?;
        }
        Reply::Wide { height, width } => {
            put_pair(
                &mut out,
                b"refused program wide ",
                *height as u64,
                *width as u64,
            )?;
        }
        Reply::OutputCount { have, need } => {
            put_pair(&mut out, b"refused count output ", *have, *need)?;
        }
        Reply::WordCount { have, need } => {
            put_pair(&mut out, b"refused count words ", *have, *need)?;
        }
        Reply::Proof(bad) => put_bad_proof(&mut out, *bad)?,
        Reply::Circuit(sizes) => put_sizes(&mut out, sizes)?,
        Reply::Proved(case) => return write_case(alloc, case),
        Reply::Demo(demo) => put_demo(alloc, &mut out, demo)?,
        Reply::Served(jobs) => return write_served(alloc, jobs.as_slice()),
        Reply::History(history) => return write_history(alloc, history),
        Reply::Verdict(verdict) => put_verdict(&mut out, *verdict)?,
        Reply::Audit(audit) => put_audit(&mut out, *audit)?,
        Reply::Session(sizes) => put_session(&mut out, *sizes)?,
        Reply::InputCount { have, need } => {
            put_pair(&mut out, b"refused count input ", *have, *need)?;
        }
    }
    Ok(out)
}
