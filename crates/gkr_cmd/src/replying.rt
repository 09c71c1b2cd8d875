//! Making the whole reply.

ghost use Rattle.std.specs.Prelude.{◌≡◌, ◌≢◌, ◌↔◌, ◌+◌, List, ℕ, length, ◌<◌, ◌≤◌, true, false, IfOk, IfSome, OnOk, IsErrOf, None, Some, Ok, Err};
ghost use Rattle.io_edge.specs.Causes.{Rose};
ghost use Rattle.phase_run.specs.Work.{IsWorkerCount};
ghost use Rattle.gkr_words.specs.Commands.{HasPiece, HasWorkers, IsService, ReadsCase, case_limit, input_limit, read_buffer};
ghost use Rattle.gkr_cmd.specs.Reached.{IsReadUpTo, ReadsWithin};
ghost use Rattle.gkr_cmd.specs.Replies.{IsCommandReply, status_of};
ghost use Rattle.gkr_cmd.specs.Runs.{IsInput};
ghost use Rattle.gkr_cmd.specs.Here.{IsHere};

use crate::answering::{answer, answer_prove};
use crate::demo::demo;
use crate::input::read_input;
use crate::reply_error::ReplyError;
use crate::serving::reply_service;
use crate::session::run_session;
use crate::status::Status;
use case_text::Reply;
use gkr_words::{CaseCommand, Command};
use io_edge::{Gate, Source};
use proof_two::ProofKind;
use std::alloc::Global;
use std::marker::Sync;
use std::sync::Wait;
use std::thread::Threads;

/// The most bytes of a case.
pub(crate) const CASE_LIMIT: u32 = 8_388_608;

/// Whether these are more bytes than those of a case.
fn is_too_long(input: &[u8]) -> bool
    ensures long { result ≡ true → case_limit < length input.now }
    ensures short { result ≡ false → length input.now ≤ case_limit }
{
    input.len() > CASE_LIMIT as usize
}

/// The reply of a command on a case to what it reads. The calling thread makes a proof, whatever
/// number of workers the command has.
fn run_case<S: Source>(
    alloc: Global,
    command: CaseCommand,
    source: &mut S,
) -> Result<Reply, ReplyError>
    ensures reply { IfOk result (λ reply. (input : List ℕ) → S.left source.old ≡ Some input
        → IsCommandReply (Some (Command.OfCase command)) input reply) }
    ensures named { IfOk result (λ reply. status_of reply ≢ Status.Usage) }
    ensures read { OnOk result (IsReadUpTo (case_limit + 1) (S.left source.old)
        (S.left source.new)) }
    ensures within { ReadsWithin (case_limit + 1) read_buffer (S.left source.old)
        (S.left source.new) (S.calls source.old) (S.calls source.new) }
    ensures fault { IsErrOf result ReplyError.ReadFault
        → Rose (S.faults source.old) (S.faults source.new) }
    ensures no_fault { result ≢ Err ReplyError.ReadFault
        → S.faults source.new ≡ S.faults source.old }
{
    let input = read_input(alloc, source, CASE_LIMIT as usize)?;
    if is_too_long(&input) {
        return Ok(Reply::TooLong(CASE_LIMIT));
    }
    answer(alloc, command, &input)
}

/// The reply of `prove` by so many workers to what it reads.
fn run_prove<R: Threads + Sync, S: Source, G: Gate>(
    rt: &R,
    alloc: Global,
    kind: ProofKind,
    workers: u32,
    source: &mut S,
    gate: &G,
) -> Result<Reply, ReplyError>
    requires { IsWorkerCount workers }
    ensures reply { IfOk result (λ reply. (input : List ℕ) → S.left source.old ≡ Some input
        → IsCommandReply (Some (Command.OfCase (CaseCommand.Prove workers kind))) input reply) }
    ensures named { IfOk result (λ reply. status_of reply ≢ Status.Usage) }
    ensures read { OnOk result (IsReadUpTo (case_limit + 1) (S.left source.old)
        (S.left source.new)) }
    ensures within { ReadsWithin (case_limit + 1) read_buffer (S.left source.old)
        (S.left source.new) (S.calls source.old) (S.calls source.new) }
    ensures fault { IsErrOf result ReplyError.ReadFault
        → Rose (S.faults source.old) (S.faults source.new) }
    ensures no_fault { result ≢ Err ReplyError.ReadFault
        → S.faults source.new ≡ S.faults source.old }
{
    let input = read_input(alloc, source, CASE_LIMIT as usize)?;
    if is_too_long(&input) {
        return Ok(Reply::TooLong(CASE_LIMIT));
    }
    answer_prove(rt, alloc, kind, workers, &input, gate)
}

/// The reply to a command on a case, or to words that are no command, and to what it reads. The
/// calling thread makes a proof, whatever number of workers the command has.
pub fn reply_here<S: Source>(
    alloc: Global,
    command: Option<Command>,
    source: &mut S,
) -> Result<Reply, ReplyError>
    requires here { IsHere command }
    ensures reply { IfOk result (λ reply. (input : List ℕ)
        → IsInput command (S.left source.old) input → IsCommandReply command input reply) }
    ensures usage { IfOk result (λ reply. (status_of reply ≡ Status.Usage) ↔ (command ≡ None)) }
    ensures read { ReadsCase command → OnOk result (IsReadUpTo (input_limit command + 1)
        (S.left source.old) (S.left source.new)) }
    ensures within { ReadsCase command → ReadsWithin (input_limit command + 1) read_buffer
        (S.left source.old) (S.left source.new) (S.calls source.old) (S.calls source.new) }
    ensures unread { ¬ ReadsCase command → source.new ≡ source.old }
    ensures fault { IsErrOf result ReplyError.ReadFault
        → Rose (S.faults source.old) (S.faults source.new) }
    ensures no_fault { result ≢ Err ReplyError.ReadFault
        → S.faults source.new ≡ S.faults source.old }
{
    match command {
        None => Ok(Reply::Usage),
        Some(Command::OfCase(command)) => run_case(alloc, command, source),
        _ => unreachable!(),
    }
}

/// The reply to a command other than `serve`, or to words that are no command, and to what it
/// reads.
pub fn reply_alone<R: Threads + Sync, S: Source, G: Gate>(
    rt: &R,
    alloc: Global,
    command: Option<Command>,
    source: &mut S,
    gate: &G,
) -> Result<Reply, ReplyError>
    requires workers { IfSome command HasWorkers }
    requires piece { IfSome command HasPiece }
    requires alone { ¬ IsService command }
    ensures reply { IfOk result (λ reply. (input : List ℕ)
        → IsInput command (S.left source.old) input → IsCommandReply command input reply) }
    ensures usage { IfOk result (λ reply. (status_of reply ≡ Status.Usage) ↔ (command ≡ None)) }
    ensures read { ReadsCase command → OnOk result (IsReadUpTo (input_limit command + 1)
        (S.left source.old) (S.left source.new)) }
    ensures within { ReadsCase command → ReadsWithin (input_limit command + 1) read_buffer
        (S.left source.old) (S.left source.new) (S.calls source.old) (S.calls source.new) }
    ensures unread { ¬ ReadsCase command → source.new ≡ source.old }
    ensures fault { IsErrOf result ReplyError.ReadFault
        → Rose (S.faults source.old) (S.faults source.new) }
    ensures no_fault { result ≢ Err ReplyError.ReadFault
        → S.faults source.new ≡ S.faults source.old }
{
    match command {
        Some(Command::Session { piece, workers }) => {
            run_session(rt, alloc, piece, workers, source, gate)
        }
        Some(Command::Demo { number, workers }) => demo(rt, alloc, number, workers, gate),
        Some(Command::OfCase(CaseCommand::Prove { workers, kind })) => {
            run_prove(rt, alloc, kind, workers, source, gate)
        }
        None | Some(Command::OfCase(_)) => reply_here(alloc, command, source),
        _ => unreachable!(),
    }
}

/// The reply to `serve`, whose threads wait for each other, and to what it reads.
pub fn reply_waiting<R: Threads + Wait + Sync, S: Source, G: Gate>(
    rt: &R,
    alloc: Global,
    command: Option<Command>,
    source: &mut S,
    gate: &G,
) -> Result<Reply, ReplyError>
    requires workers { IfSome command HasWorkers }
    requires service { IsService command }
    ensures reply { IfOk result (λ reply. (input : List ℕ)
        → IsInput command (S.left source.old) input → IsCommandReply command input reply) }
    ensures usage { IfOk result (λ reply. (status_of reply ≡ Status.Usage) ↔ (command ≡ None)) }
    ensures read { ReadsCase command → OnOk result (IsReadUpTo (input_limit command + 1)
        (S.left source.old) (S.left source.new)) }
    ensures within { ReadsCase command → ReadsWithin (input_limit command + 1) read_buffer
        (S.left source.old) (S.left source.new) (S.calls source.old) (S.calls source.new) }
    ensures unread { ¬ ReadsCase command → source.new ≡ source.old }
    ensures fault { IsErrOf result ReplyError.ReadFault
        → Rose (S.faults source.old) (S.faults source.new) }
    ensures no_fault { result ≢ Err ReplyError.ReadFault
        → S.faults source.new ≡ S.faults source.old }
{
    match command {
        Some(Command::Serve { .. } | Command::ServeHistory { .. }) => {
            reply_service(rt, alloc, command, source, gate)
        }
        _ => unreachable!(),
    }
}
