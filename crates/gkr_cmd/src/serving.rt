//! The replies to a script.

ghost use Rattle.std.specs.Prelude.{◌≡◌, ◌≢◌, ◌≤◌, ◌+◌, length, List, ℕ, IfOk, IfSome, OnOk, IsErrOf, Err};
ghost use Rattle.io_edge.specs.Causes.{Rose};
ghost use Rattle.phase_run.specs.Work.{IsWorkerCount};
ghost use Rattle.gkr_words.specs.Commands.{HasWorkers, IsService, read_buffer, script_limit};
ghost use Rattle.gkr_cmd.specs.Reached.{IsReadUpTo, ReadsWithin};
ghost use Rattle.gkr_cmd.specs.Replies.{IsCommandReply, IsHistoryReply, IsScriptReply, status_of};
ghost use Rattle.gkr_cmd.specs.Runs.{IsInput};

use crate::input::read_input;
use crate::reply_error::ReplyError;
use crate::status::Status;
use case_text::{CaseRefused, Reply, ServedJobs};
use gkr_words::Command;
use io_edge::{Gate, Source};
use script_prove::{Threading, serve_script, serve_script_history};
use script_text::{read_history_script, read_script};
use std::alloc::Global;
use std::marker::Sync;
use std::sync::Wait;
use std::thread::Threads;

/// The most bytes of a script.
const SCRIPT_LIMIT: u32 = 16_777_216;

/// The reply of `serve`, or of `serve --history`, to what it reads.
pub fn reply_service<R: Threads + Wait + Sync, S: Source, G: Gate>(
    rt: &R,
    alloc: Global,
    command: Option<Command>,
    source: &mut S,
    gate: &G,
) -> Result<Reply, ReplyError>
    requires service { IsService command }
    requires workers { IfSome command HasWorkers }
    ensures reply { IfOk result (λ reply. (input : List ℕ)
        → IsInput command (S.left source.old) input → IsCommandReply command input reply) }
    ensures named { IfOk result (λ reply. status_of reply ≢ Status.Usage) }
    ensures read { OnOk result (IsReadUpTo (script_limit + 1) (S.left source.old)
        (S.left source.new)) }
    ensures within { ReadsWithin (script_limit + 1) read_buffer (S.left source.old)
        (S.left source.new) (S.calls source.old) (S.calls source.new) }
    ensures fault { IsErrOf result ReplyError.ReadFault
        → Rose (S.faults source.old) (S.faults source.new) }
    ensures no_fault { result ≢ Err ReplyError.ReadFault
        → S.faults source.new ≡ S.faults source.old }
{
    let input = read_input(alloc, source, SCRIPT_LIMIT as usize)?;
    if input.len() > SCRIPT_LIMIT as usize {
        return Ok(Reply::TooLong(SCRIPT_LIMIT));
    }
    answer_service(rt, alloc, command, &input, gate)
}

/// The reply to an input that isn't too long.
fn answer_service<R: Threads + Wait + Sync, G: Gate>(
    rt: &R,
    alloc: Global,
    command: Option<Command>,
    input: &[u8],
    gate: &G,
) -> Result<Reply, ReplyError>
    requires service { IsService command }
    requires workers { IfSome command HasWorkers }
    requires limit { length input.now ≤ script_limit }
    ensures reply { IfOk result (λ reply. IsCommandReply command input.now reply) }
    ensures fault { result ≢ Err ReplyError.ReadFault }
{
    match command {
        Some(
            Command::Serve {
                workers,
                provers,
                clients,
            },
        ) => {
            let threading = Threading {
                workers,
                provers,
                clients,
            };
            answer_script(rt, alloc, threading, input, gate)
        }
        Some(
            Command::ServeHistory {
                workers,
                provers,
                clients,
            },
        ) => {
            let threading = Threading {
                workers,
                provers,
                clients,
            };
            answer_history(rt, alloc, threading, input, gate)
        }
        _ => unreachable!(),
    }
}

/// The reply of `serve` to an input that isn't too long.
fn answer_script<R: Threads + Wait + Sync, G: Gate>(
    rt: &R,
    alloc: Global,
    threading: Threading,
    input: &[u8],
    gate: &G,
) -> Result<Reply, ReplyError>
    requires workers { IsWorkerCount threading.workers }
    requires provers { IsWorkerCount threading.provers }
    requires clients { IsWorkerCount threading.clients }
    requires limit { length input.now ≤ script_limit }
    ensures reply { IfOk result (λ reply. IsScriptReply input.now reply) }
    ensures fault { result ≢ Err ReplyError.ReadFault }
{
    let script = match read_script(alloc, input) {
        Ok(script) => script,
        Err(CaseRefused::Bad(bad)) => return Ok(Reply::Case(bad)),
        Err(CaseRefused::Memory) => return Err(ReplyError::Memory),
    };
    let served = serve_script(rt, alloc, script, threading, gate)?;
    Ok(Reply::Served(ServedJobs::new(served)))
}

/// The reply of `serve --history` to an input that isn't too long.
fn answer_history<R: Threads + Wait + Sync, G: Gate>(
    rt: &R,
    alloc: Global,
    threading: Threading,
    input: &[u8],
    gate: &G,
) -> Result<Reply, ReplyError>
    requires workers { IsWorkerCount threading.workers }
    requires provers { IsWorkerCount threading.provers }
    requires clients { IsWorkerCount threading.clients }
    requires limit { length input.now ≤ script_limit }
    ensures reply { IfOk result (λ reply. IsHistoryReply input.now reply) }
    ensures fault { result ≢ Err ReplyError.ReadFault }
{
    let script = match read_history_script(alloc, input) {
        Ok(script) => script,
        Err(CaseRefused::Bad(refusal)) => return Ok(Reply::Case(refusal)),
        Err(CaseRefused::Memory) => return Err(ReplyError::Memory),
    };
    let history = serve_script_history(rt, alloc, script, threading, gate)?;
    Ok(Reply::History(history))
}
