//! The reply to a session's text.

ghost use Rattle.std.specs.Prelude.{◌≡◌, ◌≢◌, ◌+◌, List, ℕ, IfOk, OnOk, IsErrOf, Some, Err};
ghost use Rattle.io_edge.specs.Causes.{Rose};
ghost use Rattle.phase_run.specs.Work.{IsWorkerCount};
ghost use Rattle.gkr_words.specs.Commands.{IsPieceSize, case_limit, read_buffer};
ghost use Rattle.gkr_cmd.specs.Reached.{IsReadUpTo, ReadsWithin};
ghost use Rattle.gkr_cmd.specs.Replies.{IsCommandReply, IsSessionAnswer, IsSessionReply, IsWithinLimit, status_of};

use crate::input::read_input;
use crate::reply_error::ReplyError;
use crate::replying::CASE_LIMIT;
use crate::reported::refused_reply;
use crate::status::Status;
use case_text::{CaseRefused, Reply};
use gkr_words::Command;
use io_edge::{Gate, Source};
use session_prove::{SessionRefused, session_case};
use session_text::{SessionCase, read_session};
use std::alloc::Global;
use std::marker::Sync;
use std::thread::Threads;

/// The reply of `session` to what it reads.
pub fn run_session<R: Threads + Sync, S: Source, G: Gate>(
    rt: &R,
    alloc: Global,
    piece: u32,
    workers: u32,
    source: &mut S,
    gate: &G,
) -> Result<Reply, ReplyError>
    requires piece { IsPieceSize piece }
    requires workers { IsWorkerCount workers }
    ensures reply { IfOk result (λ reply. (input : List ℕ) → S.left source.old ≡ Some input
        → IsCommandReply (Some (Command.Session piece workers)) input reply) }
    ensures named { IfOk result (λ reply. status_of reply ≢ Status.Usage) }
    ensures read { OnOk result (IsReadUpTo (case_limit + 1) (S.left source.old)
        (S.left source.new)) }
    ensures within { ReadsWithin (case_limit + 1) read_buffer (S.left source.old)
        (S.left source.new) (S.calls source.old) (S.calls source.new) }
    ensures fault { IsErrOf result ReplyError.ReadFault
        → Rose (S.faults source.old) (S.faults source.new) }
    ensures no_fault { result ≢ Err ReplyError.ReadFault
        → S.faults source.new ≡ S.faults source.old }
{
    let input = read_input(alloc, source, CASE_LIMIT as usize)?;
    if input.len() > CASE_LIMIT as usize {
        return Ok(Reply::TooLong(CASE_LIMIT));
    }
    answer_session(rt, alloc, piece, workers, &input, gate)
}

/// The reply of `session`, in pieces of at most so many bytes, to an input that isn't too long.
#[tactic(auto, using(crate::proofs::SessionReplies::session_answered))]
fn answer_session<R: Threads + Sync, G: Gate>(
    rt: &R,
    alloc: Global,
    piece: u32,
    workers: u32,
    input: &[u8],
    gate: &G,
) -> Result<Reply, ReplyError>
    requires piece { IsPieceSize piece }
    requires workers { IsWorkerCount workers }
    requires limit { IsWithinLimit input.now }
    ensures reply { IfOk result (λ reply. IsSessionReply input.now reply) }
    ensures fault { result ≢ Err ReplyError.ReadFault }
{
    let session = match read_session(alloc, input) {
        Ok(session) => session,
        Err(CaseRefused::Bad(bad)) => return Ok(Reply::Case(bad)),
        Err(CaseRefused::Memory) => return Err(ReplyError::Memory),
    };
    run_ends(rt, alloc, &session, piece, workers, gate)
}

/// What `session` says of a case and its words.
#[tactic(auto, using(crate::proofs::SessionReplies::session_refused))]
fn run_ends<R: Threads + Sync, G: Gate>(
    rt: &R,
    alloc: Global,
    session: &SessionCase,
    piece: u32,
    workers: u32,
    gate: &G,
) -> Result<Reply, ReplyError>
    requires piece { IsPieceSize piece }
    requires workers { IsWorkerCount workers }
    ensures reply { IfOk result (λ reply. IsSessionAnswer session.now reply) }
    ensures fault { result ≢ Err ReplyError.ReadFault }
{
    match session_case(rt, alloc, session, piece, workers, gate) {
        Ok(sizes) => Ok(Reply::Session(sizes)),
        Err(SessionRefused::Words { have, need }) => Ok(Reply::WordCount { have, need }),
        Err(SessionRefused::Case(refused)) => refused_reply(refused),
    }
}
