//! The whole program.

ghost use Rattle.std.specs.Prelude.{◌≡◌, IfNone, IfSome, true, false, map, string_bytes};
ghost use Rattle.gkr_words.specs.Commands.{HasWorkers, IsService, ReadsCase, command_of};
ghost use Rattle.gkr_cmd.specs.Headline.{KeepsPromises};
ghost use Rattle.gkr_cmd.specs.RunLaws.{RunLaws};

use crate::laws::{
    accepted_is_done, audited_is_done, converted_replies_alike, convertible_is_done, demo_is_done,
    evaluable_is_done, laid_out_is_done, provable_is_done, session_is_done,
};
use crate::output::finish;
use crate::replying::{reply_alone, reply_waiting};
use crate::status::Status;
use case_prove::laws::{
    accepted_falsehood_is_named, audit_has_the_verdict, audit_is_one, audit_says_the_meaning,
    converted_is_full, converted_is_short, proved_is_accepted, proved_is_full, proved_is_short,
    proved_is_unnamed, sound,
};
use case_text::laws::read_exactly;
use gkr_words::{Command, named_command};
use io_edge::{Gate, Sink, Source};
use std::alloc::Global;
use std::marker::Sync;
use std::sync::Wait;
use std::thread::Threads;

/// The laws that the promises of a run rest on.
pub(crate) fn run_laws()
    ensures { RunLaws }
{
    evaluable_is_done();
    laid_out_is_done();
    provable_is_done();
    session_is_done();
    demo_is_done();
    accepted_is_done();
    audited_is_done();
    convertible_is_done();
    converted_replies_alike();
    converted_is_full();
    converted_is_short();
    audit_is_one();
    audit_has_the_verdict();
    audit_says_the_meaning();
    accepted_falsehood_is_named();
    proved_is_unnamed();
    sound();
    proved_is_accepted();
    proved_is_full();
    proved_is_short();
    read_exactly();
}

/// Runs the command that the words name, as `gkr_run` does, unless it is `serve`.
///
/// No bound lets it wait, so it returns. None is answered where the words name `serve`, and then
/// nothing was read or written.
#[tactic(auto, using(crate::proofs::InputReads::none_within))]
pub fn run_alone<R: Threads + Sync, S: Source, K: Sink, G: Gate>(
    rt: &R,
    alloc: Global,
    words: &[String],
    source: &mut S,
    sink: &mut K,
    gate: &G,
) -> Option<Status>
    ensures run { IfSome result (λ status. KeepsPromises (record {
      words = map string_bytes words.now;
      before = record {
        left = S.left source.old;
        calls = S.calls source.old;
        read_faults = S.faults source.old;
        written = K.written sink.old;
        write_faults = K.faults sink.old;
      };
      after = record {
        left = S.left source.new;
        calls = S.calls source.new;
        read_faults = S.faults source.new;
        written = K.written sink.new;
        write_faults = K.faults sink.new;
      };
      ended = status;
    })) }
    ensures unread { ¬ ReadsCase (command_of (map string_bytes words.now))
        → source.new ≡ source.old }
    ensures service { IfNone result (IsService (command_of (map string_bytes words.now))) }
    ensures untaken { IfNone result (source.new ≡ source.old) }
    ensures unwritten { IfNone result (sink.new ≡ sink.old) }
{
    run_laws();
    let Ok(command) = named_command(alloc, words) else {
        return Some(Status::Memory);
    };
    if is_service(command) {
        return None;
    }
    let made = reply_alone(rt, alloc, command, source, gate);
    Some(finish(alloc, made, sink))
}

/// Whether a command is `serve`.
fn is_service(command: Option<Command>) -> bool
    ensures service { result ≡ true → IsService command }
    ensures alone { result ≡ false → ¬ IsService command }
{
    match command {
        None | Some(Command::OfCase(_)) => false,
        Some(Command::Demo { .. } | Command::Session { .. }) => false,
        Some(Command::Serve { .. } | Command::ServeHistory { .. }) => true,
    }
}

/// Runs `serve`, which the words name.
#[tactic(auto, using(crate::proofs::InputReads::none_within))]
fn run_waiting<R: Threads + Wait + Sync, S: Source, K: Sink, G: Gate>(
    rt: &R,
    alloc: Global,
    words: &[String],
    source: &mut S,
    sink: &mut K,
    gate: &G,
) -> Status
    requires service { IsService (command_of (map string_bytes words.now)) }
    ensures run { KeepsPromises (record {
      words = map string_bytes words.now;
      before = record {
        left = S.left source.old;
        calls = S.calls source.old;
        read_faults = S.faults source.old;
        written = K.written sink.old;
        write_faults = K.faults sink.old;
      };
      after = record {
        left = S.left source.new;
        calls = S.calls source.new;
        read_faults = S.faults source.new;
        written = K.written sink.new;
        write_faults = K.faults sink.new;
      };
      ended = result;
    }) }
    ensures unread { ¬ ReadsCase (command_of (map string_bytes words.now))
        → source.new ≡ source.old }
{
    run_laws();
    let Ok(command) = named_command(alloc, words) else {
        return Status::Memory;
    };
    let made = reply_waiting(rt, alloc, command, source, gate);
    finish(alloc, made, sink)
}

/// Runs the command that the words name: reads the whole input, makes the whole reply, writes it.
///
/// The threads of `serve` wait for each other. All other commands are run by `run_alone`, which
/// returns.
pub fn gkr_run<R: Threads + Wait + Sync, S: Source, K: Sink, G: Gate>(
    rt: &R,
    alloc: Global,
    words: &[String],
    source: &mut S,
    sink: &mut K,
    gate: &G,
) -> Status
    // The headline, the one reply to the words and the input, and the causes of faults.
    ensures run { KeepsPromises (record {
      words = map string_bytes words.now;
      before = record {
        left = S.left source.old;
        calls = S.calls source.old;
        read_faults = S.faults source.old;
        written = K.written sink.old;
        write_faults = K.faults sink.old;
      };
      after = record {
        left = S.left source.new;
        calls = S.calls source.new;
        read_faults = S.faults source.new;
        written = K.written sink.new;
        write_faults = K.faults sink.new;
      };
      ended = result;
    }) }
    // Words that name no command on a case or a script leave the source as it was.
    ensures unread { ¬ ReadsCase (command_of (map string_bytes words.now))
        → source.new ≡ source.old }
{
    match run_alone(rt, alloc, words, source, sink, gate) {
        Some(status) => status,
        None => run_waiting(rt, alloc, words, source, sink, gate),
    }
}
