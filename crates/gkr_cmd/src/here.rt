//! Runs of commands on a case by the calling thread, for a library.

ghost use Rattle.std.specs.Prelude.{◌≡◌, List, ℕ, IfNone, IfSome, true, false, map, string_bytes};
ghost use Rattle.gkr_words.specs.Commands.{ReadsCase, command_of};
ghost use Rattle.gkr_cmd.specs.Headline.{KeepsPromises};
ghost use Rattle.gkr_cmd.specs.Here.{IsHere};

use crate::output::finish;
use crate::replying::reply_here;
use crate::run::run_laws;
use crate::status::Status;
use gkr_words::{CaseCommand, Command, named_command};
use io_edge::{Sink, Source};
use std::alloc::Global;

/// Runs a command on a case, as `gkr_run` does for words that name it, on the calling thread alone,
/// whatever number of workers it has: a proof is the same for every number. It takes no handle, so
/// a library may call it, and it returns.
pub fn run_command<S: Source, K: Sink>(
    alloc: Global,
    command: CaseCommand,
    source: &mut S,
    sink: &mut K,
) -> Status
    ensures run { (words : List (List ℕ)) → command_of words ≡ Some (Command.OfCase command)
        → KeepsPromises (record {
          words = words;
          before = record {
            left = S.left source.old;
            calls = S.calls source.old;
            read_faults = S.faults source.old;
            written = K.written sink.old;
            write_faults = K.faults sink.old;
          };
          after = record {
            left = S.left source.new;
            calls = S.calls source.new;
            read_faults = S.faults source.new;
            written = K.written sink.new;
            write_faults = K.faults sink.new;
          };
          ended = result;
        }) }
{
    run_laws();
    let made = reply_here(alloc, Some(Command::OfCase(command)), source);
    finish(alloc, made, sink)
}

/// Runs the command on a case that the words name, as `gkr_run` does, on the calling thread alone,
/// whatever number of workers the words give: a proof is the same for every number. It takes no
/// handle, so a library may call it, and it returns. None is answered where the words name a
/// command that isn't on a case, and then nothing was read or written.
#[tactic(auto, using(crate::proofs::InputReads::none_within))]
pub fn run_here<S: Source, K: Sink>(
    alloc: Global,
    words: &[String],
    source: &mut S,
    sink: &mut K,
) -> Option<Status>
    ensures run { IfSome result (λ status. KeepsPromises (record {
      words = map string_bytes words.now;
      before = record {
        left = S.left source.old;
        calls = S.calls source.old;
        read_faults = S.faults source.old;
        written = K.written sink.old;
        write_faults = K.faults sink.old;
      };
      after = record {
        left = S.left source.new;
        calls = S.calls source.new;
        read_faults = S.faults source.new;
        written = K.written sink.new;
        write_faults = K.faults sink.new;
      };
      ended = status;
    })) }
    ensures unread { ¬ ReadsCase (command_of (map string_bytes words.now))
        → source.new ≡ source.old }
    ensures none { IfNone result (¬ IsHere (command_of (map string_bytes words.now))) }
    ensures untaken { IfNone result (source.new ≡ source.old) }
    ensures unwritten { IfNone result (sink.new ≡ sink.old) }
{
    run_laws();
    let Ok(command) = named_command(alloc, words) else {
        return Some(Status::Memory);
    };
    if !is_here(command) {
        return None;
    }
    let made = reply_here(alloc, command, source);
    Some(finish(alloc, made, sink))
}

/// Whether a command is on a case, or there is none.
fn is_here(command: Option<Command>) -> bool
    ensures here { result ≡ true → IsHere command }
    ensures elsewhere { result ≡ false → ¬ IsHere command }
{
    match command {
        None | Some(Command::OfCase(_)) => true,
        Some(Command::Demo { .. } | Command::Session { .. }) => false,
        Some(Command::Serve { .. } | Command::ServeHistory { .. }) => false,
    }
}
