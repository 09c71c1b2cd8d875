//! The program, as a process runs it.

ghost use Rattle.std.specs.Prelude.{◌≡◌, IfErr, IfOk, map, string_bytes};
ghost use Rattle.std.specs.Process.{exit_status};
ghost use Rattle.gkr_cmd.specs.Programs.{EndsRun, code_without};

use crate::run::gkr_run;
use io_edge::{Gate, Sink, Source};
use std::alloc::Global;
use std::marker::Sync;
use std::process::ExitCode;
use std::sync::Wait;
use std::thread::Threads;

/// Why the words of the command line can't be had.
#[derive(Clone, Copy, Debug, PartialEq, Eq)]
pub enum NoWords {
    /// No memory was found for them.
    Memory,
    /// They can't be read as text.
    Unreadable,
}

impl NoWords {
    /// The number that the process ends with.
    pub fn code(self) -> u8
        ensures { result ≡ code_without self }
    {
        match self {
            NoWords::Memory => 9,
            NoWords::Unreadable => 11,
        }
    }
}

/// Runs the command that the words name, and answers how the process ends: with the number of the
/// run's status, or with that of what kept the words away.
pub fn run_program<R: Threads + Wait + Sync, S: Source, K: Sink, G: Gate>(
    rt: &R,
    alloc: Global,
    words: Result<Vec<String>, NoWords>,
    source: &mut S,
    sink: &mut K,
    gate: &G,
) -> ExitCode
    // Where there are words, the number is that of a run of them, which keeps all promises.
    ensures run { IfOk words (λ words. EndsRun (exit_status result)
        (map string_bytes words.items)
        (record {
          left = S.left source.old;
          calls = S.calls source.old;
          read_faults = S.faults source.old;
          written = K.written sink.old;
          write_faults = K.faults sink.old;
        })
        (record {
          left = S.left source.new;
          calls = S.calls source.new;
          read_faults = S.faults source.new;
          written = K.written sink.new;
          write_faults = K.faults sink.new;
        })) }
    // Where there are none, nothing is read and nothing is written.
    ensures none { IfErr words (λ none. exit_status result ≡ code_without none) }
    ensures unread { IfErr words (λ none. source.new ≡ source.old) }
    ensures unwritten { IfErr words (λ none. sink.new ≡ sink.old) }
{
    match words {
        Ok(words) => {
            let status = gkr_run(rt, alloc, &words, source, sink, gate);
            ExitCode::from(status.code())
        }
        Err(none) => ExitCode::from(none.code()),
    }
}
