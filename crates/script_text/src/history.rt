//! Reading a script whose jobs may be withdrawn.

ghost use Rattle.std.specs.Prelude.{◌≡◌, List, IfOk, Ok};
ghost use Rattle.text_parts.specs.Parts.{Gives};
ghost use Rattle.case_text.specs.Reading.{Answers};
ghost use Rattle.script_text.specs.declared.script.MarkedJob.{MarkedJob};
ghost use Rattle.script_text.specs.Scripts.{SpellsHistoryScript, history_script_reading, jobs_of, mark_at};

use crate::reading::{Job, placed};
use crate::script::{MarkedJob, ScriptJob};
use case_text::CaseRefused;
use std::alloc::Global;
use text_parts::{DueKind, ReadError, stop_at, word};

/// Takes the mark after a job, where there is one.
#[tactic(auto, unfolding(crate::specs::Scripts::mark_at, text_parts::specs::Parts::choice_at))]
fn mark(bytes: &[u8]) -> Result<(bool, &[u8]), ReadError>
    ensures { Gives (λ x. (x.0, x.1.now)) result (mark_at bytes.now) }
{
    match bytes {
        [] => Err(stop_at(bytes, DueKind::End)),
        [first, ..] => {
            if *first != b'w' {
                return Ok((false, bytes));
            }
            let rest = word(DueKind::Section, b"withdraw\n", bytes)?;
            Ok((true, rest))
        }
    }
}

impl Job for MarkedJob {
    ghost use Rattle.script_text.specs.Scripts.{marked_job_at};

    ghost taking = { marked_job_at };

    #[tactic(auto, unfolding(crate::specs::Scripts::marked_job_at))]
    fn take(alloc: Global, bytes: &[u8]) -> Result<(MarkedJob, &[u8]), ReadError> {
        let (job, rest) = ScriptJob::take(alloc, bytes)?;
        let (withdraw, rest) = mark(rest)?;
        let marked = MarkedJob {
            client: job.client,
            case: job.case,
            withdraw,
        };
        Ok((marked, rest))
    }
}

/// The jobs of the script that all of the bytes spell, at most 256 of them, where the line `withdraw` may come after
/// each case.
///
/// `Bad` comes where they spell none, with the place of the first byte that isn't taken and what was due there.
/// `Memory` comes where memory for its lists runs out.
pub fn read_history_script(alloc: Global, bytes: &[u8]) -> Result<Vec<MarkedJob>, CaseRefused>
    // What is read is spelled so.
    ensures found { IfOk (jobs_of result) (λ jobs. SpellsHistoryScript bytes.now jobs) }
    // What is spelled so is read, unless memory runs out.
    ensures only { (jobs : List MarkedJob) → SpellsHistoryScript bytes.now jobs
        → Answers (jobs_of result) (Ok jobs) }
    // Which refusal it is.
    ensures exact { Answers (jobs_of result) (history_script_reading bytes.now) }
{
    placed(alloc, bytes)
}
