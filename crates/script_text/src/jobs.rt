//! Reading a script.

ghost use Rattle.std.specs.Prelude.{◌≡◌, List, IfOk, Ok};
ghost use Rattle.text_parts.specs.Parts.{Gives};
ghost use Rattle.case_text.specs.Reading.{Answers};
ghost use Rattle.script_text.specs.declared.script.ScriptJob.{ScriptJob};
ghost use Rattle.script_text.specs.Scripts.{client_at, client_number, jobs_of, script_reading, SpellsScript};

use crate::reading::{Job, placed};
use crate::script::ScriptJob;
use case_text::{CaseRefused, Form, case_of};
use std::alloc::Global;
use text_parts::{DueKind, ReadError, Rule, decimal, stop_at, word};

/// The number of a client, which isn't 0.
fn client_number() -> Rule
    ensures { result ≡ client_number }
{
    Rule {
        limit: 65,
        over: DueKind::Length,
        after_zero: b'\n',
        after_other: b'\n',
    }
}

/// Takes the number of a client, and the byte after it.
#[tactic(auto, unfolding(text_parts::specs::Parts::except_at))]
fn client(bytes: &[u8]) -> Result<(u32, &[u8]), ReadError>
    ensures { Gives (λ x. (x.0, x.1.now)) result (client_at bytes.now) }
{
    match bytes {
        [] => Err(stop_at(bytes, DueKind::End)),
        [first, ..] => {
            if *first == b'0' {
                return Err(stop_at(bytes, DueKind::Length));
            }
            decimal(client_number(), bytes)
        }
    }
}

impl Job for ScriptJob {
    ghost use Rattle.script_text.specs.Scripts.{job_at};

    ghost taking = { job_at };

    #[tactic(auto, unfolding(crate::specs::Scripts::job_at))]
    fn take(alloc: Global, bytes: &[u8]) -> Result<(ScriptJob, &[u8]), ReadError> {
        let rest = word(DueKind::Section, b"client ", bytes)?;
        let (client, rest) = client(rest)?;
        let (case, rest) = case_of(alloc, Form::Plain, rest)?;
        Ok((ScriptJob { client, case }, rest))
    }
}

/// The jobs of the script that all of the bytes spell, at most 256 of them.
///
/// `Bad` comes where they spell none, with the place of the first byte that isn't taken and what was due there.
/// `Memory` comes where memory for its lists runs out.
pub fn read_script(alloc: Global, bytes: &[u8]) -> Result<Vec<ScriptJob>, CaseRefused>
    // What is read is spelled so.
    ensures found { IfOk (jobs_of result) (λ jobs. SpellsScript bytes.now jobs) }
    // What is spelled so is read, unless memory runs out.
    ensures only { (jobs : List ScriptJob) → SpellsScript bytes.now jobs
        → Answers (jobs_of result) (Ok jobs) }
    // Which refusal it is.
    ensures exact { Answers (jobs_of result) (script_reading bytes.now) }
{
    placed(alloc, bytes)
}
