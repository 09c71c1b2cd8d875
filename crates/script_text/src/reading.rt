//! Reading the jobs of a script, whichever kind they are of.

ghost use Rattle.std.specs.Prelude.{◌≡◌, length};
ghost use Rattle.text_parts.specs.Parts.{Gives, follows};
ghost use Rattle.case_text.specs.Reading.{Answers, refused};
ghost use Rattle.script_text.specs.Scripts.{job_initial, jobs_at, jobs_of, script_in};

use case_text::{CaseRefused, refusal_of};
use std::alloc::Global;
use text_parts::{DueKind, ReadError, end, stop_at, word};

/// The most jobs of a script.
const MOST_JOBS: u32 = 256;

/// A job as a script has it.
pub(crate) trait Job: Drop {
    ghost use Rattle.std.specs.Prelude.{List, ℕ};
    ghost use Rattle.text_parts.specs.Parts.{Gives, Taking};

    /// The job at the beginning of the bytes and what follows it, or where taking it stops.
    ghost taking: { List ℕ → Taking Self };

    /// Takes a job.
    fn take(alloc: Global, bytes: &[u8]) -> Result<(Self, &[u8]), ReadError>
        ensures { Gives (λ x. (x.0, x.1.now)) result (taking bytes.now) };
}

/// Whether a job follows, where this many more may.
fn job_follows(left: u32, bytes: &[u8]) -> Result<bool, ReadError>
    ensures { Gives (λ x. x) result (follows job_initial left bytes.now) }
{
    if left == 0 {
        return Ok(false);
    }
    match bytes {
        [] => Err(stop_at(bytes, DueKind::End)),
        [first, ..] => Ok(*first == b'c'),
    }
}

/// Takes the jobs of a script, and its last line.
#[tactic(auto, using(text_parts::proofs::api::Listed::item_goes_on, text_parts::proofs::api::Listed::item_fails, text_parts::proofs::api::Listed::test_fails))]
fn jobs<J: Job>(alloc: Global, bytes: &[u8]) -> Result<(Vec<J>, &[u8]), ReadError>
    ensures { Gives (λ x. (x.0.items, x.1.now)) result (jobs_at J.taking 256 bytes.now) }
{
    let mut jobs = Vec::new(alloc);
    let mut rest = bytes;
    let mut left = MOST_JOBS;
    loop {
        let follows = job_follows(left, rest)?;
        if !follows {
            break;
        }
        let (job, after) = J::take(alloc, rest)?;
        jobs.push(job)?;
        rest = after;
        left -= 1;
    }
    let rest = word(DueKind::Section, b"done\n", rest)?;
    Ok((jobs, rest))
}

/// Takes a script, after which nothing comes.
#[tactic(auto, using(text_parts::proofs::api::Whole::end_taken, text_parts::proofs::api::Whole::end_fails))]
fn whole<J: Job>(alloc: Global, bytes: &[u8]) -> Result<Vec<J>, ReadError>
    ensures { Gives (λ jobs. jobs.items) result (script_in J.taking bytes.now) }
{
    let (jobs, rest) = jobs(alloc, bytes)?;
    end(rest)?;
    Ok(jobs)
}

/// The same, a refusal by its place.
pub(crate) fn placed<J: Job>(alloc: Global, bytes: &[u8]) -> Result<Vec<J>, CaseRefused>
    ensures { Answers (jobs_of result) (refused (length bytes.now) (script_in J.taking bytes.now)) }
{
    match whole(alloc, bytes) {
        Ok(jobs) => Ok(jobs),
        Err(error) => Err(refusal_of(error, bytes)),
    }
}
