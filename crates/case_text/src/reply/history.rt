//! The history of a script's jobs, as it is printed.

ghost use Rattle.std.specs.Prelude.{◌≡◌, ◌++◌, IfOk, OnOk};
ghost use Rattle.case_text.specs.Histories.{is_withdrawal, withdrawn_count};
ghost use Rattle.case_text.specs.Replies.{history_line_text, history_lines, history_summary_text, history_text};

use crate::case::writing::put_number;
use crate::reply::served::{ServedJob, proved_count, put_served_lines};
use crate::reply::{put_line, put_pair};
use std::alloc::{AllocError, Global};
use std::marker::Model;

/// What happened to a job, with the job's number. With a submission goes the job's place in the script, from 0.
#[derive(Clone, Copy, Debug, PartialEq, Eq)]
pub enum HistoryLine {
    Submit { job: u32, place: u32 },
    Take(u32),
    Finish(u32),
    Withdraw(u32),
}

impl HistoryLine {
    fn is_withdrawal(self) -> bool
        ensures { result ≡ is_withdrawal self }
    {
        matches!(self, HistoryLine::Withdraw(_))
    }
}

/// The replies to the jobs of a script, in its order, and what happened to them, in order too.
#[derive(Debug, Drop)]
pub struct ServedHistory {
    jobs: Vec<ServedJob>,
    lines: Vec<HistoryLine>,
}

impl Model for ServedHistory {
    ghost use Rattle.case_text.specs.Histories.{History};

    ghost Value = { History };

    ghost view = { λ h. record { jobs = h.jobs.items; lines = h.lines.items } };
}

impl ServedHistory {
    ghost use Rattle.std.specs.Prelude.{◌≡◌};

    /// These replies and this history, without a copy.
    pub fn new(jobs: Vec<ServedJob>, lines: Vec<HistoryLine>) -> ServedHistory
        ensures { result ≡ record { jobs = jobs.items; lines = lines.items } }
    {
        ServedHistory { jobs, lines }
    }

    /// The replies in the script's order.
    pub fn jobs(&self) -> &[ServedJob]
        ensures { result.now ≡ self.now.jobs }
    {
        &self.jobs
    }

    /// What happened, in order.
    pub fn lines(&self) -> &[HistoryLine]
        ensures { result.now ≡ self.now.lines }
    {
        &self.lines
    }
}

/// A line of the history.
fn put_history_line(out: &mut Vec<u8>, line: HistoryLine) -> Result<(), AllocError>
    ensures { OnOk result (out.new.items ≡ out.old.items ++ history_line_text line) }
{
    match line {
        HistoryLine::Submit { job, place } => {
            put_pair(out, b"submit ", u64::from(job), u64::from(place))
        }
        HistoryLine::Take(job) => put_line(out, b"take ", u64::from(job)),
        HistoryLine::Finish(job) => put_line(out, b"finish ", u64::from(job)),
        HistoryLine::Withdraw(job) => put_line(out, b"withdraw ", u64::from(job)),
    }
}

/// The lines of the history.
fn put_history_lines(out: &mut Vec<u8>, lines: &[HistoryLine]) -> Result<(), AllocError>
    ensures { OnOk result (out.new.items ≡ out.old.items ++ history_lines lines.now) }
{
    for line in lines {
        put_history_line(out, *line)?;
    }
    Ok(())
}

/// How many of the jobs were withdrawn.
fn withdrawn_count(lines: &[HistoryLine]) -> u64
    ensures { result ≡ withdrawn_count lines.now }
{
    let mut count: u64 = 0;
    for line in lines {
        if line.is_withdrawal() {
            count += 1;
        }
    }
    count
}

/// The line on all jobs of a script, some of which were withdrawn.
fn put_history_summary(
    out: &mut Vec<u8>,
    jobs: u64,
    proved: u64,
    withdrawn: u64,
) -> Result<(), AllocError>
    ensures { OnOk result (out.new.items
        ≡ out.old.items ++ history_summary_text jobs proved withdrawn) }
{
    out.extend_from_slice(b"jobs ")?;
    put_number(out, jobs, b' ')?;
    out.extend_from_slice(b"proved ")?;
    put_number(out, proved, b' ')?;
    out.extend_from_slice(b"refused ")?;
    let refused = jobs.saturating_sub(proved).saturating_sub(withdrawn);
    put_number(out, refused, b' ')?;
    put_line(out, b"withdrawn ", withdrawn)
}

/// The replies to the jobs of a script, in its order, a line on all of them, and the lines of the history. The error comes
/// where memory runs out.
pub fn write_history(alloc: Global, history: &ServedHistory) -> Result<Vec<u8>, AllocError>
    ensures { IfOk result (λ text. text.items ≡ history_text history.now) }
{
    let jobs = history.jobs();
    let lines = history.lines();
    let mut out = Vec::new(alloc);
    put_served_lines(&mut out, jobs)?;
    put_history_summary(
        &mut out,
        jobs.len() as u64,
        proved_count(jobs),
        withdrawn_count(lines),
    )?;
    put_line(&mut out, b"history ", lines.len() as u64)?;
    put_history_lines(&mut out, lines)?;
    Ok(out)
}
