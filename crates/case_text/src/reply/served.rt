//! What is answered to the jobs of a script.

ghost use Rattle.std.specs.Prelude.{◌≡◌, ◌++◌, IfOk, OnOk};
ghost use Rattle.case_text.specs.Served.{proved_count};
ghost use Rattle.case_text.specs.Replies.{served_lines, summary_text, served_text};

use crate::case::writing::put_number;
use crate::reply::put_line;
use std::alloc::{AllocError, Global};
use std::marker::Model;

/// The reply to a job: its client's number, whether its case was proved, and the lines of the reply.
#[derive(Debug, Drop)]
pub struct ServedJob {
    client: u32,
    proved: bool,
    text: Vec<u8>,
}

impl Model for ServedJob {
    ghost use Rattle.case_text.specs.Served.{Served};

    ghost Value = { Served };

    ghost view = { λ j. record { client = j.client; proved = j.proved; text = j.text.items } };
}

impl ServedJob {
    ghost use Rattle.std.specs.Prelude.{◌≡◌, IfOk};
    ghost use Rattle.case_text.specs.Served.{withdrawn_job};

    /// The reply to a job of this client, without a copy.
    pub fn new(client: u32, proved: bool, text: Vec<u8>) -> ServedJob
        ensures { result ≡ record { client = client; proved = proved; text = text.items } }
    {
        ServedJob {
            client,
            proved,
            text,
        }
    }

    /// The reply to a job that this client withdrew.
    pub fn withdrawn(alloc: Global, client: u32) -> Result<ServedJob, AllocError>
        ensures { IfOk result (λ job. job ≡ withdrawn_job client) }
    {
        let mut text = Vec::new(alloc);
        text.extend_from_slice(b"withdrawn\n")?;
        Ok(ServedJob::new(client, false, text))
    }

    /// The number of the client.
    pub fn client(&self) -> u32
        ensures { result ≡ self.now.client }
    {
        self.client
    }

    /// Whether the job's case was proved.
    pub fn proved(&self) -> bool
        ensures { result ≡ self.now.proved }
    {
        self.proved
    }

    /// The lines of the reply, each with its LF.
    pub fn text(&self) -> &[u8]
        ensures { result.now ≡ self.now.text }
    {
        &self.text
    }
}

/// The replies to the jobs of a script, which contracts see as their list.
#[derive(Debug, Drop)]
pub struct ServedJobs {
    items: Vec<ServedJob>,
}

impl Model for ServedJobs {
    ghost use Rattle.std.specs.Prelude.{List};
    ghost use Rattle.case_text.specs.Served.{Served};

    ghost Value = { List Served };

    ghost view = { λ v. v.items.items };
}

impl ServedJobs {
    ghost use Rattle.std.specs.Prelude.{◌≡◌};

    /// These replies, without a copy.
    pub fn new(items: Vec<ServedJob>) -> ServedJobs
        ensures { result ≡ items.items }
    {
        ServedJobs { items }
    }

    /// The replies in the script's order.
    pub fn as_slice(&self) -> &[ServedJob]
        ensures { result.now ≡ self.now }
    {
        &self.items
    }
}

/// The lines of a script's jobs.
pub(crate) fn put_served_lines(out: &mut Vec<u8>, jobs: &[ServedJob]) -> Result<(), AllocError>
    ensures { OnOk result (out.new.items ≡ out.old.items ++ served_lines jobs.now) }
{
    for job in jobs {
        put_line(out, b"client ", u64::from(job.client()))?;
        out.extend_from_slice(job.text())?;
    }
    Ok(())
}

/// How many of the cases were proved.
pub(crate) fn proved_count(jobs: &[ServedJob]) -> u64
    ensures { result ≡ proved_count jobs.now }
{
    let mut count: u64 = 0;
    for job in jobs {
        if job.proved() {
            count += 1;
        }
    }
    count
}

/// The line on all jobs of a script.
fn put_summary(out: &mut Vec<u8>, jobs: u64, proved: u64) -> Result<(), AllocError>
    ensures { OnOk result (out.new.items ≡ out.old.items ++ summary_text jobs proved) }
{
    out.extend_from_slice(b"jobs ")?;
    put_number(out, jobs, b' ')?;
    out.extend_from_slice(b"proved ")?;
    put_number(out, proved, b' ')?;
    put_line(out, b"refused ", jobs.saturating_sub(proved))
}

/// The replies to the jobs of a script, in its order, and a line on all of them. The error comes where memory runs out.
pub fn write_served(alloc: Global, jobs: &[ServedJob]) -> Result<Vec<u8>, AllocError>
    ensures { IfOk result (λ text. text.items ≡ served_text jobs.now) }
{
    let mut out = Vec::new(alloc);
    put_served_lines(&mut out, jobs)?;
    put_summary(&mut out, jobs.len() as u64, proved_count(jobs))?;
    Ok(out)
}
