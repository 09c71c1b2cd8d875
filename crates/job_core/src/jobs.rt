//! The jobs, and the steps that they take.

ghost use Rattle.std.specs.Prelude.{◌≡◌, ℕ, ◌<◌, ◌≤◌, ◌^◌, true, false, [], length, Some, IfOk, MatchResult, MatchOption, slice_get};
ghost use Rattle.job_core.specs.declared.entry.Entry.TheVariants.{Submit, Take, Finish, Withdraw};
ghost use Rattle.job_core.specs.JobMachine.{is_step, after, before_queued, AreNotQueued, Steps};

use crate::entry::{Entry, JobState};
use std::alloc::{AllocError, Global};
use std::marker::Model;

/// The machine has no such step.
#[derive(Drop)]
pub struct NoStep;

/// At most `capacity` jobs. Contracts see the capacity and the state of each job.
#[derive(Drop)]
pub struct Jobs {
    jobs: Vec<JobState>,
    capacity: u32,
    // The first queued job, or how many jobs there are where none is queued.
    first: u32,
}

impl Model for Jobs {
    ghost use Rattle.std.specs.Prelude.{◌≡◌, ℕ, List, ◌≤◌, vec_len, vec_capacity};
    ghost use Rattle.job_core.specs.declared.entry.JobState.{JobState};
    ghost use Rattle.job_core.specs.JobMachine.{before_queued};

    ghost Value = { ℕ × List JobState };

    ghost view = { λ j. (j.capacity, j.jobs.items) };

    ghost invariant = { λ j. (vec_len j.jobs ≤ j.capacity) × (j.capacity ≤ vec_capacity j.jobs)
        × (j.first ≡ before_queued j.jobs.items) };
}

/// The first queued job from this one on, or how many jobs there are. None before it is queued.
fn first_from(jobs: &[JobState], from: u32) -> u32
    requires before { AreNotQueued jobs.now from }
    requires within { (from ≤ length jobs.now) × (length jobs.now < 2 ^ 32) }
    ensures { result ≡ before_queued jobs.now }
{
    let count = jobs.len() as u32;
    for job in from..count {
        if jobs[job as usize].is_queued() {
            return job;
        }
    }
    count
}

impl Jobs {
    /// Takes all the capacity that the steps will need.
    pub fn new(alloc: Global, capacity: u32) -> Result<Jobs, AllocError>
        ensures { IfOk result (λ j. j ≡ (capacity, [])) }
    {
        let jobs = Vec::with_capacity(alloc, capacity as usize)?;
        Ok(Jobs {
            jobs,
            capacity,
            first: 0,
        })
    }

    /// How many jobs were ever submitted.
    pub fn len(&self) -> u32
        ensures count { result ≡ length self.now.1 }
        ensures within { result ≤ self.now.0 }
    {
        let _capacity = self.capacity;
        self.jobs.len() as u32
    }

    /// The state of a job that was submitted.
    pub fn state(&self, job: u32) -> JobState
        requires { job < length self.now.1 }
        ensures { slice_get self.now.1 job ≡ Some result }
    {
        self.jobs[job as usize]
    }

    /// The queued job of least number. It is kept at each step, so that nothing is searched here.
    pub fn first_queued(&self) -> Option<u32>
        ensures { MatchOption result (before_queued self.now.1 ≡ length self.now.1)
            (λ k. (k ≡ before_queued self.now.1) × (k < length self.now.1)) }
    {
        if (self.first as usize) < self.jobs.len() {
            Some(self.first)
        } else {
            None
        }
    }

    /// Makes the step, or refuses an entry that is none, which changes nothing.
    pub fn step(&mut self, entry: Entry) -> Result<(), NoStep>
        ensures { Steps self.old entry self.new result }
    {
        match entry {
            Entry::Submit(job) => self.submit(job),
            Entry::Take(job) => self.take(job),
            Entry::Finish(job) => self.finish(job),
            Entry::Withdraw(job) => self.withdraw(job),
        }
    }

    fn submit(&mut self, job: u32) -> Result<(), NoStep>
        ensures { Steps self.old (Submit job) self.new result }
    {
        if job as usize != self.jobs.len() || job >= self.capacity {
            return Err(NoStep);
        }
        self.jobs.push_reserved(JobState::Queued);
        Ok(())
    }

    fn take(&mut self, job: u32) -> Result<(), NoStep>
        ensures { Steps self.old (Take job) self.new result }
    {
        if self.first_queued() != Some(job) {
            return Err(NoStep);
        }
        self.jobs[job as usize] = JobState::Running;
        self.first = first_from(&self.jobs, self.first);
        Ok(())
    }

    fn finish(&mut self, job: u32) -> Result<(), NoStep>
        ensures { Steps self.old (Finish job) self.new result }
    {
        let Some(JobState::Running) = self.jobs.get(job as usize) else {
            return Err(NoStep);
        };
        self.jobs[job as usize] = JobState::Done;
        Ok(())
    }

    fn withdraw(&mut self, job: u32) -> Result<(), NoStep>
        ensures { Steps self.old (Withdraw job) self.new result }
    {
        let Some(JobState::Queued) = self.jobs.get(job as usize) else {
            return Err(NoStep);
        };
        self.jobs[job as usize] = JobState::Withdrawn;
        self.first = first_from(&self.jobs, self.first);
        Ok(())
    }
}
