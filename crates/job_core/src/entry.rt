//! What happens to a job, and the state that it is in.

ghost use Rattle.std.specs.Prelude.{◌≡◌};
ghost use Rattle.job_core.specs.JobMachine.{is_queued};

/// A step of the machine, with the number of its job.
#[derive(Clone, Copy, Drop)]
pub enum Entry {
    Submit(u32),
    Take(u32),
    Finish(u32),
    Withdraw(u32),
}

/// The state that a job is in.
#[derive(Clone, Copy, Drop)]
pub enum JobState {
    Queued,
    Running,
    Done,
    Withdrawn,
}

impl JobState {
    pub(crate) fn is_queued(&self) -> bool
        ensures { result ≡ is_queued self.now }
    {
        match *self {
            JobState::Queued => true,
            _ => false,
        }
    }
}
