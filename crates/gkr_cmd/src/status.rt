//! How a run ends.

ghost use Rattle.std.specs.Prelude.{◌≡◌};
ghost use Rattle.gkr_cmd.specs.Replies.{status_of, code_of};

use case_text::{Reply, VerdictLine};

/// The status that a run ends with.
#[derive(Clone, Copy, Debug, PartialEq, Eq)]
pub enum Status {
    /// The command did what it was asked for.
    Done = 0,
    /// The proof fails an equation of acceptance.
    Rejected = 1,
    /// The words are no command.
    Usage = 2,
    /// The input is no text of a case, of a session or of a script.
    BadCase = 3,
    /// The case's program is refused, or its circuit is too large.
    BadProgram = 4,
    /// The case has another number of inputs or outputs than its program, or a session of words than of challenges.
    BadCount = 5,
    /// The proof's bytes spell no messages of the circuit's shape.
    BadProof = 6,
    /// The source failed; nothing is written.
    ReadFault = 7,
    /// The sink failed; a prefix of the reply may be written.
    WriteFault = 8,
    /// No memory was found; nothing is written.
    Memory = 9,
    /// The input is longer than a case may be.
    TooLong = 10,
}

impl Status {
    /// The status of a reply.
    pub fn of(reply: &Reply) -> Status
        ensures { result ≡ status_of reply.now }
    {
        match reply {
            Reply::Outputs(_)
            | Reply::Circuit(_)
            | Reply::Proved(_)
            | Reply::Demo(_)
            | Reply::Served(_)
            | Reply::History(_)
            | Reply::Audit(_)
            | Reply::Session(_)
            | Reply::Verdict(VerdictLine::Accepted) => Status::Done,
            Reply::Verdict(_) => Status::Rejected,
            Reply::Usage => Status::Usage,
            Reply::TooLong(_) => Status::TooLong,
            Reply::Case(_) => Status::BadCase,
            Reply::Program { .. } | Reply::Deep { .. } | Reply::Wide { .. } => Status::BadProgram,
            Reply::InputCount { .. } | Reply::OutputCount { .. } | Reply::WordCount { .. } => {
                Status::BadCount
            }
            Reply::Proof(_) => Status::BadProof,
        }
    }

    /// As a number.
    pub fn code(self) -> u8
        ensures { result ≡ code_of self }
    {
        self as u8
    }
}
