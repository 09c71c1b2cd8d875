//! What an end of a session answers to bytes.

use gkr_layers::Verdict;
use std::alloc::AllocError;

/// How far a verifier has come.
#[derive(Clone, Copy, Debug, PartialEq, Eq)]
pub enum Progress {
    /// Some message isn't whole yet.
    Waiting,
    /// All messages were fed, and this is the verdict on them.
    Ended(Verdict),
}

/// What is wrong with bytes that were fed, by the place of the first byte concerned, from 0 over all feeds.
#[derive(Clone, Copy, Debug, PartialEq, Eq)]
pub enum LiveFault {
    /// The element that begins there has a half at or above the field's prime.
    Range { at: usize },
    /// There is a byte after all that is due.
    Extra { at: usize },
}

/// Why a prover stopped, which is then given up.
#[derive(Clone, Copy, Debug, PartialEq, Eq)]
pub enum ProverStop {
    /// The challenge that begins there has a half at or above the field's prime, or the last byte, there, is neither 0 nor 1.
    Range { at: usize },
    /// There is a byte after all that is due.
    Extra { at: usize },
    /// No memory is left.
    Memory,
}

impl From<AllocError> for ProverStop {
    ghost use Rattle.std.specs.Prelude.{◌≡◌};
    ghost use Rattle.live_session.specs.declared.progress.ProverStop.TheVariants.{Memory};

    ghost from_gives = { λ _ e. e ≡ Memory };

    fn from(_: AllocError) -> ProverStop {
        ProverStop::Memory
    }
}

impl From<LiveFault> for ProverStop {
    ghost use Rattle.std.specs.Prelude.{Some};
    ghost use Rattle.live_session.specs.Stops.{IsStopFor};

    ghost from_gives = { λ fault stop. IsStopFor (Some fault) stop };

    fn from(fault: LiveFault) -> ProverStop {
        match fault {
            LiveFault::Range { at } => ProverStop::Range { at },
            LiveFault::Extra { at } => ProverStop::Extra { at },
        }
    }
}
