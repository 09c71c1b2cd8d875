//! Why bytes are no case, or no script of cases.

ghost use Rattle.std.specs.Prelude.{◌≡◌, length};
ghost use Rattle.case_text.specs.Reading.{refusal_of};

use text_parts::{DueKind, ReadError};
use thiserror::Error;

/// A refusal of bytes that are no text.
#[derive(Clone, Copy, Debug, PartialEq, Eq)]
pub struct BadCase {
    /// How many bytes the due parts take: the place of the first byte that isn't taken.
    pub at: usize,
    /// What was due there.
    pub kind: DueKind,
}

/// Why a case or a script can't be read.
#[derive(Clone, Copy, Debug, PartialEq, Eq, Error)]
pub enum CaseRefused {
    /// The bytes are no text of the form.
    #[error("refused at byte {}", .0.at)]
    Bad(BadCase),
    /// Memory ran out.
    #[error("out of memory")]
    Memory,
}

/// The refusal of the bytes whose reading ended so: the place is how many were taken.
pub fn refusal_of(error: ReadError, bytes: &[u8]) -> CaseRefused
    ensures { result ≡ refusal_of (length bytes.now) error }
{
    match error {
        ReadError::Memory => CaseRefused::Memory,
        ReadError::Stopped(stop) => CaseRefused::Bad(BadCase {
            at: stop.place(bytes),
            kind: stop.kind,
        }),
    }
}
