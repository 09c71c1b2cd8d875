//! Why bytes are no proof.

use std::alloc::{AllocError, AllocFailed};

/// What is wrong with bytes that should be a proof: the first trouble from the beginning.
#[derive(Clone, Copy, Debug, PartialEq, Eq)]
pub enum BadProof {
    /// The byte at `at` is there, and is not that of the form's first four.
    Magic { at: usize },
    /// The bytes end, at `at`, before they have `need` bytes.
    Short { at: usize, need: u64 },
    /// The coefficient that begins at the byte `at` has a half at or above the field's prime.
    Range { at: usize },
    /// So many bytes come after the last coefficient.
    Long { extra: usize },
}

/// Why bytes were not decoded.
#[derive(Clone, Copy, Debug, PartialEq, Eq)]
pub enum ProofRefused {
    /// They are no proof of the shape.
    Bad(BadProof),
    /// No memory is left.
    Memory,
}

impl From<AllocError> for ProofRefused {
    ghost use Rattle.std.specs.Prelude.{◌≡◌};
    ghost use Rattle.proof_wire.specs.declared.refused.ProofRefused.TheVariants.{Memory};

    ghost from_gives = { λ _ e. e ≡ Memory };

    fn from(_: AllocError) -> ProofRefused {
        ProofRefused::Memory
    }
}

impl<T: Drop> From<AllocFailed<T>> for ProofRefused {
    ghost use Rattle.std.specs.Prelude.{◌≡◌};
    ghost use Rattle.proof_wire.specs.declared.refused.ProofRefused.TheVariants.{Memory};

    ghost from_gives = { λ _ e. e ≡ Memory };

    fn from(_: AllocFailed<T>) -> ProofRefused {
        ProofRefused::Memory
    }
}
