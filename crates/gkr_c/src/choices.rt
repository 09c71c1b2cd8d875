//! What the numbers of kinds and versions choose.

ghost use Rattle.std.specs.Prelude.{◌≡◌};
ghost use Rattle.gkr_c.specs.Choices.{kind_of, version_of};

use proof_two::{ProofKind, ProofVersion};

/// The version with this number.
pub(crate) fn version_of(number: u32) -> Option<ProofVersion>
    ensures { result ≡ version_of number }
{
    match number {
        1 => Some(ProofVersion::One),
        2 => Some(ProofVersion::Two),
        _ => None,
    }
}

/// The kind of proof with this number: 1 and 2 are by lines in that version, and 3 is by pairs.
pub(crate) fn kind_of(number: u32) -> Option<ProofKind>
    ensures { result ≡ kind_of number }
{
    match number {
        1 => Some(ProofKind::ByLines(ProofVersion::One)),
        2 => Some(ProofKind::ByLines(ProofVersion::Two)),
        3 => Some(ProofKind::ByPairs),
        _ => None,
    }
}
