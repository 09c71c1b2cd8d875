//! The kinds of proofs.

ghost use Rattle.std.specs.Prelude.{◌≡◌};
ghost use Rattle.proof_two.specs.Kinds.{form_in};

use proof_wire::ProofForm;

/// How a proof by lines is written.
#[derive(Clone, Copy, Debug, PartialEq, Eq)]
pub enum ProofVersion {
    /// With all coefficients of each round.
    One,
    /// Without the middle ones.
    Two,
}

/// What is written as a proof: messages by lines in a version, or messages by pairs.
#[derive(Clone, Copy, Debug, PartialEq, Eq)]
pub enum ProofKind {
    ByLines(ProofVersion),
    ByPairs,
}

impl ProofKind {
    /// The form of its messages.
    pub fn form(self) -> ProofForm
        ensures { result ≡ form_in self }
    {
        match self {
            ProofKind::ByLines(_) => ProofForm::Line,
            ProofKind::ByPairs => ProofForm::Pair,
        }
    }
}
