//! A case with the words of a session.

use case_text::Case;
use field_ext::Fp;
use std::marker::Model;

/// A case, and the words of a session on it: the real and the imaginary part of each challenge.
#[derive(Debug, Drop)]
pub struct SessionCase {
    case: Case,
    words: Vec<Fp>,
}

impl Model for SessionCase {
    ghost use Rattle.session_text.specs.Sessions.{SessionContent};

    ghost Value = { SessionContent };

    ghost view = { λ s. record { case = s.case; words = s.words.items } };
}

impl SessionCase {
    ghost use Rattle.std.specs.Prelude.{◌≡◌};

    /// A case with these words, without a copy.
    pub fn new(case: Case, words: Vec<Fp>) -> SessionCase
        ensures { result ≡ record { case = case; words = words.items } }
    {
        SessionCase { case, words }
    }

    /// The case, of the form Plain.
    pub fn case(&self) -> &Case
        ensures { result.now ≡ self.now.case }
    {
        &self.case
    }

    /// The words, in the order of their line.
    pub fn words(&self) -> &[Fp]
        ensures { result.now ≡ self.now.words }
    {
        &self.words
    }
}
