//! The Fiat-Shamir transcript.

ghost use Rattle.std.specs.Prelude.{◌≡◌};
ghost use Rattle.transcript_fs.specs.Transcript.{named_state, pair_start_state, start_state, transcript};

use crate::challenges::Challenges;
use crate::drawing::leading_element;
use crate::feeding::{feed_elements, feed_statement};
use crate::statement::Statement;
use field_ext::Ext;
use sha2::{Digest, Sha256};
use std::marker::Model;

/// The Fiat-Shamir transcript: challenges that are hashes of the statement and of all messages before them. There
/// are always more of them. Contracts see its state, the last hash.
#[derive(Clone, Copy)]
pub struct Transcript {
    state: [u8; 32],
}

impl Model for Transcript {
    ghost use Rattle.std.specs.Prelude.{ℕ, List};

    ghost Value = { List ℕ };

    ghost view = { λ t. t.state };

    ghost inverse = { λ state. record { state = state } };
}

impl Transcript {
    /// The transcript of a proof by lines that has taken in the statement alone.
    pub fn start(statement: &Statement) -> Transcript
        ensures { result ≡ start_state statement.now.text statement.now.inputs
            statement.now.outputs }
    {
        Transcript::start_named(b"gkr-transcript-1".as_slice(), statement)
    }

    /// The transcript of a proof by pairs that has taken in the statement alone.
    pub fn start_pair(statement: &Statement) -> Transcript
        ensures { result ≡ pair_start_state statement.now.text statement.now.inputs
            statement.now.outputs }
    {
        Transcript::start_named(b"gkr-transcript-p".as_slice(), statement)
    }

    fn start_named(name: &[u8], statement: &Statement) -> Transcript
        ensures { result ≡ named_state name.now statement.now.text statement.now.inputs
            statement.now.outputs }
    {
        let mut hasher = Sha256::new();
        hasher.update(name);
        hasher.update(b"\n".as_slice());
        feed_statement(&mut hasher, statement);
        Transcript {
            state: hasher.finalize(),
        }
    }
}

impl Challenges for Transcript {
    ghost source = { transcript };

    ghost state = { λ state. state };

    fn absorb(&mut self, message: &[Ext]) {
        let mut hasher = Sha256::new();
        hasher.update(self.state.as_slice());
        hasher.update([1u8].as_slice());
        feed_elements(&mut hasher, message);
        self.state = hasher.finalize();
    }

    fn challenge(&mut self) -> Ext {
        let mut hasher = Sha256::new();
        hasher.update(self.state.as_slice());
        hasher.update([2u8].as_slice());
        self.state = hasher.finalize();
        leading_element(&self.state)
    }

    fn has(&self, _n: usize) -> bool {
        true
    }
}
