//! A list of challenges as a source of them.

ghost use Rattle.std.specs.Prelude.{◌≡◌};
ghost use Rattle.transcript_fs.specs.Given.{numbers_of, given};

use crate::challenges::Challenges;
use field_ext::Ext;
use std::marker::Model;

/// Hands out the challenges of a list, and takes in nothing. Contracts see those that are left.
#[derive(Drop)]
pub struct Given {
    challenges: Vec<Ext>,
    next: usize,
}

impl Model for Given {
    ghost use Rattle.std.specs.Prelude.{◌≤◌, List, drop, vec_len};
    ghost use Rattle.field_ext.specs.Field.{K};

    ghost Value = { List K };

    ghost view = { λ g. drop g.next g.challenges.items };

    ghost invariant = { λ g. g.next ≤ vec_len g.challenges };
}

impl Given {
    /// A source of these challenges.
    pub fn of(challenges: Vec<Ext>) -> Given
        ensures { result ≡ challenges.items }
    {
        Given {
            challenges,
            next: 0,
        }
    }
}

impl Challenges for Given {
    ghost source = { given };

    ghost state = { λ left. numbers_of left };

    fn absorb(&mut self, _message: &[Ext]) {}

    fn challenge(&mut self) -> Ext {
        let challenge = self.challenges[self.next];
        self.next += 1;
        challenge
    }

    fn has(&self, n: usize) -> bool {
        n <= self.challenges.len() - self.next
    }
}
