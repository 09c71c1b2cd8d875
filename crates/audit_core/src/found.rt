//! What is found in a proof.

ghost use Rattle.std.specs.Prelude.{◌≡◌, ◌+◌, ◌↔◌, ℕ, List, [], length, slice_index_or, IsTrue};
ghost use Rattle.field_ext.specs.Field.{K, zero_k};
ghost use Rattle.audit_core.specs.Found.{IsFoundBelow};

use field_ext::Ext;
use poly_roots::value_at;

/// The first message that isn't the true one, and the first that has the true one's value at the challenge after it none
/// the less. Messages count from 0.
#[derive(Clone, Copy)]
pub(crate) struct Found {
    pub(crate) message: Option<usize>,
    pub(crate) challenge: Option<usize>,
}

impl Found {
    /// Nothing.
    pub(crate) fn nothing() -> Found
        ensures { (qs ts : List (List K)) (rs : List K) → IsFoundBelow qs ts rs 0 result }
    {
        Found {
            message: None,
            challenge: None,
        }
    }

    /// The same after one more message, the true one in its place, and the challenge after it.
    pub(crate) fn with(self, number: usize, message: &[Ext], truth: &[Ext], challenge: Ext) -> Found
        requires { length truth.now ≡ length message.now }
        ensures { (qs ts : List (List K)) (rs : List K) → IsFoundBelow qs ts rs number self
            → slice_index_or qs number [] ≡ message.now → slice_index_or ts number [] ≡ truth.now
            → slice_index_or rs number zero_k ≡ challenge
            → IsFoundBelow qs ts rs (number + 1) result }
    {
        if are_equal(message, truth) {
            return self;
        }
        let value = value_at(message, challenge);
        Found {
            message: self.message.or(Some(number)),
            challenge: if value.equals(value_at(truth, challenge)) {
                self.challenge.or(Some(number))
            } else {
                self.challenge
            },
        }
    }
}

/// Whether two messages of as many coefficients are the same.
fn are_equal(message: &[Ext], truth: &[Ext]) -> bool
    requires { length truth.now ≡ length message.now }
    ensures { IsTrue result ↔ (message.now ≡ truth.now) }
{
    for i in 0..message.len() {
        if !message[i].equals(truth[i]) {
            return false;
        }
    }
    true
}
