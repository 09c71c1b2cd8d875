//! Why there is no session on a case.

ghost use Rattle.std.specs.Prelude.{◌≡◌};
ghost use Rattle.case_prove.specs.declared.refused.Refused.TheVariants as refusals;
ghost use Rattle.session_prove.specs.declared.refused.SessionRefused.TheVariants.{Case};

use case_prove::Refused;
use std::alloc::AllocError;

/// Why there is no session on a case.
#[derive(Clone, Copy, PartialEq, Eq, Debug)]
pub enum SessionRefused {
    /// The case's program or its number of inputs is refused, or memory ran out.
    Case(Refused),
    /// The number of words isn't twice that of the challenges.
    Words { have: u64, need: u64 },
}

impl From<AllocError> for SessionRefused {
    ghost from_gives = { λ _ e. e ≡ Case refusals.Memory };

    fn from(_: AllocError) -> SessionRefused {
        SessionRefused::Case(Refused::Memory)
    }
}
