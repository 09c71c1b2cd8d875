//! The decimals of a case: their limits, and what comes after them.

ghost use Rattle.std.specs.Prelude.{◌≡◌};
ghost use Rattle.case_text.specs.Rules.{proof_length, text_length, value_count, value_rule};

use text_parts::{DueKind, Rule};

/// The length of a program.
pub(crate) fn text_length() -> Rule
    ensures { result ≡ text_length }
{
    Rule {
        limit: 65_537,
        over: DueKind::Length,
        after_zero: b'\n',
        after_other: b'\n',
    }
}

/// The length of a proof.
pub(crate) fn proof_length() -> Rule
    ensures { result ≡ proof_length }
{
    Rule {
        limit: 2_000_001,
        over: DueKind::Length,
        after_zero: b'\n',
        after_other: b'\n',
    }
}

/// How many values are on a line.
pub(crate) fn value_count() -> Rule
    ensures { result ≡ value_count }
{
    Rule {
        limit: 262_145,
        over: DueKind::Length,
        after_zero: b'\n',
        after_other: b' ',
    }
}

/// A value that this many follow.
pub(crate) fn value_rule(following: u32) -> Rule
    ensures { result ≡ value_rule following }
{
    let after = if following == 0 { b'\n' } else { b' ' };
    Rule {
        limit: 2_147_483_647,
        over: DueKind::Range,
        after_zero: after,
        after_other: after,
    }
}
