//! Which numbers a decimal may have, and what comes after it.

use crate::due::DueKind;

/// A decimal below `limit`. A digit that takes it there is refused as `over`. After 0 comes `after_zero`, and after
/// any other number `after_other`.
#[derive(Clone, Copy, Debug, PartialEq, Eq)]
pub struct Rule {
    pub limit: u32,
    pub over: DueKind,
    pub after_zero: u8,
    pub after_other: u8,
}
