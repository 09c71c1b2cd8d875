//! Elements by numbers.

use field_ext::{Ext, Fp};

/// The prime.
pub(crate) const P: u64 = 2147483647;

/// The element `re + im i` of numbers modulo the prime.
pub(crate) fn element(re: u64, im: u64) -> Ext {
    Ext::of(Fp::reduce(re), Fp::reduce(im))
}

/// The element of a number modulo the prime.
pub(crate) fn number(n: u64) -> Ext {
    element(n, 0)
}
