//! The field of p elements.

ghost use Rattle.std.specs.Prelude.{◌≡◌, ◌<◌, ◌*◌, ◌^◌, IfSome, IsSome, ◌↔◌};
ghost use Rattle.field_ext.specs.Field.{prime, F, of, add_f, mul_f, neg_f, sub_f};

use std::marker::Model;
use std::ops::{Add, Mul, Neg, Sub};

/// The prime `p = 2^31 - 1`.
pub const PRIME: u32 = 2147483647;

/// The prime as the mask of the lowest 31 bits.
const MASK: u64 = 2147483647;

/// An element of F_p: a number below the prime.
#[derive(Clone, Copy, Debug, PartialEq, Eq)]
pub struct Fp {
    n: u32,
    ghost below: { n < prime },
}

impl Model for Fp {
    ghost Value = { F };

    ghost view = { λ a. record { value = a.n; below = a.below } };

    ghost inverse = { λ a. record { n = a.value; below = a.below } };
}

impl Fp {
    /// The element `n`; None exactly where `n` is at or above the prime.
    #[inline]
    pub fn of(n: u32) -> Option<Fp>
        ensures some { IsSome result ↔ (n < prime) }
        ensures value { IfSome result (λ x. x.value ≡ n) }
    {
        if n < PRIME { Some(Fp { n }) } else { None }
    }

    /// The number of the element, below the prime.
    #[inline]
    pub fn value(self) -> u32
        ensures { result ≡ self.value }
    {
        self.n
    }

    /// The number `n` modulo the prime, for every `n`.
    #[inline]
    pub fn reduce(n: u64) -> Fp
        ensures { result ≡ of n }
    {
        let once = (n & MASK) + (n >> 31);
        let twice = (once & MASK) + (once >> 31);
        Fp::reduced(twice as u32)
    }

    /// The element 0.
    #[inline]
    pub fn zero() -> Fp
        ensures { result ≡ of 0 }
    {
        Fp::made(0)
    }

    /// The element 1.
    #[inline]
    pub fn one() -> Fp
        ensures { result ≡ of 1 }
    {
        Fp::made(1)
    }

    /// The sum.
    #[inline]
    pub fn add(self, other: Fp) -> Fp
        ensures { result ≡ add_f self other }
    {
        Fp::reduced(self.n + other.n)
    }

    /// The element that gives 0 when it is added.
    #[inline]
    pub fn neg(self) -> Fp
        ensures { result ≡ neg_f self }
    {
        Fp::reduced(PRIME - self.n)
    }

    /// The difference.
    #[inline]
    pub fn sub(self, other: Fp) -> Fp
        ensures { result ≡ sub_f self other }
    {
        let difference = self.n.wrapping_sub(other.n);
        Fp::made(difference.min(difference.wrapping_add(PRIME)))
    }

    /// The product.
    #[inline]
    pub fn mul(self, other: Fp) -> Fp
        ensures { result ≡ mul_f self other }
    {
        let product = self.n as u64 * other.n as u64;
        Fp::reduced((product & MASK) as u32 + (product >> 31) as u32)
    }

    /// A number below 2 p 2^31, which holds a sum of two products of numbers up to p, modulo the prime.
    #[inline]
    pub(crate) fn of_products(n: u64) -> Fp
        requires { n < 2 * prime * 2 ^ 31 }
        ensures { result ≡ of n }
    {
        let high = (n >> 31) as u32;
        let high = high.min(high.wrapping_sub(PRIME));
        Fp::reduced((n & MASK) as u32 + high)
    }

    /// The element of a number below the prime.
    #[inline]
    fn made(n: u32) -> Fp
        requires { n < prime }
        ensures { result ≡ of n }
    {
        Fp { n }
    }

    /// The element of a number below twice the prime: where it is below the prime the difference wraps, and is the larger.
    #[inline]
    fn reduced(n: u32) -> Fp
        requires { n < 2 * prime }
        ensures { result ≡ of n }
    {
        Fp::made(n.min(n.wrapping_sub(PRIME)))
    }
}

impl Add for Fp {
    type Output = Fp;

    ghost add_gives = { λ a b sum. sum ≡ add_f a b };

    #[inline]
    fn add(self, other: Fp) -> Fp {
        Fp::add(self, other)
    }
}

impl Sub for Fp {
    type Output = Fp;

    ghost sub_gives = { λ a b difference. difference ≡ sub_f a b };

    #[inline]
    fn sub(self, other: Fp) -> Fp {
        Fp::sub(self, other)
    }
}

impl Mul for Fp {
    type Output = Fp;

    ghost mul_gives = { λ a b product. product ≡ mul_f a b };

    #[inline]
    fn mul(self, other: Fp) -> Fp {
        Fp::mul(self, other)
    }
}

impl Neg for Fp {
    type Output = Fp;

    ghost neg_gives = { λ a opposite. opposite ≡ neg_f a };

    #[inline]
    fn neg(self) -> Fp {
        Fp::neg(self)
    }
}
