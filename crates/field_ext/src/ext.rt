//! The extension by a root of -1.

ghost use Rattle.std.specs.Prelude.{◌≡◌, ◌<◌, IfSome, IsSome, IsTrue, ◌↔◌};
ghost use Rattle.field_ext.specs.Field.{prime, K, add_k, sub_k, neg_k, mul_k, zero_k, one_k, embed_k, same_k};
ghost use Rattle.field_ext.specs.Bytes.{bytes_of, real_half, imaginary_half};

use crate::fp::{Fp, PRIME};
use std::marker::Model;
use std::ops::{Add, Mul, Neg, Sub};

/// An element `re + im i` of K, where `i` times `i` is -1.
#[derive(Clone, Copy, Debug, PartialEq, Eq)]
pub struct Ext {
    re: Fp,
    im: Fp,
}

impl Model for Ext {
    ghost Value = { K };

    ghost view = { λ a. record { re = a.re; im = a.im } };

    ghost inverse = { λ a. record { re = a.re; im = a.im } };
}

impl Ext {
    /// The element `re + im i`.
    #[inline]
    pub fn of(re: Fp, im: Fp) -> Ext
        ensures { result ≡ record { re = re; im = im } }
    {
        Ext { re, im }
    }

    /// The element of F_p as one of K.
    #[inline]
    pub fn embed(re: Fp) -> Ext
        ensures { result ≡ embed_k re }
    {
        Ext { re, im: Fp::zero() }
    }

    /// The part without `i`.
    #[inline]
    pub fn re(self) -> Fp
        ensures { result ≡ self.re }
    {
        self.re
    }

    /// The factor of `i`.
    #[inline]
    pub fn im(self) -> Fp
        ensures { result ≡ self.im }
    {
        self.im
    }

    /// The element 0.
    #[inline]
    pub fn zero() -> Ext
        ensures { result ≡ zero_k }
    {
        Ext {
            re: Fp::zero(),
            im: Fp::zero(),
        }
    }

    /// The element 1.
    #[inline]
    pub fn one() -> Ext
        ensures { result ≡ one_k }
    {
        Ext {
            re: Fp::one(),
            im: Fp::zero(),
        }
    }

    /// The sum.
    #[inline]
    pub fn add(self, other: Ext) -> Ext
        ensures { result ≡ add_k self other }
    {
        Ext {
            re: self.re + other.re,
            im: self.im + other.im,
        }
    }

    /// The difference.
    #[inline]
    pub fn sub(self, other: Ext) -> Ext
        ensures { result ≡ sub_k self other }
    {
        Ext {
            re: self.re - other.re,
            im: self.im - other.im,
        }
    }

    /// The element that gives 0 when it is added.
    #[inline]
    pub fn neg(self) -> Ext
        ensures { result ≡ neg_k self }
    {
        Ext {
            re: -self.re,
            im: -self.im,
        }
    }

    /// The product, `(a c - b d) + (a d + b c) i` for `a + b i` and `c + d i`.
    #[inline]
    pub fn mul(self, other: Ext) -> Ext
        ensures { result ≡ mul_k self other }
    {
        let (a, b) = (self.re.value() as u64, self.im.value() as u64);
        let (c, d) = (other.re.value() as u64, other.im.value() as u64);
        Ext {
            re: Fp::of_products(a * c + b * (PRIME as u64 - d)),
            im: Fp::of_products(a * d + b * c),
        }
    }

    /// Whether the elements are equal.
    #[inline]
    pub fn equals(self, other: Ext) -> bool
        ensures computed { result ≡ same_k self other }
        ensures equal { IsTrue result ↔ (self ≡ other) }
    {
        self.re.value() == other.re.value() && self.im.value() == other.im.value()
    }

    /// The bytes of the element: the part without `i` and then the factor of `i`, four bytes each, the lowest first.
    pub fn to_bytes(&self) -> [u8; 8]
        ensures { result ≡ bytes_of self.now }
    {
        let re = self.re.value().to_le_bytes();
        let im = self.im.value().to_le_bytes();
        [re[0], re[1], re[2], re[3], im[0], im[1], im[2], im[3]]
    }

    /// The element of these bytes; None exactly where a half is a number at or above the prime.
    pub fn from_bytes(bytes: &[u8; 8]) -> Option<Ext>
        ensures some { IsSome result
            ↔ ((real_half bytes.now < prime) × (imaginary_half bytes.now < prime)) }
        ensures value { IfSome result (λ x. bytes_of x ≡ bytes.now) }
    {
        let re = Fp::of(u32::from_le_bytes([bytes[0], bytes[1], bytes[2], bytes[3]]))?;
        let im = Fp::of(u32::from_le_bytes([bytes[4], bytes[5], bytes[6], bytes[7]]))?;
        Some(Ext { re, im })
    }
}

impl Add for Ext {
    type Output = Ext;

    ghost add_gives = { λ x y sum. sum ≡ add_k x y };

    #[inline]
    fn add(self, other: Ext) -> Ext {
        Ext::add(self, other)
    }
}

impl Sub for Ext {
    type Output = Ext;

    ghost sub_gives = { λ x y difference. difference ≡ sub_k x y };

    #[inline]
    fn sub(self, other: Ext) -> Ext {
        Ext::sub(self, other)
    }
}

impl Mul for Ext {
    type Output = Ext;

    ghost mul_gives = { λ x y product. product ≡ mul_k x y };

    #[inline]
    fn mul(self, other: Ext) -> Ext {
        Ext::mul(self, other)
    }
}

impl Neg for Ext {
    type Output = Ext;

    ghost neg_gives = { λ x opposite. opposite ≡ neg_k x };

    #[inline]
    fn neg(self) -> Ext {
        Ext::neg(self)
    }
}
