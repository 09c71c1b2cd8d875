//! Sums of products that are reduced once, at their end.

ghost use Rattle.std.specs.Prelude.{◌≡◌, ◌<◌, ◌+◌, ◌*◌, ◌^◌};
ghost use Rattle.field_ext.specs.Field.{of, add_k, mul_k, embed_k};
ghost use Rattle.gate_gather.specs.LazySum.{element_of, IsBelow};

use field_ext::{Ext, Fp, PRIME};

const MASK: u64 = 2147483647;

/// An element whose halves are numbers that are not reduced yet.
#[derive(Clone, Copy)]
pub struct LazySum {
    pub re: u64,
    pub im: u64,
}

/// A number below `2^34` that leaves the remainder of `n`.
#[inline]
fn shortened(n: u64) -> u64
    ensures of { of result ≡ of n }
    ensures below { result < 2 ^ 34 }
{
    (n & MASK) + (n >> 31)
}

impl LazySum {
    /// The element 0.
    #[inline]
    pub fn zero() -> LazySum
        ensures re { result.re ≡ 0 }
        ensures im { result.im ≡ 0 }
    {
        LazySum { re: 0, im: 0 }
    }

    /// A product.
    #[inline]
    pub fn product(x: Ext, y: Ext) -> LazySum
        ensures element { element_of result ≡ mul_k x y }
        ensures below { IsBelow (2 ^ 34) result }
    {
        let (a, b) = (x.re().value() as u64, x.im().value() as u64);
        let (c, d) = (y.re().value() as u64, y.im().value() as u64);
        LazySum {
            re: shortened(a * c + b * (PRIME as u64 - d)),
            im: shortened(a * d + b * c),
        }
    }

    /// A product with an element of the base field.
    #[inline]
    pub fn multiple(x: Fp, y: Ext) -> LazySum
        ensures element { element_of result ≡ mul_k (embed_k x) y }
        ensures below { IsBelow (2 ^ 34) result }
    {
        let a = x.value() as u64;
        LazySum {
            re: shortened(a * y.re().value() as u64),
            im: shortened(a * y.im().value() as u64),
        }
    }

    /// With one element more.
    #[inline]
    pub fn plus(self, x: Ext) -> LazySum
        requires { IsBelow (2 ^ 34) self }
        ensures element { element_of result ≡ add_k (element_of self) x }
        ensures below { IsBelow (2 ^ 35) result }
    {
        LazySum {
            re: self.re + x.re().value() as u64,
            im: self.im + x.im().value() as u64,
        }
    }

    /// The sum of two, where both halves fit.
    #[inline]
    pub fn add(self, other: LazySum) -> LazySum
        requires re { self.re + other.re < 2 ^ 64 }
        requires im { self.im + other.im < 2 ^ 64 }
        ensures element { element_of result ≡ add_k (element_of self) (element_of other) }
        ensures re { result.re ≡ self.re + other.re }
        ensures im { result.im ≡ self.im + other.im }
    {
        LazySum {
            re: self.re + other.re,
            im: self.im + other.im,
        }
    }

    /// The element.
    #[inline]
    pub fn reduced(self) -> Ext
        ensures { result ≡ element_of self }
    {
        Ext::of(Fp::reduce(self.re), Fp::reduce(self.im))
    }
}
