//! How the values of a table are multiplied: any elements of K, or those of the base field, which take half the products.

ghost use Rattle.std.specs.Prelude.{◌≡◌, ◌^◌};
ghost use Rattle.field_ext.specs.Field.{K, of, mul_k, sub_k};
ghost use Rattle.gate_gather.specs.LazySum.{element_of, IsBelow};

use crate::lazy_sum::LazySum;
use field_ext::Ext;

/// What the values of a table are known to be, and how they are multiplied then.
pub trait Operand {
    ghost holds: { K → Type 0 };

    /// A product that isn't reduced.
    fn product(x: Ext, y: Ext) -> LazySum
        requires { holds x }
        ensures element { element_of result ≡ mul_k x y }
        ensures below { IsBelow (2 ^ 34) result };

    /// A difference of two such values, which is one too.
    fn difference(x: Ext, y: Ext) -> Ext
        requires first { holds x }
        requires second { holds y }
        ensures value { result ≡ sub_k x y }
        ensures kept { holds result };

    /// A product with any element.
    fn times(r: Ext, x: Ext) -> Ext
        requires { holds x }
        ensures { result ≡ mul_k r x };
}

/// Any elements of K.
pub struct Whole;

/// Elements of the base field.
pub struct Base;

impl Operand for Whole {
    ghost holds = { λ _. Unit {0} };

    #[inline]
    fn product(x: Ext, y: Ext) -> LazySum {
        LazySum::product(x, y)
    }

    #[inline]
    fn difference(x: Ext, y: Ext) -> Ext {
        x - y
    }

    #[inline]
    fn times(r: Ext, x: Ext) -> Ext {
        r * x
    }
}

impl Operand for Base {
    ghost holds = { λ x. x.im ≡ of 0 };

    #[inline]
    fn product(x: Ext, y: Ext) -> LazySum {
        LazySum::multiple(x.re(), y)
    }

    #[inline]
    fn difference(x: Ext, y: Ext) -> Ext {
        Ext::embed(x.re() - y.re())
    }

    #[inline]
    fn times(r: Ext, x: Ext) -> Ext {
        Ext::of(r.re() * x.re(), r.im() * x.re())
    }
}
