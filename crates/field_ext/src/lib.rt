//! The field F_p of `p = 2^31 - 1` elements, and its square extension K by a root `i` of -1.
//!
//! `Fp` is a number below the prime and `Ext` is `a + b i`, two of them. Since p is prime and leaves 3 modulo 4, -1 is no
//! square modulo p: K is a field of `p^2` elements, the one that challenges and proofs live in.
//! Source: Thaler, "Proofs, Arguments, and Zero-Knowledge", 2.1 and 4.6; the prime is the eighth of Mersenne's.
//!
//! ```rust
//! use field_ext::{Ext, Fp};
//!
//! let i = Ext::of(Fp::zero(), Fp::one());
//! assert!(rt; i * i == -Ext::one());
//! ```
#![tactic(auto)]

mod ext;
mod fp;
pub mod laws;

pub use ext::Ext;
pub use fp::{Fp, PRIME};
