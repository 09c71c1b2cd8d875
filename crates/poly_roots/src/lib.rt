//! Polynomials over K, as lists of coefficients with the constant first.
//!
//! `Poly` is evaluated by Horner's rule, added and multiplied; `value_at` and `sum01` do the same for lent coefficients,
//! as of a sumcheck message. The law of roots, on which soundness rests, is in `laws`.
//! Source: Thaler, "Proofs, Arguments, and Zero-Knowledge", 2.1 (Schwartz-Zippel in one variable) and 4.1.
//!
//! ```rust
//! use field_ext::{Ext, Fp};
//!
//! let three = Ext::embed(Fp::reduce(3));
//! assert!(rt; poly_roots::value_at(&[Ext::one(), three], three) == Ext::embed(Fp::reduce(10)));
//! ```
#![tactic(auto)]

pub mod laws;
mod poly;
mod product;
mod value;

pub use poly::Poly;
pub use value::{sum01, value_at};
