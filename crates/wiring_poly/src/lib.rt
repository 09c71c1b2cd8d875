//! The wiring polynomials of a layer.
//!
//! They are the multilinear extensions of "the gate at z adds the values at b and c" and "the gate at z multiplies
//! them"; with the values of the layer below they make the summand of a layer's sumcheck, whose sum over all Boolean
//! points is the extension of the layer's values. Source: Thaler, "Proofs, Arguments, and Zero-Knowledge", 4.6.
//!
//! ```text
//! let (add, mul) = wiring_at(&circuit, layer, &z, &b, &c);
//! ```
#![tactic(auto)]

pub mod laws;
mod shares;
mod wiring;

pub use shares::WiringSums;
pub use wiring::wiring_at;
