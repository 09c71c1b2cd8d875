//! The bytes of a proof of version 2: the prover's messages by lines, without the middle coefficient of each round.
//!
//! In a sumcheck (Lund, Fortnow, Karloff and Nisan; Thaler, 4.1) the values of a round's message at 0 and at 1 add to the
//! claim before it. So of its three coefficients the middle one follows from the claim and the others, and a verifier fills
//! it in. [`shorten`] leaves it out; [`encode_two`] writes `GKR2` and all that is left at 8 bytes a coefficient, and
//! [`decode_any`] reads proofs of both versions, by the fourth byte. No length is written: a circuit's shape tells how many
//! coefficients there are, and [`proof_len_two`] how long the bytes are.
//!
//! ```
//! let pairs = shorten(alloc, &messages)?;
//! let bytes = encode_two(alloc, &pairs)?;
//! let again = decode_two(alloc, &bytes, circuit.shape())?;
//! ```
#![tactic(auto)]

mod cutting;
mod decoding;
mod encoding;
mod kind;
pub mod laws;
mod length;
mod pairs;
mod shortening;
mod versions;

pub use decoding::decode_two;
pub use encoding::{encode_kind, encode_two};
pub use kind::{ProofKind, ProofVersion};
pub use length::proof_len_two;
pub use pairs::{LayerPairs, Pairs, RoundPair};
pub use shortening::shorten;
pub use versions::{AnyProof, decode_any};
