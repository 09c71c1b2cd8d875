//! Proofs by pairs: from the claims at both operands' points to one claim at both, without a line between them.
//!
//! After a layer's rounds the prover sends the values of the layer below at both points, `u` and `w`, and the claim goes
//! on at both with the weights 1 and the next challenge `a`: it is `u + a w`. [`pair_at`] gives the true values.
//! [`encode_pair`] writes `GKRP`, and for each layer its rounds and its pair; [`decode_pair`] reads them. Source: the
//! combination of two claims by a random weight as in Xie and others, "Libra" (2019).
//!
//! ```text
//! let pair = pair_at(alloc, values.table(1), &b, &c)?;
//! let bytes = encode_pair(alloc, &messages)?;
//! ```
#![tactic(auto)]

mod bytes;
mod pair;

pub use bytes::{PairMessages, decode_pair, encode_pair, proof_len_pair};
pub use pair::pair_at;
