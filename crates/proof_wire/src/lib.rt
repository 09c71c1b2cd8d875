//! The bytes of a proof: the prover's messages, written and read.
//!
//! A proof of a layered circuit (Goldwasser, Kalai and Rothblum; Thaler, ch. 4) is, for each layer from the outputs
//! down, the sumcheck's round messages of three coefficients and a last message: by lines that of one coefficient more
//! than the layer below has coordinates, by pairs two values. [`encode`] writes `GKR1` and all of them at 8 bytes a
//! coefficient, and [`encode_as`] a form's own first four bytes. No length is written: a circuit's shape tells how many
//! there are, and [`proof_len`] how long the bytes are.
//!
//! ```
//! let bytes = encode(alloc, &messages)?;
//! let again = decode(alloc, &bytes, circuit.shape())?;
//! ```
#![tactic(auto)]

mod cutting;
mod decoding;
mod encoding;
mod form;
pub mod laws;
mod length;
mod listed;
mod messages;
mod refused;

pub use decoding::{decode, decode_as};
pub use encoding::{encode, encode_as};
pub use form::ProofForm;
pub use length::{proof_len, proof_len_as};
pub use listed::Listed;
pub use messages::{LayerMessages, Messages, Round};
pub use refused::{BadProof, ProofRefused};
