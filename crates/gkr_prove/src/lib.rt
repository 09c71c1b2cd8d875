//! The prover of the Goldwasser-Kalai-Rothblum protocol.
//!
//! [`prove`] gives the honest messages of all layers, the output layer first: the true polynomial of each round of
//! sumcheck, and of the line between the two operands' points, at the challenges that the source gives after the
//! messages before. They are the only honest messages, and the verifier accepts them. [`prove_pair`] is the same body for
//! proofs that end each layer with the values at both points in place of the line. [`prove_alone`] gives either on the calling
//! thread, and returns. [`last_message`], [`KeptPlace`] and [`buffers_for`] are its steps from layer to layer, for a prover
//! that is fed its challenges. Source: Thaler, "Proofs, Arguments, and Zero-Knowledge", 4.6; for pairs Xie and others,
//! "Libra" (2019).
//!
//! ```text
//! let values = layer_values(&rt, alloc, &circuit, &inputs)?;
//! let messages = prove(&rt, alloc, &circuit, &values, &mut challenges, 4, &OpenGate)?;
//! ```
#![tactic(auto)]

mod alone;
mod kept;
mod last;
mod layer;
mod layers;
mod prover;
mod rounds;
mod shared;
mod sharing;

pub use alone::prove_alone;
pub use kept::KeptPlace;
pub use last::last_message;
pub use prover::{buffers_for, prove, prove_as, prove_pair};
