//! Lists of nodes laid out as layered circuits.
//!
//! A leaf has level 0, and an operation one more than the greater level of its operands. Height 0 holds the leaves, and a
//! height between the leaves and the outputs holds the needed nodes of its level and, carried as `add(u, 0)`, the lower
//! ones that are used above it; the last height holds the outputs, in order. Nodes come by number from position 1 on,
//! and position 0 and the padding hold 0. Source: Thaler, "Proofs, Arguments, and Zero-Knowledge", 4.6 (layered
//! arithmetic circuits).
//!
//! ```text
//! let circuit = layer(alloc, &nodes, Limits::greatest())?;     // layer i is height H - i
//! ```
#![tactic(auto)]

mod adding;
mod chains;
mod gates;
pub mod laws;
mod layers;
mod layout;
mod levels;
mod limits;
mod plan;
mod positions;
mod refused;
mod rows;
mod sizes;
mod uses;

pub use layout::layer;
pub use limits::Limits;
pub use refused::LayerRefused;
