//! A program as a list of nodes: the leaves and operations in order of making, and the nodes that are outputs.
//!
//! A node is an input, a constant, or an operation on nodes that were made before it, so a node's number is more than
//! those of its operands. `NodeListBuilder` takes nodes and outputs one by one, and `NodeList` is what it makes: a program
//! with at least one output, each of whose nodes has a value for given inputs.
//! Source: Thaler, "Proofs, Arguments, and Zero-Knowledge", 4.6 (layered arithmetic circuits).
//!
//! ```text
//! let product = nodes.push(Node::Operation(CircuitGate { kind: Kind::Mul, left: a, right: b }))?;
//! nodes.output(product)?;
//! ```
#![tactic(auto)]

mod builder;
pub mod laws;
mod list;
mod node;
mod values;

pub use builder::NodeListBuilder;
pub use list::NodeList;
pub use node::Node;
