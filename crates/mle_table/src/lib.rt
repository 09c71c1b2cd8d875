//! Tables of `2^k` values of K and their multilinear extensions.
//!
//! A `Table` is the values of a function on the Boolean points of k coordinates: bit j of an index belongs to coordinate j,
//! the lowest first. Folding binds the first coordinate; binding all gives the value of the multilinear extension. A `BaseTable` has
//! values of the base field alone, in half the memory.
//! Source: Thaler, "Proofs, Arguments, and Zero-Knowledge", 3.5 (multilinear extensions) and 4.1.
//!
//! ```rust
//! use field_ext::Ext;
//! use mle_table::Table;
//!
//! let table = Table::eq_table(rt.alloc(), &[Ext::one()])?;
//! assert!(rt; table.at(0) == Ext::zero() && table.at(1) == Ext::one());
//! ```
#![tactic(auto)]

mod base_table;
mod equality;
pub mod laws;
mod split_equality;
mod table;
mod values;

pub use base_table::BaseTable;
pub use equality::fill_equality;
pub use split_equality::SplitEquality;
pub use table::{NotPower, Table};
pub use values::embed_into;
