//! What a run of programs keeps and checks, apart from its statements: names in scope, values of indices, elements' places, shapes, and
//! counts of steps, nodes and constants, each with its refusal.
//!
//! A scope is generic in its arrays, so one serves every run of `arr_run`, whatever that run makes of them.
#![tactic(auto)]

mod bound;
mod constants;
mod counts;
mod element;
mod index;
mod refused;
mod scope;
mod shape;

pub use bound::Bound;
pub use constants::Constants;
pub use counts::{Counts, add_nodes, add_nodes_each, step, use_constant};
pub use element::{offset, place_in};
pub use index::{index_at, index_value};
pub use refused::{CheckKind, CheckRefused};
pub use scope::Scope;
pub use shape::{
    is_alike, opposite_shape, pair_shape, signed_shape, single_shape, size, times_shape,
};
