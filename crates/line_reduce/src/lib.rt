//! From two points of a layer to one: the restriction of the layer's extension to the line between them.
//!
//! The claims on a layer at b and at c become one claim at a point of the line `b + t (c - b)`, after a polynomial of
//! one variable was sent for the extension along the line. Source: Thaler, "Proofs, Arguments, and Zero-Knowledge",
//! 4.5.2 and 4.6.
//!
//! ```text
//! let line = line_poly(alloc, &table, &b, &c)?;
//! point_at(&b, &c, t, &mut point);     // where claim_at(&line, t) is claimed
//! ```
//!
//! A [`LinePart`] works the values of a part of the table by itself, and [`line_of_parts`] puts the lines of all parts together.
#![tactic(auto)]

mod blocks;
mod line;
mod parts;
mod point;
mod rows;
mod weights;

pub use line::{claim_at, line_poly};
pub use parts::{LinePart, PART_COEFFICIENTS, line_of_parts, part_count};
pub use point::point_at;
