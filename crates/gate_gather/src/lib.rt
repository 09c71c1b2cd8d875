//! What the gates of a layer give to the tables of its sumcheck.
//!
//! In each phase a gate is sent to the place of one of its operands, and adds to two tables there: to what multiplies that
//! operand's value, and to what comes besides. A pair of tables may hold a range of the places alone, so that ranges can be
//! gathered apart; which steps are taken doesn't depend on what a gate does. Products take half the work where values are known to
//! lie in the base field, and sums of products can be reduced once, at their end. Source: Xie, Zhang, Zhang, Papamanthou and
//! Song, "Libra" (2019), 3.
//!
//! ```text
//! gather_left(gates, &weights, values, 0, &mut scales, &mut shifts);                   // the first phase
//! gather_right(gates, &weights, &left, value, 0, &mut scales, &mut shifts, steps);     // the second
//! ```
#![tactic(auto)]

mod choosing;
mod gathering;
pub mod laws;
mod lazy_sum;
mod operand;
mod scaling;
mod weights;
mod zeros;

pub use gathering::{gather_left, gather_right};
pub use lazy_sum::LazySum;
pub use operand::{Base, Operand, Whole};
pub use weights::{EqualityAt, Weights};
pub use zeros::{clear, is_zero};
