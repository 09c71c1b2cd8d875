//! What names stand for.

use arr_ast::ShapeOf;

/// An array with its shape, or the number of a loop's turn.
#[derive(Drop)]
pub enum Bound<A> {
    Value(ShapeOf, A),
    Turn(u32),
}
