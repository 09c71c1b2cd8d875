//! The shapes of values.

/// What a value is: a number, a list of numbers, or rows of numbers.
#[derive(Clone, Copy, PartialEq, Eq, Debug)]
pub enum ShapeOf {
    /// One number.
    Scalar,
    /// So many numbers.
    Vector(u32),
    /// So many rows, each of so many numbers.
    Matrix(u32, u32),
}
