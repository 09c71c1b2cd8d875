//! Programs: inputs, then definitions, and then statements.

use crate::expression::Expression;
use crate::statement::Statement;

/// A name: the place of its first byte, and its number. Names of one program have equal numbers exactly where they have equal
/// bytes.
#[derive(Clone, Copy, Debug)]
pub struct Name {
    pub at: usize,
    pub number: usize,
}

/// `[ number ]`, with the number's place
#[derive(Clone, Copy, Debug)]
pub struct Dimension {
    pub at: usize,
    pub size: u32,
}

/// The dimensions of an input.
#[derive(Clone, Copy, Debug)]
pub enum Dimensions {
    Scalar,
    Vector(Dimension),
    Matrix(Dimension, Dimension),
}

/// `input NAME ;`, with at most two dimensions before the `;`
#[derive(Debug, Drop)]
pub struct Input {
    pub at: usize,
    pub name: Name,
    pub dimensions: Dimensions,
}

/// `def NAME ( NAME , .. ) = e ;`, with the places of the word `def` and of the parenthesis
#[derive(Debug, Drop)]
pub struct Definition {
    pub at: usize,
    pub name: Name,
    pub parenthesis: usize,
    pub parameters: Vec<Name>,
    pub body: Expression,
}

/// A statement of the top level, where outputs are too.
#[derive(Debug, Drop)]
pub enum TopStatement {
    /// `output e ;`, with the place of the word `output`
    Output { at: usize, value: Expression },
    /// Any other statement.
    Inner(Statement),
}

/// The inputs, then the definitions, and then the statements of the top level.
#[derive(Debug, Drop)]
pub struct Program {
    pub inputs: Vec<Input>,
    pub definitions: Vec<Definition>,
    pub statements: Vec<TopStatement>,
    /// The length of the text.
    pub end: usize,
}
