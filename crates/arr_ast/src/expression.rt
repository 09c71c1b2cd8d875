//! Expressions, one type for each rank of operators. A chain of operators of one rank is one node.

use crate::index::Indices;
use crate::program::Name;

/// The sign of an added term.
#[derive(Clone, Copy, PartialEq, Eq, Debug)]
pub enum Sign {
    Plus,
    Minus,
}

/// A function of one argument.
#[derive(Clone, Copy, PartialEq, Eq, Debug)]
pub enum SingleFunction {
    Sum,
    Transpose,
}

/// A function of two arguments.
#[derive(Clone, Copy, PartialEq, Eq, Debug)]
pub enum PairFunction {
    Scale,
    Dot,
    MatMul,
}

/// Terms joined by `+` and `-`, from the left.
#[derive(Debug, Drop)]
#[cycle(expression)]
pub struct Expression {
    pub first: Term,
    pub added: Vec<AddedTerm>,
}

/// A sign, its place and the term after it.
#[derive(Debug, Drop)]
#[cycle(expression)]
pub struct AddedTerm {
    pub sign: Sign,
    pub at: usize,
    pub term: Term,
}

/// Factors joined by `*`, from the left.
#[derive(Debug, Drop)]
#[cycle(expression)]
pub struct Term {
    pub first: Factor,
    pub times: Vec<TimesFactor>,
}

/// The place of a `*`, and the factor after it.
#[derive(Debug, Drop)]
#[cycle(expression)]
pub struct TimesFactor {
    pub at: usize,
    pub factor: Factor,
}

/// A call keeps the place of its function's word, and that of its parenthesis.
#[derive(Debug, Drop)]
#[cycle(expression)]
pub enum Factor {
    /// A number below 2^31 - 1.
    Number {
        at: usize,
        value: u32,
    },
    /// A value, or a loop variable.
    Name(Name),
    /// `NAME [ x ]`, with one index or two.
    Element {
        name: Name,
        indices: Indices,
    },
    /// A unary `-`.
    Negation {
        at: usize,
        operand: Box<Factor>,
    },
    /// `( e )`
    Parenthesized {
        at: usize,
        inner: Box<Expression>,
    },
    /// `sum` or `transpose`.
    Single {
        function: SingleFunction,
        at: usize,
        parenthesis: usize,
        argument: Box<Expression>,
    },
    /// `scale`, `dot` or `matmul`.
    Pair {
        function: PairFunction,
        at: usize,
        parenthesis: usize,
        left: Box<Expression>,
        right: Box<Expression>,
    },
    /// `NAME ( e , .. )`, a call of a definition with one argument or more
    Call {
        name: Name,
        parenthesis: usize,
        first: Box<Expression>,
        further: Vec<Expression>,
    },
}
