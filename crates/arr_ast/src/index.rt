//! Index expressions, over numbers and loop variables.

use crate::expression::Sign;
use crate::program::Name;

/// `[ x ]` or `[ x ] [ x ]`
#[derive(Debug, Drop)]
pub struct Indices {
    pub first: IndexExpression,
    pub second: Option<IndexExpression>,
}

/// Terms joined by `+` and `-`, from the left.
#[derive(Debug, Drop)]
#[cycle(index)]
pub struct IndexExpression {
    pub first: IndexTerm,
    pub added: Vec<AddedIndexTerm>,
}

/// A sign, its place and the term after it.
#[derive(Debug, Drop)]
#[cycle(index)]
pub struct AddedIndexTerm {
    pub sign: Sign,
    pub at: usize,
    pub term: IndexTerm,
}

/// Factors joined by `*`, from the left.
#[derive(Debug, Drop)]
#[cycle(index)]
pub struct IndexTerm {
    pub first: IndexFactor,
    pub times: Vec<TimesIndexFactor>,
}

/// The place of a `*`, and the factor after it.
#[derive(Debug, Drop)]
#[cycle(index)]
pub struct TimesIndexFactor {
    pub at: usize,
    pub factor: IndexFactor,
}

/// A number, the name of a loop variable, or an index expression in parentheses.
#[derive(Debug, Drop)]
#[cycle(index)]
pub enum IndexFactor {
    Number {
        at: usize,
        value: u32,
    },
    Name(Name),
    Parenthesized {
        at: usize,
        inner: Box<IndexExpression>,
    },
}
