//! Statements, of the top level and of a loop's body.

use crate::expression::Expression;
use crate::index::{IndexExpression, Indices};
use crate::program::Name;

/// A statement of the top level or of a loop's body, with the place of its first word where that is no name.
#[derive(Debug, Drop)]
pub enum Statement {
    /// `let NAME = e ;`
    Let {
        at: usize,
        name: Name,
        value: Expression,
    },
    /// `NAME = e ;`
    Set {
        name: Name,
        value: Expression,
    },
    /// `NAME [ x ] = e ;`, with one index or two
    SetElement {
        name: Name,
        indices: Indices,
        value: Expression,
    },
    /// `for NAME in x .. x { statements }`
    For {
        at: usize,
        name: Name,
        low: IndexExpression,
        high: IndexExpression,
        body: Vec<Statement>,
    },
}
