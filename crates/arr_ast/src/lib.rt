//! The trees of the array language, with the places in the source that a refusal names.
//!
//! A chain of operators of one rank is one node, so a tree is no deeper than its text's brackets and unary minuses are nested.
//! The trees are plain data; `specs/` has the same trees apart from where they lie in memory, over which grammar and meaning are defined.
//!
//! `1 + 2 * 3` is an expression of the term 1 and, added, the term of the factors 2 and 3.
#![tactic(auto)]

mod expression;
mod index;
mod lang;
mod program;
mod refusal;
mod shape;
mod statement;

pub use expression::{
    AddedTerm, Expression, Factor, PairFunction, Sign, SingleFunction, Term, TimesFactor,
};
pub use index::{
    AddedIndexTerm, IndexExpression, IndexFactor, IndexTerm, Indices, TimesIndexFactor,
};
pub use lang::Lang;
pub use program::{Definition, Dimension, Dimensions, Input, Name, Program, TopStatement};
pub use refusal::ProgramKind;
pub use shape::ShapeOf;
pub use statement::Statement;
