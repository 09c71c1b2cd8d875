//! The place of an expression's first byte.

ghost use Rattle.std.specs.Prelude.{◌≡◌};
ghost use Rattle.arr_ast.specs.ExpressionTree.{expression_tree};
ghost use Rattle.arr_run.specs.Statement.{expression_at as place_of};

use arr_ast::{Expression, Factor};

#[tactic(auto, using(crate::proofs::ExpressionRows::of_places))]
pub fn expression_at(expression: &Expression) -> usize
    ensures { result ≡ place_of (expression_tree expression.now) }
{
    match &expression.first.first {
        Factor::Name(name) => name.at,
        Factor::Element { name, .. } => name.at,
        Factor::Number { at, .. } => *at,
        Factor::Negation { at, .. } => *at,
        Factor::Parenthesized { at, .. } => *at,
        Factor::Single { at, .. } => *at,
        Factor::Pair { at, .. } => *at,
        Factor::Call { name, .. } => name.at,
    }
}
