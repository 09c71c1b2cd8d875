//! The indices after a name.

ghost use Rattle.std.specs.Prelude.{[], ◌∷◌, IfOk};
ghost use Rattle.arr_parse.specs.IndexSpelling.{second_spelling, maybe_indices_spelling};
ghost use Rattle.arr_parse.specs.Grammar.{FirstIndex, SecondIndex};
ghost use Rattle.arr_parse.specs.Steps.{Takes, Leads, Reads, after_found};

use crate::cursor::Cursor;
use crate::index::index_expression;
use crate::refused::ParseRefused;
use arr_ast::{IndexExpression, Indices};
use arr_lex::Symbol;

/// The indices that the tokens begin with, if any.
pub fn maybe_indices(cursor: &mut Cursor) -> Result<Option<Indices>, ParseRefused>
    ensures spelled { IfOk result
        (λ found. Takes [] cursor.old (maybe_indices_spelling found) cursor.new) }
    ensures exact { Reads (FirstIndex ∷ []) cursor.old result cursor.new }
{
    let Some(first) = maybe_index(cursor)? else {
        return Ok(None);
    };
    let second = maybe_index(cursor)?;
    Ok(Some(Indices { first, second }))
}

/// An index in its brackets, if the tokens begin with one. After a first index there may be a second.
fn maybe_index(cursor: &mut Cursor) -> Result<Option<IndexExpression>, ParseRefused>
    ensures spelled { IfOk result
        (λ found. Takes [] cursor.old (second_spelling found) cursor.new) }
    ensures first { Leads (FirstIndex ∷ []) (after_found SecondIndex) cursor.old result cursor.new }
    ensures second { Reads (SecondIndex ∷ []) cursor.old result cursor.new }
{
    let Some(token) = cursor.open_square() else {
        return Ok(None);
    };
    cursor.open(token.start)?;
    let index = index_expression(cursor)?;
    cursor.close(Symbol::CloseSquare)?;
    Ok(Some(index))
}
