//! Index expressions, from the left.

ghost use Rattle.std.specs.Prelude.{[], ◌∷◌, IfOk, OnOk, flat_map};
ghost use Rattle.arr_parse.specs.IndexSpelling.{index_spelling, index_term_spelling, index_factor_spelling, times_index_factor_spelling};
ghost use Rattle.arr_parse.specs.Grammar.{AnIndex, AnIndexTerm, MoreIndexFactors, AnIndexFactor};
ghost use Rattle.arr_parse.specs.Steps.{Takes, Reads};

use crate::cursor::Cursor;
use crate::refused::ParseRefused;
use arr_ast::{AddedIndexTerm, IndexExpression, IndexFactor, IndexTerm, TimesIndexFactor};
use arr_lex::Symbol;

/// The index expression that is due.
#[cycle(index)]
pub fn index_expression(cursor: &mut Cursor) -> Result<IndexExpression, ParseRefused>
    ensures spelled { IfOk result (λ found. Takes [] cursor.old (index_spelling found) cursor.new) }
    ensures exact { Reads (AnIndex ∷ []) cursor.old result cursor.new }
{
    let first = index_term(cursor)?;
    let mut added = Vec::new(cursor.alloc());
    while let Some((sign, at)) = cursor.added_sign() {
        let term = index_term(cursor)?;
        added.push(AddedIndexTerm { sign, at, term })?;
    }
    Ok(IndexExpression { first, added })
}

#[cycle(index)]
fn index_term(cursor: &mut Cursor) -> Result<IndexTerm, ParseRefused>
    ensures spelled { IfOk result
        (λ found. Takes [] cursor.old (index_term_spelling found) cursor.new) }
    ensures exact { Reads (AnIndexTerm ∷ []) cursor.old result cursor.new }
{
    let first = index_factor(cursor)?;
    let mut times = Vec::new(cursor.alloc());
    times_index_factors(cursor, &mut times)?;
    Ok(IndexTerm { first, times })
}

/// Adds the further factors of a term.
#[cycle(index)]
fn times_index_factors(
    cursor: &mut Cursor,
    times: &mut Vec<TimesIndexFactor>,
) -> Result<(), ParseRefused>
    ensures spelled { OnOk result (Takes (flat_map times_index_factor_spelling times.old.items)
        cursor.old (flat_map times_index_factor_spelling times.new.items) cursor.new) }
    ensures exact { Reads (MoreIndexFactors ∷ []) cursor.old result cursor.new }
{
    while let Some(at) = cursor.times_sign() {
        let factor = index_factor(cursor)?;
        times.push(TimesIndexFactor { at, factor })?;
    }
    Ok(())
}

#[cycle(index)]
fn index_factor(cursor: &mut Cursor) -> Result<IndexFactor, ParseRefused>
    ensures spelled { IfOk result
        (λ found. Takes [] cursor.old (index_factor_spelling found) cursor.new) }
    ensures exact { Reads (AnIndexFactor ∷ []) cursor.old result cursor.new }
{
    let token = cursor.next()?;
    let at = token.start;
    match token.symbol {
        Symbol::Number(value) => Ok(IndexFactor::Number { at, value }),
        Symbol::Name => Ok(IndexFactor::Name(cursor.name(token))),
        Symbol::OpenRound => {
            cursor.open(at)?;
            let inner = index_expression(cursor)?;
            cursor.close(Symbol::CloseRound)?;
            let inner = Box::new(cursor.alloc(), inner)?;
            Ok(IndexFactor::Parenthesized { at, inner })
        }
        _ => Err(ParseRefused::Syntax { at }),
    }
}
