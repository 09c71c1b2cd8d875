//! Inputs, which come before all else.

ghost use Rattle.std.specs.Prelude.{◌≡◌, [], ◌∷◌, length, IfOk, flat_map};
ghost use Rattle.arr_lex.specs.declared.token.Symbol.TheVariants.{Input as InputWord, Number, Semicolon};
ghost use Rattle.arr_parse.specs.Mark.{Placed};
ghost use Rattle.arr_parse.specs.ProgramSpelling.{dimensions_spelling, input_spelling};
ghost use Rattle.arr_parse.specs.Grammar.{The, AName, ANumber, FirstDimension, SecondDimension, Inputs, Definitions};
ghost use Rattle.arr_parse.specs.Reading.{refusal};
ghost use Rattle.arr_parse.specs.Parsed.{Agrees};
ghost use Rattle.arr_parse.specs.Steps.{Takes, Leads, Reads, after_found, maybe_dimension_spelling};

use crate::cursor::Cursor;
use crate::refused::ParseRefused;
use arr_ast::{Dimension, Dimensions, Input};
use arr_lex::Symbol;

/// The inputs that the tokens begin with.
pub fn inputs(cursor: &mut Cursor) -> Result<Vec<Input>, ParseRefused>
    requires { cursor.old.levels ≡ 0 }
    ensures spelled { IfOk result
        (λ found. Takes [] cursor.old (flat_map input_spelling found.items) cursor.new) }
    ensures exact { Agrees
        (λ _. refusal cursor.old.source.lang (length cursor.old.source.text) (Definitions ∷ [])
        cursor.new.tokens) result
        (refusal cursor.old.source.lang (length cursor.old.source.text) (Inputs ∷ [])
        cursor.old.tokens) }
{
    let mut inputs = Vec::new(cursor.alloc());
    'each: while let Some(word) = cursor.input_word() {
        let input = input(cursor, word.start)?;
        inputs.push(input)?;
    }
    Ok(inputs)
}

/// An input, after its word.
fn input(cursor: &mut Cursor, at: usize) -> Result<Input, ParseRefused>
    ensures spelled { IfOk result (λ found. Takes (Placed at InputWord ∷ []) cursor.old
        (input_spelling found) cursor.new) }
    ensures exact { Reads (AName ∷ FirstDimension ∷ The Semicolon ∷ [])
        cursor.old result cursor.new }
{
    let name = cursor.declared_name()?;
    let dimensions = dimensions(cursor)?;
    cursor.take(Symbol::Semicolon)?;
    Ok(Input {
        at,
        name,
        dimensions,
    })
}

/// At most two dimensions.
fn dimensions(cursor: &mut Cursor) -> Result<Dimensions, ParseRefused>
    ensures spelled { IfOk result
        (λ found. Takes [] cursor.old (dimensions_spelling found) cursor.new) }
    ensures exact { Reads (FirstDimension ∷ []) cursor.old result cursor.new }
{
    let Some(first) = maybe_dimension(cursor)? else {
        return Ok(Dimensions::Scalar);
    };
    let Some(second) = maybe_dimension(cursor)? else {
        return Ok(Dimensions::Vector(first));
    };
    Ok(Dimensions::Matrix(first, second))
}

/// A dimension in its brackets, if the tokens begin with one. After a first dimension there may be a second.
fn maybe_dimension(cursor: &mut Cursor) -> Result<Option<Dimension>, ParseRefused>
    ensures spelled { IfOk result
        (λ found. Takes [] cursor.old (maybe_dimension_spelling found) cursor.new) }
    ensures first { Leads (FirstDimension ∷ []) (after_found SecondDimension)
        cursor.old result cursor.new }
    ensures second { Reads (SecondDimension ∷ []) cursor.old result cursor.new }
{
    let Some(opening) = cursor.open_square() else {
        return Ok(None);
    };
    cursor.open(opening.start)?;
    let dimension = dimension(cursor)?;
    cursor.close(Symbol::CloseSquare)?;
    Ok(Some(dimension))
}

/// The number that is due.
fn dimension(cursor: &mut Cursor) -> Result<Dimension, ParseRefused>
    ensures spelled { IfOk result (λ found. Takes [] cursor.old
        (Placed found.at (Number found.size) ∷ []) cursor.new) }
    ensures exact { Reads (ANumber ∷ []) cursor.old result cursor.new }
{
    let token = cursor.next()?;
    let at = token.start;
    match token.symbol {
        Symbol::Number(size) => Ok(Dimension { at, size }),
        _ => Err(ParseRefused::Syntax { at }),
    }
}
