//! Definitions, which come after all inputs and before all statements.

ghost use Rattle.std.specs.Prelude.{◌≡◌, suc, List, [], ◌∷◌, ◌++◌, length, IfOk, OnOk, flat_map};
ghost use Rattle.arr_lex.specs.declared.token.Symbol.TheVariants.{Def as DefinitionWord, OpenRound, CloseRound, Equals, Semicolon};
ghost use Rattle.arr_parse.specs.Mark.{Separator, Placed};
ghost use Rattle.arr_parse.specs.ProgramSpelling.{further_name_spelling, parameters_spelling, definition_spelling};
ghost use Rattle.arr_parse.specs.Grammar.{Part, The, AName, AnExpression, Definitions, Parameters, MoreParameters, TopStatements};
ghost use Rattle.arr_parse.specs.Reading.{levels as levels_of, refusal};
ghost use Rattle.arr_parse.specs.Parsed.{Agrees};
ghost use Rattle.arr_parse.specs.Steps.{Takes, Reads};

use crate::cursor::Cursor;
use crate::refused::ParseRefused;
use crate::statement::assigned_value;
use arr_ast::{Definition, Name};
use arr_lex::Symbol;

/// How many parameters may come after the first.
const MAX_FURTHER: usize = 7;

/// The definitions that the tokens begin with.
pub fn definitions(cursor: &mut Cursor) -> Result<Vec<Definition>, ParseRefused>
    requires { cursor.old.levels ≡ 0 }
    ensures spelled { IfOk result
        (λ found. Takes [] cursor.old (flat_map definition_spelling found.items) cursor.new) }
    ensures exact { Agrees
        (λ _. refusal cursor.old.source.lang (length cursor.old.source.text) (TopStatements ∷ [])
        cursor.new.tokens) result
        (refusal cursor.old.source.lang (length cursor.old.source.text) (Definitions ∷ [])
        cursor.old.tokens) }
{
    let mut definitions = Vec::new(cursor.alloc());
    'each: while let Some(word) = cursor.definition_word() {
        let definition = definition(cursor, word.start)?;
        definitions.push(definition)?;
    }
    Ok(definitions)
}

/// A definition, after its word.
#[tactic(auto, using(crate::proofs::DefinitionRows::of_names))]
fn definition(cursor: &mut Cursor, at: usize) -> Result<Definition, ParseRefused>
    ensures spelled { IfOk result (λ found. Takes (Placed at DefinitionWord ∷ []) cursor.old
        (definition_spelling found) cursor.new) }
    ensures exact { Reads (AName ∷ Parameters ∷ The Equals ∷ AnExpression ∷ The Semicolon ∷ [])
        cursor.old result cursor.new }
{
    let name = cursor.declared_name()?;
    let (parenthesis, parameters) = parameters(cursor)?;
    let body = assigned_value(cursor)?;
    Ok(Definition {
        at,
        name,
        parenthesis,
        parameters,
        body,
    })
}

/// The parameters in their parentheses, with the place of the first one.
#[tactic(auto, using(crate::proofs::DefinitionRows::of_names))]
fn parameters(cursor: &mut Cursor) -> Result<(usize, Vec<Name>), ParseRefused>
    ensures spelled { IfOk result (λ found. Takes [] cursor.old (Placed found.0 OpenRound
        ∷ (parameters_spelling found.1.items ++ Separator CloseRound ∷ [])) cursor.new) }
    ensures exact { Reads (Parameters ∷ []) cursor.old result cursor.new }
{
    let parenthesis = cursor.open_call()?;
    let first = cursor.declared_name()?;
    let mut parameters = Vec::new(cursor.alloc());
    further_names(cursor, &mut parameters, MAX_FURTHER)?;
    cursor.close(Symbol::CloseRound)?;
    parameters.insert(0, first)?;
    Ok((parenthesis, parameters))
}

/// Adds the names of the further parameters, of which so many may come.
#[tactic(auto, using(crate::proofs::DefinitionRows::of_names))]
fn further_names(
    cursor: &mut Cursor,
    names: &mut Vec<Name>,
    left: usize,
) -> Result<(), ParseRefused>
    ensures spelled { OnOk result (Takes (flat_map further_name_spelling names.old.items) cursor.old
        (flat_map further_name_spelling names.new.items) cursor.new) }
    ensures exact { (others : List Part) → suc (levels_of others) ≡ cursor.old.levels →
        Agrees (λ _. refusal cursor.old.source.lang (length cursor.old.source.text)
        (The CloseRound ∷ others) cursor.new.tokens) result
        (refusal cursor.old.source.lang (length cursor.old.source.text)
        (MoreParameters left ∷ The CloseRound ∷ others) cursor.old.tokens) }
{
    let Some(at) = cursor.comma() else {
        return Ok(());
    };
    if left == 0 {
        return Err(ParseRefused::Syntax { at });
    }
    let name = cursor.declared_name()?;
    names.push(name)?;
    further_names(cursor, names, left - 1)
}
