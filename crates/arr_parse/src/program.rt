//! Whole programs.

ghost use Rattle.std.specs.Prelude.{◌≡◌, ◌<◌, ℕ, [], ◌∷◌, length, map, IfOk, OnOk, None, flat_map};
ghost use Rattle.arr_ast.specs.ProgramTree.{program_tree};
ghost use Rattle.arr_parse.specs.Mark.{mark};
ghost use Rattle.arr_parse.specs.ProgramSpelling.{top_statement_spelling};
ghost use Rattle.arr_parse.specs.Grammar.{Inputs, TopStatements, ATopStatement};
ghost use Rattle.arr_parse.specs.Reading.{refusal};
ghost use Rattle.arr_parse.specs.Parsed.{Agrees, IsTreeOf};
ghost use Rattle.arr_parse.specs.Steps.{Takes, Reads};

use crate::cursor::Cursor;
use crate::definition::definitions;
use crate::input::inputs;
use crate::refused::ParseRefused;
use crate::source::Source;
use crate::statement::{ended_value, statement};
use arr_ast::{Lang, Program, TopStatement};
use arr_lex::Token;
use std::alloc::Global;

/// The tree of a text in a language, of which these are the tokens.
pub fn parse(
    alloc: Global,
    text: &[u8],
    tokens: &[Token],
    lang: Lang,
) -> Result<Program, ParseRefused>
    // The tokens are the tree's.
    ensures tree { IfOk result
        (λ program. IsTreeOf lang text.now tokens.now (program_tree program)) }
    // It is refused exactly where reading refuses the tokens, unless memory runs out.
    ensures exact { Agrees (λ _. None) result
        (refusal lang (length text.now) (Inputs ∷ []) tokens.now) }
{
    let source = Source::new(alloc, lang, text, tokens)?;
    let mut cursor = Cursor::new(alloc, &source, tokens);
    let inputs = inputs(&mut cursor)?;
    let definitions = definitions(&mut cursor)?;
    let statements = top_statements(&mut cursor)?;
    Ok(Program {
        inputs,
        definitions,
        statements,
        end: text.len(),
    })
}

/// The statements of the top level, up to the text's end.
fn top_statements(cursor: &mut Cursor) -> Result<Vec<TopStatement>, ParseRefused>
    requires { cursor.old.levels ≡ 0 }
    ensures spelled { IfOk result (λ found. map (mark cursor.old.source) cursor.old.tokens
        ≡ flat_map top_statement_spelling found.items) }
    ensures exact { Agrees (λ _. None) result
        (refusal cursor.old.source.lang (length cursor.old.source.text) (TopStatements ∷ [])
        cursor.old.tokens) }
{
    let mut statements = Vec::new(cursor.alloc());
    'each: while !cursor.is_empty() {
        let next = top_statement(cursor)?;
        statements.push(next)?;
    }
    Ok(statements)
}

/// A statement of the top level, which is due.
fn top_statement(cursor: &mut Cursor) -> Result<TopStatement, ParseRefused>
    ensures spelled { IfOk result
        (λ found. Takes [] cursor.old (top_statement_spelling found) cursor.new) }
    ensures shorter { OnOk result (length cursor.new.tokens < length cursor.old.tokens) }
    ensures exact { Reads (ATopStatement ∷ []) cursor.old result cursor.new }
{
    if let Some(word) = cursor.output_word() {
        let value = ended_value(cursor)?;
        let at = word.start;
        return Ok(TopStatement::Output { at, value });
    }
    let inner = statement(cursor)?;
    Ok(TopStatement::Inner(inner))
}
