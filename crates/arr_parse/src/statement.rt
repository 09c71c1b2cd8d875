//! Statements, and the blocks of loops.

ghost use Rattle.std.specs.Prelude.{◌<◌, [], ◌∷◌, ◌++◌, length, IfOk, OnOk, flat_map};
ghost use Rattle.arr_lex.specs.declared.token.Symbol.TheVariants.{In, Range, Equals, Semicolon, OpenCurly, CloseCurly, For as ForWord, Let as LetWord};
ghost use Rattle.arr_parse.specs.Mark.{Separator, Placed};
ghost use Rattle.arr_parse.specs.IndexSpelling.{name_spelling, index_spelling};
ghost use Rattle.arr_parse.specs.Spelling.{expression_spelling};
ghost use Rattle.arr_parse.specs.ProgramSpelling.{statement_spelling};
ghost use Rattle.arr_parse.specs.Grammar.{The, AName, AnExpression, AnIndex, FirstIndex, AStatement, Statements, Block};
ghost use Rattle.arr_parse.specs.Steps.{Takes, Reads};

use crate::boxed::{add_statement, assigned, declared, loop_of};
use crate::cursor::Cursor;
use crate::expression::expression;
use crate::index::index_expression;
use crate::indices::maybe_indices;
use crate::refused::ParseRefused;
use arr_ast::{Expression, IndexExpression, Name, Statement};
use arr_lex::Symbol;

/// The statement that is due.
pub fn statement(cursor: &mut Cursor) -> Result<Statement, ParseRefused>
    ensures spelled { IfOk result
        (λ found. Takes [] cursor.old (statement_spelling found) cursor.new) }
    ensures shorter { OnOk result (length cursor.new.tokens < length cursor.old.tokens) }
    ensures exact { Reads (AStatement ∷ []) cursor.old result cursor.new }
{
    let found = boxed_statement(cursor)?;
    Ok(Box::into_inner(found))
}

/// The same on the heap, as all that is nested in it is made.
#[cycle(statement)]
#[inline(never)]
fn boxed_statement(cursor: &mut Cursor) -> Result<Box<Statement>, ParseRefused>
    ensures spelled { IfOk result
        (λ found. Takes [] cursor.old (statement_spelling found.value) cursor.new) }
    ensures shorter { OnOk result (length cursor.new.tokens < length cursor.old.tokens) }
    ensures exact { Reads (AStatement ∷ []) cursor.old result cursor.new }
{
    let token = cursor.next()?;
    let at = token.start;
    match token.symbol {
        Symbol::Let => declaration(cursor, at),
        Symbol::Name => {
            let name = cursor.name(token);
            assignment(cursor, name)
        }
        Symbol::For => counted_loop(cursor, at),
        _ => Err(ParseRefused::Syntax { at }),
    }
}

/// A declaration, after its word.
#[inline(never)]
fn declaration(cursor: &mut Cursor, at: usize) -> Result<Box<Statement>, ParseRefused>
    ensures spelled { IfOk result (λ found. Takes (Placed at LetWord ∷ []) cursor.old
        (statement_spelling found.value) cursor.new) }
    ensures exact { Reads (AName ∷ The Equals ∷ AnExpression ∷ The Semicolon ∷ [])
        cursor.old result cursor.new }
{
    let name = cursor.declared_name()?;
    let value = assigned_value(cursor)?;
    Ok(declared(cursor.alloc(), at, name, value)?)
}

/// An assignment, after its name.
#[inline(never)]
fn assignment(cursor: &mut Cursor, name: Name) -> Result<Box<Statement>, ParseRefused>
    ensures spelled { IfOk result (λ found. Takes (name_spelling name) cursor.old
        (statement_spelling found.value) cursor.new) }
    ensures exact { Reads (FirstIndex ∷ The Equals ∷ AnExpression ∷ The Semicolon ∷ [])
        cursor.old result cursor.new }
{
    let indices = maybe_indices(cursor)?;
    let value = assigned_value(cursor)?;
    Ok(assigned(cursor.alloc(), name, indices, value)?)
}

/// `= e ;`
pub fn assigned_value(cursor: &mut Cursor) -> Result<Expression, ParseRefused>
    ensures spelled { IfOk result (λ found. Takes [] cursor.old
        (Separator Equals ∷ (expression_spelling found ++ Separator Semicolon ∷ [])) cursor.new) }
    ensures exact { Reads (The Equals ∷ AnExpression ∷ The Semicolon ∷ [])
        cursor.old result cursor.new }
{
    cursor.take(Symbol::Equals)?;
    ended_value(cursor)
}

/// `e ;`
#[tactic(auto, using(crate::proofs::Rows::of_expressions))]
pub fn ended_value(cursor: &mut Cursor) -> Result<Expression, ParseRefused>
    ensures spelled { IfOk result (λ found. Takes [] cursor.old
        (expression_spelling found ++ Separator Semicolon ∷ []) cursor.new) }
    ensures exact { Reads (AnExpression ∷ The Semicolon ∷ []) cursor.old result cursor.new }
{
    let value = expression(cursor)?;
    cursor.take(Symbol::Semicolon)?;
    Ok(value)
}

/// A loop, after its word.
#[cycle(statement)]
#[inline(never)]
fn counted_loop(cursor: &mut Cursor, at: usize) -> Result<Box<Statement>, ParseRefused>
    ensures spelled { IfOk result (λ found. Takes (Placed at ForWord ∷ []) cursor.old
        (statement_spelling found.value) cursor.new) }
    ensures exact { Reads (AName ∷ The In ∷ AnIndex ∷ The Range ∷ AnIndex ∷ Block ∷ [])
        cursor.old result cursor.new }
{
    let name = cursor.declared_name()?;
    let (low, high) = bounds(cursor)?;
    let body = block(cursor)?;
    Ok(loop_of(cursor.alloc(), at, name, low, high, body)?)
}

/// `in l .. h`
#[inline(never)]
fn bounds(cursor: &mut Cursor) -> Result<(IndexExpression, IndexExpression), ParseRefused>
    ensures spelled { IfOk result (λ found. Takes [] cursor.old (Separator In
        ∷ (index_spelling found.0 ++ Separator Range ∷ index_spelling found.1)) cursor.new) }
    ensures exact { Reads (The In ∷ AnIndex ∷ The Range ∷ AnIndex ∷ [])
        cursor.old result cursor.new }
{
    cursor.take(Symbol::In)?;
    let low = index_expression(cursor)?;
    cursor.take(Symbol::Range)?;
    let high = index_expression(cursor)?;
    Ok((low, high))
}

/// The statements of a block, with its brackets.
#[cycle(statement)]
#[inline(never)]
fn block(cursor: &mut Cursor) -> Result<Vec<Statement>, ParseRefused>
    ensures spelled { IfOk result (λ found. Takes [] cursor.old (Separator OpenCurly
        ∷ (flat_map statement_spelling found.items ++ Separator CloseCurly ∷ [])) cursor.new) }
    ensures exact { Reads (Block ∷ []) cursor.old result cursor.new }
{
    let token = cursor.next()?;
    match token.symbol {
        Symbol::OpenCurly => {
            cursor.open(token.start)?;
            let body = statements(cursor)?;
            cursor.close(Symbol::CloseCurly)?;
            Ok(body)
        }
        _ => Err(ParseRefused::Syntax { at: token.start }),
    }
}

/// As many statements as there are.
#[cycle(statement)]
#[inline(never)]
fn statements(cursor: &mut Cursor) -> Result<Vec<Statement>, ParseRefused>
    ensures spelled { IfOk result (λ found. Takes [] cursor.old
        (flat_map statement_spelling found.items) cursor.new) }
    ensures exact { Reads (Statements ∷ []) cursor.old result cursor.new }
{
    let mut statements = Vec::new(cursor.alloc());
    'each: while cursor.begins_statement() {
        let next = boxed_statement(cursor)?;
        add_statement(&mut statements, next)?;
    }
    Ok(statements)
}
