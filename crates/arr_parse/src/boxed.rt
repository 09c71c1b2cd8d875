//! Trees on the heap. Calls of the parser are nested as deep as the text is, so none of them holds a tree on the stack.

ghost use Rattle.std.specs.Prelude.{◌≡◌, [], ◌∷◌, ◌++◌, IfOk, OnOk, flat_map};
ghost use Rattle.arr_lex.specs.declared.token.Symbol.TheVariants.{Number, Minus, Star, OpenRound, Comma, CloseRound, Let as LetWord, Equals, Semicolon, For as ForWord, In, Range, OpenCurly, CloseCurly};
ghost use Rattle.arr_parse.specs.Mark.{Separator, Placed};
ghost use Rattle.arr_parse.specs.IndexSpelling.{sign_symbol, name_spelling, index_spelling, maybe_indices_spelling};
ghost use Rattle.arr_parse.specs.Spelling.{single_symbol, pair_symbol, expression_spelling, term_spelling, factor_spelling, added_term_spelling, times_factor_spelling, further_spelling};
ghost use Rattle.arr_parse.specs.ProgramSpelling.{statement_spelling};

use crate::refused::ParseRefused;
use arr_ast::{
    AddedTerm, Expression, Factor, IndexExpression, Indices, Name, PairFunction, Sign,
    SingleFunction, Statement, Term, TimesFactor,
};
use std::alloc::{AllocError, Global};

/// Drops what was read of a chain that is refused, away from the calls that are nested.
#[inline(never)]
pub fn let_go<X: Drop, Y: Drop>(refused: ParseRefused, _first: X, _further: Y) -> ParseRefused
    ensures { result ≡ refused }
{
    refused
}

/// The expression of these terms.
#[inline(never)]
#[tactic(auto, using(crate::proofs::Rows::of_expressions))]
pub fn expression_of(
    alloc: Global,
    first: Box<Term>,
    added: Vec<AddedTerm>,
) -> Result<Box<Expression>, AllocError>
    ensures { IfOk result (λ expression. expression_spelling expression.value
        ≡ term_spelling first.value ++ flat_map added_term_spelling added.items) }
{
    let first = Box::into_inner(first);
    Ok(Box::new(alloc, Expression { first, added })?)
}

/// The term of these factors.
#[inline(never)]
#[tactic(auto, using(crate::proofs::Rows::of_expressions))]
pub fn term_of(
    alloc: Global,
    first: Box<Factor>,
    times: Vec<TimesFactor>,
) -> Result<Box<Term>, AllocError>
    ensures { IfOk result (λ term. term_spelling term.value
        ≡ factor_spelling first.value ++ flat_map times_factor_spelling times.items) }
{
    let first = Box::into_inner(first);
    Ok(Box::new(alloc, Term { first, times })?)
}

/// Adds a further term.
#[inline(never)]
pub fn add_term(
    added: &mut Vec<AddedTerm>,
    sign: Sign,
    at: usize,
    term: Box<Term>,
) -> Result<(), AllocError>
    ensures { OnOk result (flat_map added_term_spelling added.new.items
        ≡ flat_map added_term_spelling added.old.items
        ++ (Placed at (sign_symbol sign) ∷ term_spelling term.value)) }
{
    let term = Box::into_inner(term);
    added.push(AddedTerm { sign, at, term })?;
    Ok(())
}

/// Adds a further factor.
#[inline(never)]
pub fn add_factor(
    times: &mut Vec<TimesFactor>,
    at: usize,
    factor: Box<Factor>,
) -> Result<(), AllocError>
    ensures { OnOk result (flat_map times_factor_spelling times.new.items
        ≡ flat_map times_factor_spelling times.old.items
        ++ (Placed at Star ∷ factor_spelling factor.value)) }
{
    let factor = Box::into_inner(factor);
    times.push(TimesFactor { at, factor })?;
    Ok(())
}

/// A number.
#[inline(never)]
pub fn number(alloc: Global, at: usize, value: u32) -> Result<Box<Factor>, AllocError>
    ensures { IfOk result (λ factor. factor_spelling factor.value ≡ Placed at (Number value) ∷ []) }
{
    Ok(Box::new(alloc, Factor::Number { at, value })?)
}

/// A name, or its element at the indices.
#[inline(never)]
pub fn named(alloc: Global, name: Name, indices: Option<Indices>) -> Result<Box<Factor>, AllocError>
    ensures { IfOk result (λ factor. factor_spelling factor.value
        ≡ name_spelling name ++ maybe_indices_spelling indices) }
{
    let factor = match indices {
        None => Factor::Name(name),
        Some(indices) => Factor::Element { name, indices },
    };
    Ok(Box::new(alloc, factor)?)
}

/// A unary `-` and its operand.
#[inline(never)]
pub fn negation(alloc: Global, at: usize, operand: Box<Factor>) -> Result<Box<Factor>, AllocError>
    ensures { IfOk result (λ factor. factor_spelling factor.value
        ≡ Placed at Minus ∷ factor_spelling operand.value) }
{
    Ok(Box::new(alloc, Factor::Negation { at, operand })?)
}

/// An expression in parentheses.
#[inline(never)]
pub fn parenthesized(
    alloc: Global,
    at: usize,
    inner: Box<Expression>,
) -> Result<Box<Factor>, AllocError>
    ensures { IfOk result (λ factor. factor_spelling factor.value ≡ Placed at OpenRound
        ∷ (expression_spelling inner.value ++ Separator CloseRound ∷ [])) }
{
    Ok(Box::new(alloc, Factor::Parenthesized { at, inner })?)
}

/// A call of a function of one argument, with the places of its word and of its `(`.
#[inline(never)]
pub fn single_call(
    alloc: Global,
    function: SingleFunction,
    at: usize,
    parenthesis: usize,
    argument: Box<Expression>,
) -> Result<Box<Factor>, AllocError>
    ensures { IfOk result (λ factor. factor_spelling factor.value
        ≡ Placed at (single_symbol function) ∷ (Placed parenthesis OpenRound
        ∷ (expression_spelling argument.value ++ Separator CloseRound ∷ []))) }
{
    let call = Factor::Single {
        function,
        at,
        parenthesis,
        argument,
    };
    Ok(Box::new(alloc, call)?)
}

/// A call of a function of two arguments, with the places of its word and of its `(`.
#[inline(never)]
pub fn pair_call(
    alloc: Global,
    function: PairFunction,
    at: usize,
    parenthesis: usize,
    left: Box<Expression>,
    right: Box<Expression>,
) -> Result<Box<Factor>, AllocError>
    ensures { IfOk result (λ factor. factor_spelling factor.value
        ≡ Placed at (pair_symbol function) ∷ (Placed parenthesis OpenRound
        ∷ (expression_spelling left.value ++ (Separator Comma
        ∷ (expression_spelling right.value ++ Separator CloseRound ∷ []))))) }
{
    let call = Factor::Pair {
        function,
        at,
        parenthesis,
        left,
        right,
    };
    Ok(Box::new(alloc, call)?)
}

/// A call of a definition, with the place of its `(`.
#[inline(never)]
#[tactic(auto, using(crate::proofs::Rows::of_expressions))]
pub fn call_of(
    alloc: Global,
    name: Name,
    parenthesis: usize,
    first: Box<Expression>,
    further: Vec<Expression>,
) -> Result<Box<Factor>, AllocError>
    ensures { IfOk result (λ factor. factor_spelling factor.value
        ≡ name_spelling name ++ (Placed parenthesis OpenRound ∷ (expression_spelling first.value
        ++ (flat_map further_spelling further.items ++ Separator CloseRound ∷ [])))) }
{
    let call = Factor::Call {
        name,
        parenthesis,
        first,
        further,
    };
    Ok(Box::new(alloc, call)?)
}

/// Adds a further argument.
#[inline(never)]
pub fn add_argument(
    further: &mut Vec<Expression>,
    argument: Box<Expression>,
) -> Result<(), AllocError>
    ensures { OnOk result (flat_map further_spelling further.new.items
        ≡ flat_map further_spelling further.old.items
        ++ (Separator Comma ∷ expression_spelling argument.value)) }
{
    further.push(Box::into_inner(argument))?;
    Ok(())
}

/// A declaration.
#[inline(never)]
pub fn declared(
    alloc: Global,
    at: usize,
    name: Name,
    value: Expression,
) -> Result<Box<Statement>, AllocError>
    ensures { IfOk result (λ statement. statement_spelling statement.value
        ≡ Placed at LetWord ∷ (name_spelling name ++ (Separator Equals
        ∷ (expression_spelling value ++ Separator Semicolon ∷ [])))) }
{
    Ok(Box::new(alloc, Statement::Let { at, name, value })?)
}

/// An assignment to a name, or to its element at the indices.
#[inline(never)]
pub fn assigned(
    alloc: Global,
    name: Name,
    indices: Option<Indices>,
    value: Expression,
) -> Result<Box<Statement>, AllocError>
    ensures { IfOk result (λ statement. statement_spelling statement.value
        ≡ name_spelling name ++ (maybe_indices_spelling indices
        ++ (Separator Equals ∷ (expression_spelling value ++ Separator Semicolon ∷ [])))) }
{
    let statement = match indices {
        None => Statement::Set { name, value },
        Some(indices) => Statement::SetElement {
            name,
            indices,
            value,
        },
    };
    Ok(Box::new(alloc, statement)?)
}

/// A loop.
#[inline(never)]
#[tactic(auto, using(crate::proofs::StatementRows::of_statements))]
pub fn loop_of(
    alloc: Global,
    at: usize,
    name: Name,
    low: IndexExpression,
    high: IndexExpression,
    body: Vec<Statement>,
) -> Result<Box<Statement>, AllocError>
    ensures { IfOk result (λ statement. statement_spelling statement.value
        ≡ Placed at ForWord ∷ (name_spelling name ++ (Separator In ∷ (index_spelling low
        ++ (Separator Range ∷ (index_spelling high ++ (Separator OpenCurly
        ∷ (flat_map statement_spelling body.items ++ Separator CloseCurly ∷ [])))))))) }
{
    let counted = Statement::For {
        at,
        name,
        low,
        high,
        body,
    };
    Ok(Box::new(alloc, counted)?)
}

/// Adds a further statement.
#[inline(never)]
pub fn add_statement(
    statements: &mut Vec<Statement>,
    next: Box<Statement>,
) -> Result<(), AllocError>
    ensures { OnOk result (flat_map statement_spelling statements.new.items
        ≡ flat_map statement_spelling statements.old.items ++ statement_spelling next.value) }
{
    statements.push(Box::into_inner(next))?;
    Ok(())
}
