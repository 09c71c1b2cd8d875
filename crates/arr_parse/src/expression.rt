//! Expressions, from the left.

ghost use Rattle.std.specs.Prelude.{◌≡◌, ◌<◌, [], ◌∷◌, ◌++◌, List, Some, length, map, IfOk, OnOk, flat_map};
ghost use Rattle.arr_lex.specs.declared.token.Symbol.TheVariants.{Minus, OpenRound, CloseRound};
ghost use Rattle.arr_parse.specs.Mark.{Placed, Separator, mark};
ghost use Rattle.arr_parse.specs.IndexSpelling.{name_spelling};
ghost use Rattle.arr_parse.specs.Spelling.{single_symbol, pair_symbol, expression_spelling, term_spelling, factor_spelling, added_term_spelling, times_factor_spelling, further_spelling};
ghost use Rattle.arr_parse.specs.Grammar.{Part, The, AnExpression, MoreTerms, ATerm, MoreFactors, AFactor, EndOfNegation, AfterName, MoreArguments, FirstIndex, OneArgument, TwoArguments};
ghost use Rattle.arr_parse.specs.Reading.{levels as levels_of, unless_refused, refusal};
ghost use Rattle.arr_parse.specs.Parsed.{Agrees};
ghost use Rattle.arr_parse.specs.Steps.{Takes, Reads, Closes, EndsLevel};

use crate::boxed::{
    add_argument, add_factor, add_term, call_of, expression_of, let_go, named, negation, number,
    pair_call, parenthesized, single_call, term_of,
};
use crate::cursor::Cursor;
use crate::indices::maybe_indices;
use crate::refused::ParseRefused;
use arr_ast::{
    AddedTerm, Expression, Factor, Name, PairFunction, SingleFunction, Term, TimesFactor,
};
use arr_lex::Symbol;

/// The expression that is due.
pub fn expression(cursor: &mut Cursor) -> Result<Expression, ParseRefused>
    ensures spelled { IfOk result
        (λ found. Takes [] cursor.old (expression_spelling found) cursor.new) }
    ensures exact { Reads (AnExpression ∷ []) cursor.old result cursor.new }
{
    let found = boxed_expression(cursor)?;
    Ok(Box::into_inner(found))
}

/// The same on the heap, as all that is nested in it is made.
#[cycle(expression)]
#[inline(never)]
fn boxed_expression(cursor: &mut Cursor) -> Result<Box<Expression>, ParseRefused>
    ensures spelled { IfOk result
        (λ found. Takes [] cursor.old (expression_spelling found.value) cursor.new) }
    ensures exact { Reads (AnExpression ∷ []) cursor.old result cursor.new }
{
    let first = term(cursor)?;
    let mut added = Vec::new(cursor.alloc());
    match added_terms(cursor, &mut added) {
        Ok(()) => Ok(expression_of(cursor.alloc(), first, added)?),
        Err(refused) => Err(let_go(refused, first, added)),
    }
}

/// Adds the further terms of an expression.
#[cycle(expression)]
fn added_terms(cursor: &mut Cursor, added: &mut Vec<AddedTerm>) -> Result<(), ParseRefused>
    ensures spelled { OnOk result (Takes (flat_map added_term_spelling added.old.items) cursor.old
        (flat_map added_term_spelling added.new.items) cursor.new) }
    ensures exact { Reads (MoreTerms ∷ []) cursor.old result cursor.new }
{
    while let Some((sign, at)) = cursor.added_sign() {
        let term = term(cursor)?;
        add_term(added, sign, at, term)?;
    }
    Ok(())
}

#[cycle(expression)]
#[inline(never)]
fn term(cursor: &mut Cursor) -> Result<Box<Term>, ParseRefused>
    ensures spelled { IfOk result
        (λ found. Takes [] cursor.old (term_spelling found.value) cursor.new) }
    ensures exact { Reads (ATerm ∷ []) cursor.old result cursor.new }
{
    let first = factor(cursor)?;
    let mut times = Vec::new(cursor.alloc());
    match times_factors(cursor, &mut times) {
        Ok(()) => Ok(term_of(cursor.alloc(), first, times)?),
        Err(refused) => Err(let_go(refused, first, times)),
    }
}

/// Adds the further factors of a term.
#[cycle(expression)]
fn times_factors(cursor: &mut Cursor, times: &mut Vec<TimesFactor>) -> Result<(), ParseRefused>
    ensures spelled { OnOk result (Takes (flat_map times_factor_spelling times.old.items) cursor.old
        (flat_map times_factor_spelling times.new.items) cursor.new) }
    ensures exact { Reads (MoreFactors ∷ []) cursor.old result cursor.new }
{
    while let Some(at) = cursor.times_sign() {
        let factor = factor(cursor)?;
        add_factor(times, at, factor)?;
    }
    Ok(())
}

#[cycle(expression)]
#[inline(never)]
fn factor(cursor: &mut Cursor) -> Result<Box<Factor>, ParseRefused>
    ensures spelled { IfOk result
        (λ found. Takes [] cursor.old (factor_spelling found.value) cursor.new) }
    ensures exact { Reads (AFactor ∷ []) cursor.old result cursor.new }
{
    let token = cursor.next()?;
    let at = token.start;
    match token.symbol {
        Symbol::Number(value) => Ok(number(cursor.alloc(), at, value)?),
        Symbol::Name => {
            let name = cursor.name(token);
            after_name(cursor, name)
        }
        Symbol::Minus => negated(cursor, at),
        Symbol::OpenRound => in_parentheses(cursor, at),
        Symbol::Sum => single(cursor, SingleFunction::Sum, at),
        Symbol::Transpose => single(cursor, SingleFunction::Transpose, at),
        Symbol::Scale => pair(cursor, PairFunction::Scale, at),
        Symbol::Dot => pair(cursor, PairFunction::Dot, at),
        Symbol::MatMul => pair(cursor, PairFunction::MatMul, at),
        _ => Err(ParseRefused::Syntax { at }),
    }
}

/// A negation, after its `-`.
#[cycle(expression)]
#[inline(never)]
fn negated(cursor: &mut Cursor, at: usize) -> Result<Box<Factor>, ParseRefused>
    ensures spelled { IfOk result (λ found. Takes (Placed at Minus ∷ []) cursor.old
        (factor_spelling found.value) cursor.new) }
    ensures exact { (due : List Part) → levels_of due ≡ cursor.old.levels →
        Agrees (λ _. refusal cursor.old.source.lang (length cursor.old.source.text) due
        cursor.new.tokens) result
        (unless_refused at (Some (AFactor ∷ EndOfNegation ∷ due)) (λ next.
        refusal cursor.old.source.lang (length cursor.old.source.text) next cursor.old.tokens)) }
{
    cursor.open(at)?;
    let operand = factor(cursor)?;
    cursor.end_level();
    Ok(negation(cursor.alloc(), at, operand)?)
}

/// An expression in parentheses, after its `(`.
#[cycle(expression)]
#[inline(never)]
fn in_parentheses(cursor: &mut Cursor, at: usize) -> Result<Box<Factor>, ParseRefused>
    ensures spelled { IfOk result (λ found. Takes (Placed at OpenRound ∷ []) cursor.old
        (factor_spelling found.value) cursor.new) }
    ensures exact { (due : List Part) → levels_of due ≡ cursor.old.levels →
        Agrees (λ _. refusal cursor.old.source.lang (length cursor.old.source.text) due
        cursor.new.tokens) result
        (unless_refused at (Some (AnExpression ∷ The CloseRound ∷ due)) (λ next.
        refusal cursor.old.source.lang (length cursor.old.source.text) next cursor.old.tokens)) }
{
    cursor.open(at)?;
    let inner = closed_expression(cursor)?;
    Ok(parenthesized(cursor.alloc(), at, inner)?)
}

/// An expression and the `)` after it.
#[cycle(expression)]
#[inline(never)]
fn closed_expression(cursor: &mut Cursor) -> Result<Box<Expression>, ParseRefused>
    requires { 0 < cursor.old.levels }
    ensures spelled { IfOk result (λ found. map (mark cursor.old.source) cursor.old.tokens
        ≡ expression_spelling found.value
        ++ (Separator CloseRound ∷ map (mark cursor.old.source) cursor.new.tokens)) }
    ensures ends { OnOk result (EndsLevel cursor.old cursor.new) }
    ensures exact { Closes (AnExpression ∷ []) cursor.old result cursor.new }
{
    let inner = boxed_expression(cursor)?;
    cursor.close(Symbol::CloseRound)?;
    Ok(inner)
}

/// A name, its element at the indices after it, or a call with the arguments after it.
#[cycle(expression)]
#[inline(never)]
fn after_name(cursor: &mut Cursor, name: Name) -> Result<Box<Factor>, ParseRefused>
    ensures spelled { IfOk result (λ found.
        Takes (name_spelling name) cursor.old (factor_spelling found.value) cursor.new) }
    ensures exact { Reads (AfterName ∷ []) cursor.old result cursor.new }
{
    let Some(token) = cursor.open_arguments() else {
        return name_or_element(cursor, name);
    };
    cursor.open(token.start)?;
    call(cursor, name, token.start)
}

/// A name, or its element at the indices after it.
#[inline(never)]
fn name_or_element(cursor: &mut Cursor, name: Name) -> Result<Box<Factor>, ParseRefused>
    ensures spelled { IfOk result (λ found.
        Takes (name_spelling name) cursor.old (factor_spelling found.value) cursor.new) }
    ensures exact { Reads (FirstIndex ∷ []) cursor.old result cursor.new }
{
    let indices = maybe_indices(cursor)?;
    Ok(named(cursor.alloc(), name, indices)?)
}

/// A call, after the `(` of its arguments.
#[cycle(expression)]
#[inline(never)]
fn call(cursor: &mut Cursor, name: Name, parenthesis: usize) -> Result<Box<Factor>, ParseRefused>
    requires { 0 < cursor.old.levels }
    ensures spelled { IfOk result (λ found.
        name_spelling name ++ (Placed parenthesis OpenRound
        ∷ map (mark cursor.old.source) cursor.old.tokens)
        ≡ factor_spelling found.value ++ map (mark cursor.old.source) cursor.new.tokens) }
    ensures ends { OnOk result (EndsLevel cursor.old cursor.new) }
    ensures exact { Closes (AnExpression ∷ MoreArguments ∷ []) cursor.old result
        cursor.new }
{
    let first = boxed_expression(cursor)?;
    let mut further = Vec::new(cursor.alloc());
    match closed_arguments(cursor, &mut further) {
        Ok(()) => Ok(call_of(cursor.alloc(), name, parenthesis, first, further)?),
        Err(refused) => Err(let_go(refused, first, further)),
    }
}

/// Adds the further arguments of a call, up to the `)` after them.
#[cycle(expression)]
#[inline(never)]
fn closed_arguments(cursor: &mut Cursor, further: &mut Vec<Expression>) -> Result<(), ParseRefused>
    requires { 0 < cursor.old.levels }
    ensures spelled { OnOk result (flat_map further_spelling further.old.items
        ++ map (mark cursor.old.source) cursor.old.tokens
        ≡ flat_map further_spelling further.new.items
        ++ (Separator CloseRound ∷ map (mark cursor.old.source) cursor.new.tokens)) }
    ensures ends { OnOk result (EndsLevel cursor.old cursor.new) }
    ensures exact { Closes (MoreArguments ∷ []) cursor.old result cursor.new }
{
    further_arguments(cursor, further)?;
    cursor.close(Symbol::CloseRound)?;
    Ok(())
}

/// Adds the further arguments of a call.
#[cycle(expression)]
fn further_arguments(cursor: &mut Cursor, further: &mut Vec<Expression>) -> Result<(), ParseRefused>
    ensures spelled { OnOk result (Takes (flat_map further_spelling further.old.items) cursor.old
        (flat_map further_spelling further.new.items) cursor.new) }
    ensures exact { Reads (MoreArguments ∷ []) cursor.old result cursor.new }
{
    while let Some(_) = cursor.comma() {
        let argument = boxed_expression(cursor)?;
        add_argument(further, argument)?;
    }
    Ok(())
}

/// A call of a function of one argument, after the function's word.
#[cycle(expression)]
#[inline(never)]
fn single(
    cursor: &mut Cursor,
    function: SingleFunction,
    at: usize,
) -> Result<Box<Factor>, ParseRefused>
    ensures spelled { IfOk result (λ found. Takes (Placed at (single_symbol function) ∷ [])
        cursor.old (factor_spelling found.value) cursor.new) }
    ensures exact { Reads (OneArgument ∷ []) cursor.old result cursor.new }
{
    let parenthesis = cursor.open_call()?;
    let argument = closed_expression(cursor)?;
    let call = single_call(cursor.alloc(), function, at, parenthesis, argument)?;
    Ok(call)
}

/// A call of a function of two arguments, after the function's word.
#[cycle(expression)]
#[inline(never)]
fn pair(cursor: &mut Cursor, function: PairFunction, at: usize) -> Result<Box<Factor>, ParseRefused>
    ensures spelled { IfOk result (λ found. Takes (Placed at (pair_symbol function) ∷ [])
        cursor.old (factor_spelling found.value) cursor.new) }
    ensures exact { Reads (TwoArguments ∷ []) cursor.old result cursor.new }
{
    let parenthesis = cursor.open_call()?;
    let left = boxed_expression(cursor)?;
    cursor.take(Symbol::Comma)?;
    let right = closed_expression(cursor)?;
    let call = pair_call(cursor.alloc(), function, at, parenthesis, left, right)?;
    Ok(call)
}
