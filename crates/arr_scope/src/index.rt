//! The values of index expressions.

ghost use Rattle.std.specs.Prelude.{◌≡◌, ◌≢◌, ◌≤◌, ◌^◌, nat_abs, ◌*ℤ◌, IfOk, IfErr};
ghost use Rattle.arr_ast.specs.IndexTree.{sum_tree, product_tree, factor_tree};
ghost use Rattle.arr_scope.specs.Agrees.{Agrees};
ghost use Rattle.arr_scope.specs.Index.{index_value as value_of, index_term_value, index_factor_value, index_at as place_of, index_term_at, index_factor_at, within as part_within, signed, turn_of};
ghost use Rattle.arr_scope.specs.Scope.{binding_of};
ghost use Rattle.arr_scope.specs.declared.refused.CheckRefused.TheVariants.{Memory};
ghost use Rattle.arr_scope.specs.IndexSteps.{added_index_term_value, times_index_factor_value};

use crate::bound::Bound;
use crate::refused::{CheckKind, CheckRefused};
use crate::scope::Scope;
use arr_ast::{
    AddedIndexTerm, IndexExpression, IndexFactor, IndexTerm, Name, Sign, TimesIndexFactor,
};

const MAX_PART: u64 = 2_147_483_648;

/// The place of an index expression's first byte.
#[tactic(auto, using(crate::proofs::IndexRows::of_indices))]
pub fn index_at(index: &IndexExpression) -> usize
    ensures { result ≡ place_of (sum_tree index.now) }
{
    match &index.first.first {
        IndexFactor::Number { at, .. } => *at,
        IndexFactor::Name(name) => name.at,
        IndexFactor::Parenthesized { at, .. } => *at,
    }
}

/// The value of an index expression.
#[cycle(index)]
#[tactic(auto, using(crate::proofs::IndexRows::of_indices))]
pub fn index_value<A: Drop>(
    scope: &Scope<A>,
    whole: usize,
    index: &IndexExpression,
) -> Result<i64, CheckRefused>
    ensures value { Agrees (λ z. z) result (value_of scope.now whole (sum_tree index.now)) }
    ensures small { IfOk result (λ z. nat_abs z ≤ 2 ^ 31) }
    ensures without_memory { IfErr result (λ refused. refused ≢ Memory) }
{
    let mut value = term_value(scope, whole, &index.first)?;
    'each: for added in &index.added {
        value = added_value(scope, whole, value, added)?;
    }
    Ok(value)
}

#[cycle(index)]
#[tactic(auto, using(crate::proofs::IndexRows::of_indices))]
fn added_value<A: Drop>(
    scope: &Scope<A>,
    whole: usize,
    left: i64,
    added: &AddedIndexTerm,
) -> Result<i64, CheckRefused>
    requires { nat_abs left ≤ 2 ^ 31 }
    ensures value { Agrees (λ z. z) result (added_index_term_value scope.now whole added.now left) }
    ensures small { IfOk result (λ z. nat_abs z ≤ 2 ^ 31) }
    ensures without_memory { IfErr result (λ refused. refused ≢ Memory) }
{
    let right = term_value(scope, whole, &added.term)?;
    sum_within(whole, added.sign, left, right)
}

/// A sum or a difference, which is a part.
#[tactic(auto, using(crate::proofs::IndexRows::of_indices))]
fn sum_within(whole: usize, sign: Sign, left: i64, right: i64) -> Result<i64, CheckRefused>
    requires left { nat_abs left ≤ 2 ^ 31 }
    requires right { nat_abs right ≤ 2 ^ 31 }
    ensures value { Agrees (λ z. z) result (part_within whole (signed sign left right)) }
    ensures small { IfOk result (λ z. nat_abs z ≤ 2 ^ 31) }
    ensures without_memory { IfErr result (λ refused. refused ≢ Memory) }
{
    match sign {
        Sign::Plus => within(whole, left + right),
        Sign::Minus => within(whole, left - right),
    }
}

#[cycle(index)]
#[tactic(auto, using(crate::proofs::IndexRows::of_indices))]
fn term_value<A: Drop>(
    scope: &Scope<A>,
    whole: usize,
    term: &IndexTerm,
) -> Result<i64, CheckRefused>
    ensures value { Agrees (λ z. z) result
        (index_term_value scope.now whole (product_tree term.now)) }
    ensures small { IfOk result (λ z. nat_abs z ≤ 2 ^ 31) }
    ensures without_memory { IfErr result (λ refused. refused ≢ Memory) }
{
    let mut value = factor_value(scope, whole, &term.first)?;
    'each: for times in &term.times {
        value = times_value(scope, whole, value, times)?;
    }
    Ok(value)
}

#[cycle(index)]
#[tactic(auto, using(crate::proofs::IndexRows::of_indices))]
fn times_value<A: Drop>(
    scope: &Scope<A>,
    whole: usize,
    left: i64,
    times: &TimesIndexFactor,
) -> Result<i64, CheckRefused>
    requires { nat_abs left ≤ 2 ^ 31 }
    ensures value { Agrees (λ z. z) result
        (times_index_factor_value scope.now whole times.now left) }
    ensures small { IfOk result (λ z. nat_abs z ≤ 2 ^ 31) }
    ensures without_memory { IfErr result (λ refused. refused ≢ Memory) }
{
    let right = factor_value(scope, whole, &times.factor)?;
    product_within(whole, left, right)
}

/// A product, which is a part.
#[tactic(auto, using(crate::proofs::IndexRows::of_indices))]
fn product_within(whole: usize, left: i64, right: i64) -> Result<i64, CheckRefused>
    requires left { nat_abs left ≤ 2 ^ 31 }
    requires right { nat_abs right ≤ 2 ^ 31 }
    ensures value { Agrees (λ z. z) result (part_within whole (left *ℤ right)) }
    ensures small { IfOk result (λ z. nat_abs z ≤ 2 ^ 31) }
    ensures without_memory { IfErr result (λ refused. refused ≢ Memory) }
{
    within(whole, left * right)
}

#[cycle(index)]
#[tactic(auto, using(crate::proofs::IndexRows::of_indices))]
fn factor_value<A: Drop>(
    scope: &Scope<A>,
    whole: usize,
    factor: &IndexFactor,
) -> Result<i64, CheckRefused>
    ensures value { Agrees (λ z. z) result
        (index_factor_value scope.now whole (factor_tree factor.now)) }
    ensures small { IfOk result (λ z. nat_abs z ≤ 2 ^ 31) }
    ensures without_memory { IfErr result (λ refused. refused ≢ Memory) }
{
    match factor {
        IndexFactor::Number { value, .. } => within(whole, i64::from(*value)),
        IndexFactor::Name(name) => turn(scope, whole, name),
        IndexFactor::Parenthesized { inner, .. } => index_value(scope, whole, inner),
    }
}

/// A part of the index expression at a place.
fn within(whole: usize, value: i64) -> Result<i64, CheckRefused>
    ensures value { Agrees (λ z. z) result (part_within whole value) }
    ensures small { IfOk result (λ z. nat_abs z ≤ 2 ^ 31) }
    ensures without_memory { IfErr result (λ refused. refused ≢ Memory) }
{
    if value.unsigned_abs() > MAX_PART {
        return Err(CheckRefused::Bad {
            at: whole,
            kind: CheckKind::IndexSize,
        });
    }
    Ok(value)
}

/// The number of a loop's turn.
fn turn<A: Drop>(scope: &Scope<A>, whole: usize, name: &Name) -> Result<i64, CheckRefused>
    ensures value { Agrees (λ z. z) result
        (turn_of whole name.now.at (binding_of name.now.number scope.now)) }
    ensures small { IfOk result (λ z. nat_abs z ≤ 2 ^ 31) }
    ensures without_memory { IfErr result (λ refused. refused ≢ Memory) }
{
    match scope.get(name.number) {
        Some(Bound::Turn(number)) => within(whole, i64::from(*number)),
        _ => Err(CheckRefused::Bad {
            at: name.at,
            kind: CheckKind::Unknown,
        }),
    }
}
