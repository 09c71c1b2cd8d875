//! The run of statements.

ghost use Rattle.std.specs.Prelude.{◌≡◌, ◌≤◌, ◌-◌, IfOk, IfErr, OnOk, map};
ghost use Rattle.arr_ast.specs.IndexTree.{sum_tree};
ghost use Rattle.arr_ast.specs.ExpressionTree.{name_tree, indices_tree, expression_tree};
ghost use Rattle.arr_ast.specs.ProgramTree.{statement_tree};
ghost use Rattle.arr_scope.specs.Agrees.{Agrees, each};
ghost use Rattle.arr_run.specs.Bounds.{bounds_of, turns_of};
ghost use Rattle.arr_run.specs.State.{bound, state, if_free};
ghost use Rattle.arr_run.specs.Steps.{newest_first};
ghost use Rattle.arr_run.specs.Definitions.{if_new};
ghost use Rattle.arr_run.specs.Statement.{after_statement, declared, assigned as after_assignment, element_assigned, counted_loop as after_loop, if_of, stepped, target_shape as shape_of_target, turns, one_turn as after_turn, with_element_of};
ghost use Rattle.arr_scope.specs.declared.refused.CheckRefused.TheVariants.{Memory};
ghost use Rattle.arr_run.specs.Statement.{expression_at as place_of_value};

use crate::defined::{Defined, has_definition};
use crate::expression::value;
use crate::machine::Machine;
use crate::place::expression_at;
use crate::task::Task;
use arr_ast::{Definition, Expression, IndexExpression, Indices, Name, ShapeOf, Statement};
use arr_scope::{
    Bound, CheckKind, CheckRefused, Counts, Scope, index_at, index_value, is_alike, offset,
    place_in, step,
};

const MODULUS: i64 = 2_147_483_647;

/// The run of one statement.
#[cycle(statement)]
#[tactic(auto, using(crate::proofs::api::StatementRows::of_statements))]
pub fn run_statement<'t, M: Machine>(
    defined: &Defined,
    scope: &mut Scope<M::Array>,
    counts: &mut Counts,
    machine: &mut M,
    tasks: &mut Vec<Task<'t, M::Array>>,
    statement: &'t Statement,
) -> Result<(), CheckRefused>
    ensures { Agrees (λ _. state scope.new counts.new machine.new) result
        (after_statement M.operations (newest_first defined.now.definitions.now)
        (statement_tree statement.now)
        (state scope.old counts.old machine.old)) }
{
    match statement {
        Statement::Let { at, name, value } => {
            step(counts, *at)?;
            declare(defined, scope, counts, machine, tasks, name, value)
        }
        Statement::Set { name, value } => {
            step(counts, name.at)?;
            assign(defined, scope, counts, machine, tasks, name, value)
        }
        Statement::SetElement {
            name,
            indices,
            value,
        } => {
            step(counts, name.at)?;
            assign_element(defined, scope, counts, machine, tasks, name, indices, value)
        }
        Statement::For {
            at,
            name,
            low,
            high,
            body,
        } => {
            counted_loop(
                defined, scope, counts, machine, tasks, *at, name, body, low, high,
            )
        }
    }
}

/// A loop.
#[cycle(statement)]
#[tactic(auto, using(crate::proofs::api::StatementRows::of_statements))]
fn counted_loop<'t, M: Machine>(
    defined: &Defined,
    scope: &mut Scope<M::Array>,
    counts: &mut Counts,
    machine: &mut M,
    tasks: &mut Vec<Task<'t, M::Array>>,
    at: usize,
    name: &Name,
    body: &'t [Statement],
    low: &IndexExpression,
    high: &IndexExpression,
) -> Result<(), CheckRefused>
    ensures { Agrees (λ _. state scope.new counts.new machine.new) result
        (stepped M.operations at
        (after_loop M.operations (newest_first defined.now.definitions.now) at (name_tree name.now)
        (sum_tree low.now) (sum_tree high.now)
        (each (after_statement M.operations (newest_first defined.now.definitions.now))
        (map statement_tree body.now)))
        (state scope.old counts.old machine.old)) }
{
    step(counts, at)?;
    require_new(defined.definitions, scope, name)?;
    let (first, end) = bounds(scope, low, high)?;
    all_turns(
        defined, scope, counts, machine, tasks, at, name, first, end, body,
    )
}

/// The turns of a loop from the first on, below the end.
#[cycle(statement)]
#[tactic(auto, using(crate::proofs::api::StatementRows::of_statements, crate::proofs::api::StatementRows::of_turns))]
fn all_turns<'t, M: Machine>(
    defined: &Defined,
    scope: &mut Scope<M::Array>,
    counts: &mut Counts,
    machine: &mut M,
    tasks: &mut Vec<Task<'t, M::Array>>,
    at: usize,
    name: &Name,
    first: u32,
    end: u32,
    body: &'t [Statement],
) -> Result<(), CheckRefused>
    requires { first ≤ end }
    ensures { Agrees (λ _. state scope.new counts.new machine.new) result
        (turns M.operations (end - first) first
        (after_turn M.operations at (name_tree name.now)
        (each (after_statement M.operations (newest_first defined.now.definitions.now))
        (map statement_tree body.now)))
        (state scope.old counts.old machine.old)) }
{
    'each: for turn in first..end {
        one_turn(defined, scope, counts, machine, tasks, at, name, turn, body)?;
    }
    Ok(())
}

/// One turn of a loop.
#[cycle(statement)]
#[tactic(auto, using(crate::proofs::api::StatementRows::of_statements))]
fn one_turn<'t, M: Machine>(
    defined: &Defined,
    scope: &mut Scope<M::Array>,
    counts: &mut Counts,
    machine: &mut M,
    tasks: &mut Vec<Task<'t, M::Array>>,
    at: usize,
    name: &Name,
    turn: u32,
    body: &'t [Statement],
) -> Result<(), CheckRefused>
    ensures { Agrees (λ _. state scope.new counts.new machine.new) result
        (after_turn M.operations at (name_tree name.now)
        (each (after_statement M.operations (newest_first defined.now.definitions.now))
        (map statement_tree body.now)) turn
        (state scope.old counts.old machine.old)) }
{
    step(counts, at)?;
    let kept = scope.len();
    scope.declare(name.number, Bound::Turn(turn))?;
    run_all(defined, scope, counts, machine, tasks, body)?;
    scope.forget(kept);
    Ok(())
}

/// The run of statements, one after another.
#[cycle(statement)]
#[tactic(auto, using(crate::proofs::api::StatementRows::of_statements))]
fn run_all<'t, M: Machine>(
    defined: &Defined,
    scope: &mut Scope<M::Array>,
    counts: &mut Counts,
    machine: &mut M,
    tasks: &mut Vec<Task<'t, M::Array>>,
    statements: &'t [Statement],
) -> Result<(), CheckRefused>
    ensures { Agrees (λ _. state scope.new counts.new machine.new) result
        (each (after_statement M.operations (newest_first defined.now.definitions.now))
        (map statement_tree statements.now)
        (state scope.old counts.old machine.old)) }
{
    'each: for statement in statements {
        run_statement(defined, scope, counts, machine, tasks, statement)?;
    }
    Ok(())
}

/// Declares a name with a value.
fn declare<'t, M: Machine>(
    defined: &Defined,
    scope: &mut Scope<M::Array>,
    counts: &mut Counts,
    machine: &mut M,
    tasks: &mut Vec<Task<'t, M::Array>>,
    name: &Name,
    expression: &'t Expression,
) -> Result<(), CheckRefused>
    ensures { Agrees (λ _. state scope.new counts.new machine.new) result
        (declared M.operations (newest_first defined.now.definitions.now) (name_tree name.now)
        (expression_tree expression.now)
        (state scope.old counts.old machine.old)) }
{
    require_new(defined.definitions, scope, name)?;
    let (shape, array) = value(defined, scope, counts, machine, tasks, expression)?;
    scope.declare(name.number, Bound::Value(shape, array))?;
    Ok(())
}

/// Sets the array of a name.
fn assign<'t, M: Machine>(
    defined: &Defined,
    scope: &mut Scope<M::Array>,
    counts: &mut Counts,
    machine: &mut M,
    tasks: &mut Vec<Task<'t, M::Array>>,
    name: &Name,
    expression: &'t Expression,
) -> Result<(), CheckRefused>
    ensures { Agrees (λ _. state scope.new counts.new machine.new) result
        (after_assignment M.operations (newest_first defined.now.definitions.now)
        (name_tree name.now) (expression_tree expression.now)
        (state scope.old counts.old machine.old)) }
{
    let target = target_shape(scope, name)?;
    let (shape, array) = value(defined, scope, counts, machine, tasks, expression)?;
    require_alike(target, shape, expression)?;
    scope.replace(name.number, Bound::Value(target, array));
    Ok(())
}

/// Sets one element of a name.
fn assign_element<'t, M: Machine>(
    defined: &Defined,
    scope: &mut Scope<M::Array>,
    counts: &mut Counts,
    machine: &mut M,
    tasks: &mut Vec<Task<'t, M::Array>>,
    name: &Name,
    indices: &Indices,
    expression: &'t Expression,
) -> Result<(), CheckRefused>
    ensures { Agrees (λ _. state scope.new counts.new machine.new) result
        (element_assigned M.operations (newest_first defined.now.definitions.now)
        (name_tree name.now) (indices_tree indices.now)
        (expression_tree expression.now) (state scope.old counts.old machine.old)) }
{
    let target = target_shape(scope, name)?;
    let (row, column) = place_in(scope, name.at, indices, target)?;
    let (shape, element) = value(defined, scope, counts, machine, tasks, expression)?;
    require_alike(ShapeOf::Scalar, shape, expression)?;
    set_element(
        scope,
        machine,
        name.number,
        offset(target, row, column),
        element,
    )
}

/// Puts a scalar at a place of a name's array.
fn set_element<M: Machine>(
    scope: &mut Scope<M::Array>,
    machine: &M,
    name: usize,
    place: usize,
    element: M::Array,
) -> Result<(), CheckRefused>
    ensures set { OnOk result (scope.new
        ≡ with_element_of M.operations name place element scope.old) }
    ensures memory { IfErr result (λ refused. refused ≡ Memory) }
{
    if let Some((shape, array)) = scope.take(name) {
        let array = machine.with_element(array, place, element)?;
        scope.replace(name, Bound::Value(shape, array));
    }
    Ok(())
}

/// Tests that a name may be declared where there are these definitions.
pub fn require_new<A: Drop>(
    definitions: &[Definition],
    scope: &Scope<A>,
    name: &Name,
) -> Result<(), CheckRefused>
    ensures { Agrees (λ free. free) result
        (if_new (name_tree name.now) scope.now (newest_first definitions.now)) }
{
    if has_definition(definitions, name.number) {
        return Err(CheckRefused::Bad {
            at: name.at,
            kind: CheckKind::Taken,
        });
    }
    require_free(scope, name)
}

/// Tests that a name isn't in scope.
pub fn require_free<A: Drop>(scope: &Scope<A>, name: &Name) -> Result<(), CheckRefused>
    ensures { Agrees (λ free. free) result
        (if_free name.now.at (bound (name_tree name.now) scope.now)) }
{
    match scope.get(name.number) {
        None => Ok(()),
        Some(_) => Err(CheckRefused::Bad {
            at: name.at,
            kind: CheckKind::Taken,
        }),
    }
}

/// The shape of a name that may be assigned.
fn target_shape<A: Drop>(scope: &Scope<A>, name: &Name) -> Result<ShapeOf, CheckRefused>
    ensures { Agrees (λ shape. shape) result
        (shape_of_target name.now.at (bound (name_tree name.now) scope.now)) }
{
    match scope.get(name.number) {
        Some(Bound::Value(shape, _)) => Ok(*shape),
        Some(Bound::Turn(_)) => Err(CheckRefused::Bad {
            at: name.at,
            kind: CheckKind::Taken,
        }),
        None => Err(CheckRefused::Bad {
            at: name.at,
            kind: CheckKind::Unknown,
        }),
    }
}

/// Tests that a value has the shape of what it is assigned to.
fn require_alike(
    target: ShapeOf,
    shape: ShapeOf,
    expression: &Expression,
) -> Result<(), CheckRefused>
    ensures { Agrees (λ fits. fits) result
        (if_of target (place_of_value (expression_tree expression.now)) shape) }
{
    if is_alike(target, shape) {
        Ok(())
    } else {
        Err(CheckRefused::Bad {
            at: expression_at(expression),
            kind: CheckKind::Shape,
        })
    }
}

/// The first turn of a loop and the one past its last.
fn bounds<A: Drop>(
    scope: &Scope<A>,
    low: &IndexExpression,
    high: &IndexExpression,
) -> Result<(u32, u32), CheckRefused>
    ensures value { Agrees (λ bounds. bounds) result
        (bounds_of scope.now (sum_tree low.now) (sum_tree high.now)) }
    ensures order { IfOk result (λ bounds. bounds.0 ≤ bounds.1) }
{
    let at = index_at(low);
    let from = index_value(scope, at, low)?;
    let to = index_value(scope, index_at(high), high)?;
    turn_range(at, from, to)
}

/// The first turn, and the one past the last.
fn turn_range(at: usize, low: i64, high: i64) -> Result<(u32, u32), CheckRefused>
    ensures value { Agrees (λ bounds. bounds) result (turns_of at low high) }
    ensures order { IfOk result (λ bounds. bounds.0 ≤ bounds.1) }
{
    if low < 0 || high < low || high > MODULUS {
        return Err(CheckRefused::Bad {
            at,
            kind: CheckKind::Bounds,
        });
    }
    Ok((low as u32, high as u32))
}
