//! How an evaluation begins: with the first factor of an expression, where what comes after it waits.

ghost use Rattle.std.specs.Prelude.{◌≡◌, [], ◌∷◌, ◌++◌, ◌+◌, ◌≤◌, IfOk};
ghost use Rattle.arr_ast.specs.ExpressionTree.{expression_tree, term_tree, factor_tree};
ghost use Rattle.arr_scope.specs.declared.counts.Counts.{Counts};
ghost use Rattle.arr_run.specs.Tasks.{Continues, expression_with, term_with, factor_with, next_with};
ghost use Rattle.arr_run.specs.Work.{expression_work, term_work, factor_work, task_work, tasks_work, next_work};

use crate::defined::{Defined, callable_place};
use crate::machine::Machine;
use crate::operation::{constant_value, element_value, name_value};
use crate::task::{Next, Task};
use arr_ast::{Expression, Factor, Term};
use arr_scope::{CheckRefused, Counts, Scope};
use std::alloc::AllocError;

/// The first factor of an expression, where what comes after it waits.
pub fn first_factor<'t, M: Machine>(
    defined: &Defined,
    scope: &Scope<M::Array>,
    tasks: &mut Vec<Task<'t, M::Array>>,
    expression: &'t Expression,
) -> Result<&'t Factor, AllocError>
    ensures value { IfOk result (λ first. (counts : Counts) (kept : M) →
        expression_with M.operations defined.now.definitions.now scope.now
        (expression_tree expression.now) tasks.old.items counts kept
        ≡ factor_with M.operations defined.now.definitions.now scope.now
        (factor_tree first.now) tasks.new.items counts kept) }
    ensures work { IfOk result (λ first.
        factor_work (factor_tree first.now) + 1 + tasks_work tasks.new.items
        ≤ expression_work (expression_tree expression.now) + tasks_work tasks.old.items) }
{
    if expression.added.is_empty() {
        let first = first_of_term::<M>(defined, scope, tasks, &expression.first)?;
        return Ok(first);
    }
    tasks.push(Task::Terms(&expression.added))?;
    let first = first_of_term::<M>(defined, scope, tasks, &expression.first)?;
    Ok(first)
}

/// The first factor of a term, where what comes after it waits.
pub fn first_of_term<'t, M: Machine>(
    defined: &Defined,
    scope: &Scope<M::Array>,
    tasks: &mut Vec<Task<'t, M::Array>>,
    term: &'t Term,
) -> Result<&'t Factor, AllocError>
    ensures value { IfOk result (λ first. (counts : Counts) (kept : M) →
        term_with M.operations defined.now.definitions.now scope.now
        (term_tree term.now) tasks.old.items counts kept
        ≡ factor_with M.operations defined.now.definitions.now scope.now
        (factor_tree first.now) tasks.new.items counts kept) }
    ensures work { IfOk result (λ first.
        factor_work (factor_tree first.now) + 1 + tasks_work tasks.new.items
        ≤ term_work (term_tree term.now) + tasks_work tasks.old.items) }
{
    if term.times.is_empty() {
        return Ok(&term.first);
    }
    tasks.push(Task::Factors(&term.times))?;
    Ok(&term.first)
}

/// Begins with an expression for whose value a task waits.
pub fn begin_operand<'t, M: Machine>(
    defined: &Defined,
    scope: &Scope<M::Array>,
    tasks: &mut Vec<Task<'t, M::Array>>,
    task: Task<'t, M::Array>,
    operand: &'t Expression,
) -> Result<Next<'t, M::Array>, CheckRefused>
    ensures value { (counts : Counts) (kept : M) →
        Continues (λ next. next_with M.operations defined.now.definitions.now scope.now
        next tasks.new.items counts kept) result
        (expression_with M.operations defined.now.definitions.now scope.now
        (expression_tree operand.now) (tasks.old.items ++ task.entry ∷ []) counts kept) }
    ensures work { IfOk result (λ next. next_work next + tasks_work tasks.new.items
        ≤ expression_work (expression_tree operand.now)
        + (task_work task.entry + tasks_work tasks.old.items)) }
{
    tasks.push(task)?;
    let first = first_factor::<M>(defined, scope, tasks, operand)?;
    Ok(Next::Inner(first))
}

/// Begins with a factor: with what is inside, or with its value.
pub fn begin<'t, M: Machine>(
    defined: &Defined,
    scope: &Scope<M::Array>,
    counts: &mut Counts,
    machine: &mut M,
    tasks: &mut Vec<Task<'t, M::Array>>,
    factor: &'t Factor,
) -> Result<Next<'t, M::Array>, CheckRefused>
    ensures value { Continues (λ next. next_with M.operations defined.now.definitions.now scope.now
        next tasks.new.items counts.new machine.new) result
        (factor_with M.operations defined.now.definitions.now scope.now (factor_tree factor.now)
        tasks.old.items counts.old machine.old) }
    ensures work { IfOk result (λ next. next_work next + tasks_work tasks.new.items
        ≤ factor_work (factor_tree factor.now) + tasks_work tasks.old.items) }
{
    match factor {
        Factor::Number { at, value } => {
            let (shape, array) = constant_value(counts, machine, *at, *value)?;
            Ok(Next::Found(shape, array))
        }
        Factor::Name(name) => {
            let (shape, array) = name_value(scope, counts, machine, name)?;
            Ok(Next::Found(shape, array))
        }
        Factor::Element { name, indices } => {
            let (shape, array) = element_value(scope, machine, name, indices)?;
            Ok(Next::Found(shape, array))
        }
        Factor::Negation { at, operand } => {
            tasks.push(Task::Opposite { at: *at })?;
            Ok(Next::Inner(operand))
        }
        Factor::Parenthesized { inner, .. } => {
            let first = first_factor::<M>(defined, scope, tasks, inner)?;
            Ok(Next::Inner(first))
        }
        Factor::Single {
            function,
            at,
            argument,
            ..
        } => {
            let task = Task::Single {
                function: *function,
                at: *at,
            };
            begin_operand::<M>(defined, scope, tasks, task, argument)
        }
        Factor::Pair {
            function,
            at,
            left,
            right,
            ..
        } => {
            let task = Task::Left {
                function: *function,
                at: *at,
                right,
            };
            begin_operand::<M>(defined, scope, tasks, task, left)
        }
        Factor::Call {
            name,
            first,
            further,
            ..
        } => {
            let place = callable_place(defined.definitions, name, further.len())?;
            let passed = Vec::new(defined.alloc);
            let task = Task::Argument {
                at: name.at,
                place,
                passed,
                further,
            };
            begin_operand::<M>(defined, scope, tasks, task, first)
        }
    }
}
