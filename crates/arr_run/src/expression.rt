//! The values of expressions.
//!
//! What is to be done with a value waits in a list of tasks, so that an expression's nesting takes memory and no stack. All
//! statements of a program have one list, so that it isn't allocated for each. The body of a call has a list of its own, and calls
//! are nested no deeper than there are definitions.

ghost use Rattle.std.specs.Prelude.{◌≡◌, ◌+◌, ◌<◌, ◌≤◌, sum_by, IfOk};
ghost use Rattle.arr_ast.specs.ExpressionTree.{expression_tree};
ghost use Rattle.arr_scope.specs.declared.counts.Counts.{Counts};
ghost use Rattle.arr_run.specs.declared.task.Task.TheVariants.{Signed, Product, Argument};
ghost use Rattle.arr_scope.specs.Agrees.{Agrees};
ghost use Rattle.arr_run.specs.Expression.{with_argument, value_of};
ghost use Rattle.arr_run.specs.Steps.{calls_of};
ghost use Rattle.arr_run.specs.Tasks.{Continues, call_at, task_with, added_with, times_with, arguments_with, next_with};
ghost use Rattle.arr_run.specs.Work.{added_term_work, times_factor_work, further_work, task_work, tasks_work, next_work};

use crate::defined::{Defined, bind_parameters};
use crate::factor::{begin, begin_operand, first_factor, first_of_term};
use crate::machine::Machine;
use crate::operation::{opposite_value, pair_value, product_value, signed_value, single_value};
use crate::task::{Next, Task};
use arr_ast::{AddedTerm, Expression, ShapeOf, Sign, TimesFactor};
use arr_scope::{CheckKind, CheckRefused, Counts, Scope, step};

/// The value of an expression: its shape and its array. The list is emptied first.
#[cycle(expression)]
pub fn value<'t, M: Machine>(
    defined: &Defined,
    scope: &Scope<M::Array>,
    counts: &mut Counts,
    machine: &mut M,
    tasks: &mut Vec<Task<'t, M::Array>>,
    expression: &'t Expression,
) -> Result<(ShapeOf, M::Array), CheckRefused>
    ensures { Agrees (λ found. (found.0, found.1, counts.new, machine.new)) result
        (value_of M.operations (calls_of M.operations defined.now.definitions.now)
        (expression_tree expression.now) scope.now counts.old machine.old) }
{
    tasks.clear();
    let mut next = Next::Inner(first_factor::<M>(defined, scope, tasks, expression)?);
    'each: loop {
        match next {
            Next::Inner(factor) => {
                next = begin(defined, scope, counts, machine, tasks, factor)?;
            }
            Next::Found(shape, array) => {
                let Some(task) = tasks.pop() else {
                    return Ok((shape, array));
                };
                next = go_on(defined, scope, counts, machine, tasks, task, shape, array)?;
            }
        }
    }
}

/// Does the newest task with a value that is found.
#[cycle(expression)]
fn go_on<'t, M: Machine>(
    defined: &Defined,
    scope: &Scope<M::Array>,
    counts: &mut Counts,
    machine: &mut M,
    tasks: &mut Vec<Task<'t, M::Array>>,
    task: Task<'t, M::Array>,
    shape: ShapeOf,
    array: M::Array,
) -> Result<Next<'t, M::Array>, CheckRefused>
    ensures value { Continues (λ next. next_with M.operations defined.now.definitions.now scope.now
        next tasks.new.items counts.new machine.new) result
        (task_with M.operations defined.now.definitions.now scope.now task.entry
        (shape, array, counts.old, machine.old) tasks.old.items) }
    ensures work { IfOk result (λ next. next_work next + tasks_work tasks.new.items
        < task_work task.entry + tasks_work tasks.old.items) }
{
    match task {
        Task::Argument {
            at,
            place,
            passed,
            further,
        } => pass(
            defined,
            scope,
            counts,
            machine,
            tasks,
            at,
            place,
            passed,
            (shape, array),
            further,
        ),
        task => do_task(defined, scope, counts, machine, tasks, task, shape, array),
    }
}

/// Does a task other than to pass an argument, so that no call follows from it.
fn do_task<'t, M: Machine>(
    defined: &Defined,
    scope: &Scope<M::Array>,
    counts: &mut Counts,
    machine: &mut M,
    tasks: &mut Vec<Task<'t, M::Array>>,
    task: Task<'t, M::Array>,
    shape: ShapeOf,
    array: M::Array,
) -> Result<Next<'t, M::Array>, CheckRefused>
    requires { (at place : _) (passed : _) (further : _) →
        task ≡ Argument at place passed further → ⊥ }
    ensures value { Continues (λ next. next_with M.operations defined.now.definitions.now scope.now
        next tasks.new.items counts.new machine.new) result
        (task_with M.operations defined.now.definitions.now scope.now task.entry
        (shape, array, counts.old, machine.old) tasks.old.items) }
    ensures work { IfOk result (λ next. next_work next + tasks_work tasks.new.items
        < task_work task.entry + tasks_work tasks.old.items) }
{
    match task {
        Task::Terms(terms) => add_terms::<M>(defined, scope, tasks, shape, array, terms),
        Task::Signed {
            sign,
            at,
            shape: left,
            array: kept,
            further,
        } => add(
            defined,
            scope,
            counts,
            machine,
            tasks,
            sign,
            at,
            (left, kept),
            (shape, array),
            further,
        ),
        Task::Factors(factors) => multiply::<M>(defined, scope, tasks, shape, array, factors),
        Task::Product {
            at,
            shape: left,
            array: kept,
            further,
        } => times(
            defined,
            scope,
            counts,
            machine,
            tasks,
            at,
            (left, kept),
            (shape, array),
            further,
        ),
        Task::Opposite { at } => {
            let (shape, array) = opposite_value(counts, machine, at, (shape, array))?;
            Ok(Next::Found(shape, array))
        }
        Task::Single { function, at } => {
            let (shape, array) = single_value(counts, machine, function, at, (shape, array))?;
            Ok(Next::Found(shape, array))
        }
        Task::Left {
            function,
            at,
            right,
        } => {
            let task = Task::Right {
                function,
                at,
                shape,
                array,
            };
            begin_operand::<M>(defined, scope, tasks, task, right)
        }
        Task::Right {
            function,
            at,
            shape: left,
            array: kept,
        } => {
            let (shape, array) = pair_value(
                counts,
                machine,
                function,
                at,
                (left, kept),
                (shape, array),
            )?;
            Ok(Next::Found(shape, array))
        }
        Task::Argument { .. } => unreachable!(),
    }
}

/// Adds a value to another, or takes it from that, and goes on with further terms.
fn add<'t, M: Machine>(
    defined: &Defined,
    scope: &Scope<M::Array>,
    counts: &mut Counts,
    machine: &mut M,
    tasks: &mut Vec<Task<'t, M::Array>>,
    sign: Sign,
    at: usize,
    left: (ShapeOf, M::Array),
    right: (ShapeOf, M::Array),
    further: &'t [AddedTerm],
) -> Result<Next<'t, M::Array>, CheckRefused>
    ensures value { Continues (λ next. next_with M.operations defined.now.definitions.now scope.now
        next tasks.new.items counts.new machine.new) result
        (task_with M.operations defined.now.definitions.now scope.now
        (Signed sign at left.0 left.1 further.entry) (right.0, right.1, counts.old, machine.old)
        tasks.old.items) }
    ensures work { IfOk result (λ next. next_work next + tasks_work tasks.new.items
        ≤ sum_by added_term_work further.now + tasks_work tasks.old.items) }
{
    let (shape, array) = signed_value(counts, machine, sign, at, left, right)?;
    add_terms::<M>(defined, scope, tasks, shape, array, further)
}

/// Multiplies a value by another, and goes on with further factors.
fn times<'t, M: Machine>(
    defined: &Defined,
    scope: &Scope<M::Array>,
    counts: &mut Counts,
    machine: &mut M,
    tasks: &mut Vec<Task<'t, M::Array>>,
    at: usize,
    left: (ShapeOf, M::Array),
    right: (ShapeOf, M::Array),
    further: &'t [TimesFactor],
) -> Result<Next<'t, M::Array>, CheckRefused>
    ensures value { Continues (λ next. next_with M.operations defined.now.definitions.now scope.now
        next tasks.new.items counts.new machine.new) result
        (task_with M.operations defined.now.definitions.now scope.now
        (Product at left.0 left.1 further.entry) (right.0, right.1, counts.old, machine.old)
        tasks.old.items) }
    ensures work { IfOk result (λ next. next_work next + tasks_work tasks.new.items
        ≤ sum_by times_factor_work further.now + tasks_work tasks.old.items) }
{
    let (shape, array) = product_value(counts, machine, at, left, right)?;
    multiply::<M>(defined, scope, tasks, shape, array, further)
}

/// Goes on with the terms that are added to a value.
fn add_terms<'t, M: Machine>(
    defined: &Defined,
    scope: &Scope<M::Array>,
    tasks: &mut Vec<Task<'t, M::Array>>,
    shape: ShapeOf,
    array: M::Array,
    terms: &'t [AddedTerm],
) -> Result<Next<'t, M::Array>, CheckRefused>
    ensures value { (counts : Counts) (kept : M) →
        Continues (λ next. next_with M.operations defined.now.definitions.now scope.now
        next tasks.new.items counts kept) result
        (added_with M.operations defined.now.definitions.now scope.now terms.now
        (shape, array, counts, kept) tasks.old.items) }
    ensures work { IfOk result (λ next. next_work next + tasks_work tasks.new.items
        ≤ sum_by added_term_work terms.now + tasks_work tasks.old.items) }
{
    let Some((added, further)) = terms.split_first() else {
        return Ok(Next::Found(shape, array));
    };
    tasks.push(Task::Signed {
        sign: added.sign,
        at: added.at,
        shape,
        array,
        further,
    })?;
    let first = first_of_term::<M>(defined, scope, tasks, &added.term)?;
    Ok(Next::Inner(first))
}

/// Goes on with the factors that a value is multiplied by.
fn multiply<'t, M: Machine>(
    defined: &Defined,
    scope: &Scope<M::Array>,
    tasks: &mut Vec<Task<'t, M::Array>>,
    shape: ShapeOf,
    array: M::Array,
    factors: &'t [TimesFactor],
) -> Result<Next<'t, M::Array>, CheckRefused>
    ensures value { (counts : Counts) (kept : M) →
        Continues (λ next. next_with M.operations defined.now.definitions.now scope.now
        next tasks.new.items counts kept) result
        (times_with M.operations defined.now.definitions.now scope.now factors.now
        (shape, array, counts, kept) tasks.old.items) }
    ensures work { IfOk result (λ next. next_work next + tasks_work tasks.new.items
        ≤ sum_by times_factor_work factors.now + tasks_work tasks.old.items) }
{
    let Some((times, further)) = factors.split_first() else {
        return Ok(Next::Found(shape, array));
    };
    tasks.push(Task::Product {
        at: times.at,
        shape,
        array,
        further,
    })?;
    Ok(Next::Inner(&times.factor))
}

/// Passes an argument, and goes on with the arguments that are left of a call, or with the call.
#[inline(never)]
#[cycle(expression)]
fn pass<'t, M: Machine>(
    defined: &Defined,
    scope: &Scope<M::Array>,
    counts: &mut Counts,
    machine: &mut M,
    tasks: &mut Vec<Task<'t, M::Array>>,
    at: usize,
    place: usize,
    passed: Vec<(ShapeOf, M::Array)>,
    found: (ShapeOf, M::Array),
    further: &'t [Expression],
) -> Result<Next<'t, M::Array>, CheckRefused>
    ensures value { Continues (λ next. next_with M.operations defined.now.definitions.now scope.now
        next tasks.new.items counts.new machine.new) result
        (arguments_with M.operations defined.now.definitions.now scope.now at place further.now
        (with_argument passed.items (found.0, found.1, counts.old, machine.old))
        tasks.old.items) }
    ensures work { IfOk result (λ next. next_work next + tasks_work tasks.new.items
        ≤ sum_by further_work further.now + tasks_work tasks.old.items) }
{
    let mut passed = passed;
    passed.push(found)?;
    let Some((argument, further)) = further.split_first() else {
        let (shape, array) = call(defined, counts, machine, at, place, passed)?;
        return Ok(Next::Found(shape, array));
    };
    let task = Task::Argument {
        at,
        place,
        passed,
        further,
    };
    begin_operand::<M>(defined, scope, tasks, task, argument)
}

/// The value of a call of the definition at a place, with all its arguments.
#[inline(never)]
#[cycle(expression)]
fn call<M: Machine>(
    defined: &Defined,
    counts: &mut Counts,
    machine: &mut M,
    at: usize,
    place: usize,
    arguments: Vec<(ShapeOf, M::Array)>,
) -> Result<(ShapeOf, M::Array), CheckRefused>
    ensures { Agrees (λ found. (found.0, found.1, counts.new, machine.new)) result
        (call_at M.operations defined.now.definitions.now at place
        (arguments.items, counts.old, machine.old)) }
{
    let Some(definition) = defined.definitions.get(place) else {
        return Err(CheckRefused::Bad {
            at,
            kind: CheckKind::Unknown,
        });
    };
    step(counts, at)?;
    let names = bind_parameters(defined.alloc, &definition.parameters, arguments)?;
    let earlier = Defined {
        alloc: defined.alloc,
        definitions: &defined.definitions[..place],
    };
    body_value(&earlier, &names, counts, machine, &definition.body)
}

/// The value of a definition's body, with a list of tasks of its own.
#[cycle(expression)]
fn body_value<M: Machine>(
    defined: &Defined,
    scope: &Scope<M::Array>,
    counts: &mut Counts,
    machine: &mut M,
    body: &Expression,
) -> Result<(ShapeOf, M::Array), CheckRefused>
    ensures { Agrees (λ found. (found.0, found.1, counts.new, machine.new)) result
        (value_of M.operations (calls_of M.operations defined.now.definitions.now)
        (expression_tree body.now) scope.now counts.old machine.old) }
{
    let mut tasks = Vec::new(defined.alloc);
    let (shape, array) = value(defined, scope, counts, machine, &mut tasks, body)?;
    Ok((shape, array))
}
