//! The run of whole programs.

ghost use Rattle.std.specs.Prelude.{◌≡◌, [], ◌∷◌, IfOk, map};
ghost use Rattle.arr_ast.specs.ProgramTree.{input_tree, definition_tree, top_tree, program_tree};
ghost use Rattle.arr_ast.specs.ExpressionTree.{name_tree};
ghost use Rattle.arr_scope.specs.Agrees.{Agrees, each};
ghost use Rattle.arr_run.specs.Program.{after_input, after_top, dimension_of, end_of, if_any_output, input_count, input_shape as shape_of_input, none_counted, outputs_at, run_of};
ghost use Rattle.arr_run.specs.Definitions.{after_definition, after_definitions, if_few, if_apart, if_parameters, is_among};
ghost use Rattle.arr_scope.specs.Scope.{Names};
ghost use Rattle.arr_run.specs.State.{state};
ghost use Rattle.arr_run.specs.Steps.{newest_first};

use crate::defined::Defined;
use crate::expression::value;
use crate::machine::Machine;
use crate::statement::{require_free, require_new, run_statement};
use crate::task::Task;
use arr_ast::{
    Definition, Dimension, Dimensions, Input, Lang, Name, Program, ShapeOf, TopStatement,
};
use arr_scope::{Bound, CheckKind, CheckRefused, Constants, Counts, Scope, add_nodes, size, step};
use std::alloc::Global;

const MAX_DIMENSION: u32 = 4096;

const MAX_OUTPUTS: u64 = 65_535;

const MAX_DEFINITIONS: usize = 64;

/// What a program's run counts.
#[derive(Drop)]
pub struct Ran {
    pub counts: Counts,
    /// How many numbers the inputs have.
    pub inputs: u64,
}

/// The run of a program in a language, whose limits hold, or its first refusal.
pub fn run<M: Machine>(
    alloc: Global,
    machine: &mut M,
    program: &Program,
    lang: Lang,
) -> Result<Ran, CheckRefused>
    ensures end { Agrees (λ ran. (ran.counts, machine.new)) result
        (end_of M.operations lang (program_tree program.now) machine.old) }
    ensures inputs { IfOk result (λ ran. ran.inputs ≡ input_count
        (program_tree program.now).inputs) }
{
    let mut scope = Scope::new(alloc);
    let mut counts = none_counted(alloc, lang);
    let inputs = run_parts(alloc, &mut scope, &mut counts, machine, program)?;
    Ok(Ran { counts, inputs })
}

/// The run of a program's inputs, definitions and statements, from nothing. It gives how many numbers the inputs have.
#[tactic(auto, using(crate::proofs::api::InputNodes::of_inputs))]
fn run_parts<M: Machine>(
    alloc: Global,
    scope: &mut Scope<M::Array>,
    counts: &mut Counts,
    machine: &mut M,
    program: &Program,
) -> Result<u64, CheckRefused>
    requires scope { scope.now ≡ [] }
    requires counts { counts.now ≡ none_counted counts.now.lang }
    ensures end { Agrees (λ _. state scope.new counts.new machine.new) result
        (run_of M.operations counts.old.lang (program_tree program.now) machine.old) }
    ensures inputs { IfOk result (λ inputs. inputs ≡ input_count
        (program_tree program.now).inputs) }
{
    run_inputs(scope, counts, machine, &program.inputs)?;
    let inputs = counts.nodes;
    run_definitions::<M>(scope, counts, &program.definitions)?;
    let defined = Defined {
        alloc,
        definitions: &program.definitions,
    };
    run_top_statements(&defined, scope, counts, machine, &program.statements)?;
    require_output::<M>(program.end, counts)?;
    Ok(inputs)
}

/// Tests that there is an output.
fn require_output<M: Machine>(end: usize, counts: &Counts) -> Result<(), CheckRefused>
    ensures { (names : Names M.Array) (kept : M) →
        Agrees (λ _. state names counts.now kept) result
        (if_any_output end (state names counts.now kept)) }
{
    if counts.outputs == 0 {
        return Err(CheckRefused::Bad {
            at: end,
            kind: CheckKind::NoOutput,
        });
    }
    Ok(())
}

fn none_counted(alloc: Global, lang: Lang) -> Counts
    ensures { result ≡ none_counted lang }
{
    Counts {
        lang,
        constants: Constants::new(alloc),
        steps: 0,
        nodes: 0,
        outputs: 0,
    }
}

fn run_inputs<M: Machine>(
    scope: &mut Scope<M::Array>,
    counts: &mut Counts,
    machine: &mut M,
    inputs: &[Input],
) -> Result<(), CheckRefused>
    ensures { Agrees (λ _. state scope.new counts.new machine.new) result
        (each (after_input M.operations) (map input_tree inputs.now)
        (state scope.old counts.old machine.old)) }
{
    'each: for input in inputs {
        run_input(scope, counts, machine, input)?;
    }
    Ok(())
}

fn run_input<M: Machine>(
    scope: &mut Scope<M::Array>,
    counts: &mut Counts,
    machine: &mut M,
    input: &Input,
) -> Result<(), CheckRefused>
    ensures { Agrees (λ _. state scope.new counts.new machine.new) result
        (after_input M.operations (input_tree input.now) (state scope.old counts.old machine.old)) }
{
    step(counts, input.at)?;
    require_free(scope, &input.name)?;
    let shape = input_shape(input.dimensions)?;
    add_nodes(counts, input.name.at, size(shape))?;
    let array = machine.input(shape)?;
    scope.declare(input.name.number, Bound::Value(shape, array))?;
    Ok(())
}

fn input_shape(dimensions: Dimensions) -> Result<ShapeOf, CheckRefused>
    ensures { Agrees (λ shape. shape) result (shape_of_input dimensions) }
{
    match dimensions {
        Dimensions::Scalar => Ok(ShapeOf::Scalar),
        Dimensions::Vector(first) => Ok(ShapeOf::Vector(size_of_dimension(first)?)),
        Dimensions::Matrix(first, second) => Ok(ShapeOf::Matrix(
            size_of_dimension(first)?,
            size_of_dimension(second)?,
        )),
    }
}

fn size_of_dimension(dimension: Dimension) -> Result<u32, CheckRefused>
    ensures { Agrees (λ size. size) result (dimension_of dimension) }
{
    if dimension.size >= 1 && dimension.size <= MAX_DIMENSION {
        Ok(dimension.size)
    } else {
        Err(CheckRefused::Bad {
            at: dimension.at,
            kind: CheckKind::Dims,
        })
    }
}

/// The run of all definitions, of which no body is run.
fn run_definitions<M: Machine>(
    scope: &Scope<M::Array>,
    counts: &mut Counts,
    definitions: &[Definition],
) -> Result<(), CheckRefused>
    ensures { (kept : M) → Agrees (λ _. state scope.now counts.new kept) result
        (after_definitions [] (map definition_tree definitions.now)
        (state scope.now counts.old kept)) }
{
    'each: for (place, definition) in definitions.iter().enumerate() {
        run_definition::<M>(scope, counts, &definitions[..place], definition)?;
    }
    Ok(())
}

/// The run of a definition after the earlier ones.
fn run_definition<M: Machine>(
    scope: &Scope<M::Array>,
    counts: &mut Counts,
    earlier: &[Definition],
    definition: &Definition,
) -> Result<(), CheckRefused>
    ensures { (kept : M) → Agrees (λ _. state scope.now counts.new kept) result
        (after_definition (newest_first earlier.now) (definition_tree definition.now)
        (state scope.now counts.old kept)) }
{
    step(counts, definition.at)?;
    require_few(definition.at, earlier)?;
    require_new(earlier, scope, &definition.name)?;
    require_parameters(scope, earlier, definition)
}

/// Tests that a definition more may come.
fn require_few(at: usize, earlier: &[Definition]) -> Result<(), CheckRefused>
    ensures { Agrees (λ few. few) result (if_few at (newest_first earlier.now)) }
{
    if earlier.len() < MAX_DEFINITIONS {
        Ok(())
    } else {
        Err(CheckRefused::Bad {
            at,
            kind: CheckKind::Defs,
        })
    }
}

/// Tests that the parameters are new names, none of them twice.
fn require_parameters<A: Drop>(
    scope: &Scope<A>,
    earlier: &[Definition],
    definition: &Definition,
) -> Result<(), CheckRefused>
    ensures { Agrees (λ apart. apart) result (if_parameters
        (name_tree definition.now.name ∷ []) (map name_tree definition.now.parameters.items)
        scope.now (newest_first earlier.now)) }
{
    let parameters: &[Name] = &definition.parameters;
    'each: for (place, parameter) in parameters.iter().enumerate() {
        require_apart(parameter, &definition.name, &parameters[..place])?;
        require_new(earlier, scope, parameter)?;
    }
    Ok(())
}

/// Tests that a name is neither the first of others, nor one of the rest.
fn require_apart(name: &Name, first: &Name, rest: &[Name]) -> Result<(), CheckRefused>
    ensures { Agrees (λ apart. apart) result (if_apart (name_tree name.now)
        (name_tree first.now ∷ map name_tree rest.now)) }
{
    if first.number == name.number || is_among(name.number, rest) {
        return Err(CheckRefused::Bad {
            at: name.at,
            kind: CheckKind::Taken,
        });
    }
    Ok(())
}

/// Whether a number is that of one of these names.
fn is_among(number: usize, names: &[Name]) -> bool
    ensures { result ≡ is_among number (map name_tree names.now) }
{
    'each: for name in names {
        if name.number == number {
            return true;
        }
    }
    false
}

fn run_top_statements<M: Machine>(
    defined: &Defined,
    scope: &mut Scope<M::Array>,
    counts: &mut Counts,
    machine: &mut M,
    statements: &[TopStatement],
) -> Result<(), CheckRefused>
    ensures { Agrees (λ _. state scope.new counts.new machine.new) result
        (each (after_top M.operations (newest_first defined.now.definitions.now))
        (map top_tree statements.now)
        (state scope.old counts.old machine.old)) }
{
    let mut tasks = Vec::new(defined.alloc);
    'each: for statement in statements {
        run_top_statement(defined, scope, counts, machine, &mut tasks, statement)?;
    }
    Ok(())
}

fn run_top_statement<'t, M: Machine>(
    defined: &Defined,
    scope: &mut Scope<M::Array>,
    counts: &mut Counts,
    machine: &mut M,
    tasks: &mut Vec<Task<'t, M::Array>>,
    statement: &'t TopStatement,
) -> Result<(), CheckRefused>
    ensures { Agrees (λ _. state scope.new counts.new machine.new) result
        (after_top M.operations (newest_first defined.now.definitions.now) (top_tree statement.now)
        (state scope.old counts.old machine.old)) }
{
    match statement {
        TopStatement::Output { at, value: output } => {
            step(counts, *at)?;
            let (shape, array) = value(defined, scope, counts, machine, tasks, output)?;
            add_outputs(counts, *at, size(shape))?;
            machine.output(array)?;
            Ok(())
        }
        TopStatement::Inner(statement) => {
            run_statement(defined, scope, counts, machine, tasks, statement)
        }
    }
}

/// As many outputs more.
fn add_outputs(counts: &mut Counts, at: usize, more: u64) -> Result<(), CheckRefused>
    ensures { Agrees (λ _. counts.new) result (outputs_at at more counts.old) }
{
    match more.checked_add(counts.outputs) {
        Some(outputs) if outputs <= MAX_OUTPUTS => {
            counts.outputs = outputs;
            Ok(())
        }
        _ => Err(CheckRefused::Bad {
            at,
            kind: CheckKind::Outputs,
        }),
    }
}
