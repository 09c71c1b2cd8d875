//! Definitions that may be called.

ghost use Rattle.std.specs.Prelude.{◌≡◌, ◌<◌, suc, length, map, Some, None, IfSome, IfNone, IfOk};
ghost use Rattle.arr_ast.specs.ExpressionTree.{NameTree, name_tree};
ghost use Rattle.arr_scope.specs.Agrees.{Agrees};
ghost use Rattle.arr_run.specs.Definitions.{is_defined};
ghost use Rattle.arr_run.specs.Expression.{if_as_many, parameters_bound};
ghost use Rattle.arr_run.specs.Steps.{newest_first, definition_named, definition_at};
ghost use Rattle.arr_run.specs.Tasks.{named_with};

use arr_ast::{Definition, Name, ShapeOf};
use arr_scope::{Bound, CheckKind, CheckRefused, Scope};
use std::alloc::{AllocError, Global};

/// The definitions that may be called, in the order of the text, and where lists are put.
#[derive(Clone, Copy)]
pub struct Defined<'d> {
    pub alloc: Global,
    pub definitions: &'d [Definition],
}

/// The place of the definition that a name calls, with so many arguments after the first.
pub fn callable_place(
    definitions: &[Definition],
    name: &Name,
    further: usize,
) -> Result<usize, CheckRefused>
    ensures found { Agrees (λ place. definition_at place definitions.now) result
        (named_with name.now.at (suc further)
        (definition_named name.now.number (newest_first definitions.now))) }
{
    let Some(place) = place_of_definition(definitions, name.number) else {
        return Err(CheckRefused::Bad {
            at: name.at,
            kind: CheckKind::Unknown,
        });
    };
    require_as_many(name.at, definitions[place].parameters.len(), further)?;
    Ok(place)
}

/// The place of a name's definition.
fn place_of_definition(definitions: &[Definition], name: usize) -> Option<usize>
    ensures found { IfSome result (λ place. definition_named name (newest_first definitions.now)
        ≡ definition_at place definitions.now) }
    ensures within { IfSome result (λ place. place < length definitions.now) }
    ensures none { IfNone result (definition_named name (newest_first definitions.now) ≡ None) }
{
    let mut place = definitions.len();
    'each: while place > 0 {
        place -= 1;
        if definitions[place].name.number == name {
            return Some(place);
        }
    }
    None
}

/// Whether a name is a definition's.
pub fn has_definition(definitions: &[Definition], name: usize) -> bool
    ensures { result ≡ is_defined name (newest_first definitions.now) }
{
    place_of_definition(definitions, name).is_some()
}

/// Tests that a call has as many arguments as there are parameters, where these are those after the first.
fn require_as_many(at: usize, parameters: usize, further: usize) -> Result<(), CheckRefused>
    ensures { Agrees (λ fits. fits) result (if_as_many at parameters (suc further)) }
{
    if parameters > 0 && parameters - 1 == further {
        Ok(())
    } else {
        Err(CheckRefused::Bad {
            at,
            kind: CheckKind::Shape,
        })
    }
}

/// The parameters' names, which stand for the values.
pub fn bind_parameters<A: Drop>(
    alloc: Global,
    parameters: &[Name],
    values: Vec<(ShapeOf, A)>,
) -> Result<Scope<A>, AllocError>
    ensures { IfOk result (λ names. names
        ≡ parameters_bound (map (λ (parameter : NameTree). parameter.number)
        (map name_tree parameters.now)) values.items) }
{
    let mut left = values;
    left.reverse();
    let mut names = Scope::short(alloc);
    'each: for parameter in parameters {
        if let Some((shape, array)) = left.pop() {
            names.declare(parameter.number, Bound::Value(shape, array))?;
        }
    }
    Ok(names)
}
