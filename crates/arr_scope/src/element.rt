//! Elements of values, by their indices.

ghost use Rattle.std.specs.Prelude.{◌≡◌, ◌≢◌, ◌<◌, ◌^◌, IfOk, IfErr};
ghost use Rattle.arr_ast.specs.IndexTree.{sum_tree};
ghost use Rattle.arr_ast.specs.ExpressionTree.{indices_tree};
ghost use Rattle.arr_scope.specs.Agrees.{Agrees};
ghost use Rattle.arr_scope.specs.declared.refused.CheckRefused.TheVariants.{Memory};
ghost use Rattle.arr_scope.specs.Element.{offset as offset_of};
ghost use Rattle.arr_scope.specs.Element.{is_place as is_place_of, index_below as place_below, indices_at};

use crate::index::{index_at, index_value};
use crate::refused::{CheckKind, CheckRefused};
use crate::scope::Scope;
use arr_ast::{IndexExpression, Indices, ShapeOf};

/// The row and the column in a value of this shape.
pub fn place_in<A: Drop>(
    scope: &Scope<A>,
    at: usize,
    indices: &Indices,
    shape: ShapeOf,
) -> Result<(u64, u64), CheckRefused>
    ensures place { Agrees (λ place. place) result
        (indices_at scope.now at (indices_tree indices.now).second (indices_tree indices.now).first
        shape) }
    ensures small { IfOk result (λ place. (place.0 < 2 ^ 32) × (place.1 < 2 ^ 32)) }
    ensures without_memory { IfErr result (λ refused. refused ≢ Memory) }
{
    match (&indices.second, shape) {
        (None, ShapeOf::Vector(n)) => {
            let row = index_within(scope, &indices.first, n)?;
            Ok((row, 0))
        }
        (Some(second), ShapeOf::Matrix(n, m)) => {
            let row = index_within(scope, &indices.first, n)?;
            let column = index_within(scope, second, m)?;
            Ok((row, column))
        }
        _ => Err(CheckRefused::Bad {
            at,
            kind: CheckKind::Shape,
        }),
    }
}

/// The value of an index within its dimension.
fn index_within<A: Drop>(
    scope: &Scope<A>,
    index: &IndexExpression,
    dimension: u32,
) -> Result<u64, CheckRefused>
    ensures place { Agrees (λ place. place) result
        (place_below scope.now (sum_tree index.now) dimension) }
    ensures small { IfOk result (λ place. place < 2 ^ 32) }
    ensures without_memory { IfErr result (λ refused. refused ≢ Memory) }
{
    let at = index_at(index);
    let value = index_value(scope, at, index)?;
    if is_place(value, dimension) {
        Ok(value.unsigned_abs())
    } else {
        Err(CheckRefused::Bad {
            at,
            kind: CheckKind::Index,
        })
    }
}

fn is_place(value: i64, dimension: u32) -> bool
    ensures { result ≡ is_place_of value dimension }
{
    value >= 0 && value < i64::from(dimension)
}

/// The place of row and column in the list of a shape.
pub fn offset(shape: ShapeOf, row: u64, column: u64) -> usize
    requires row { row < 2 ^ 32 }
    requires column { column < 2 ^ 32 }
    ensures { result ≡ offset_of shape (row, column) }
{
    match shape {
        ShapeOf::Matrix(_, m) => (row * u64::from(m) + column) as usize,
        _ => row as usize,
    }
}
