//! What operations make of values that are found: a shape that fits, and the array.

ghost use Rattle.std.specs.Prelude.{◌≡◌, Ok, option_copied};
ghost use Rattle.arr_ast.specs.ExpressionTree.{name_tree, indices_tree};
ghost use Rattle.arr_ast.specs.declared.shape.ShapeOf.TheVariants.{Scalar};
ghost use Rattle.arr_scope.specs.Agrees.{Agrees};
ghost use Rattle.arr_run.specs.Expression.{constant_value as value_of_constant, bound_value, element_value as value_of_element, signed_value as value_of_sum, product_value as value_of_product, opposite_value as value_of_opposite, single_value as value_of_single, pair_value as value_of_pair};
ghost use Rattle.arr_scope.specs.Scope.{binding_of};

use crate::machine::Machine;
use arr_ast::{Indices, Name, PairFunction, ShapeOf, Sign, SingleFunction};
use arr_scope::{
    Bound, CheckKind, CheckRefused, Counts, Scope, offset, opposite_shape, pair_shape, place_in,
    signed_shape, single_shape, times_shape, use_constant,
};

/// A number.
pub fn constant_value<M: Machine>(
    counts: &mut Counts,
    machine: &mut M,
    at: usize,
    value: u32,
) -> Result<(ShapeOf, M::Array), CheckRefused>
    ensures { Agrees (λ found. (found.0, found.1, counts.new, machine.new)) result
        (value_of_constant M.operations at value counts.old machine.old) }
{
    use_constant(counts, at, value)?;
    Ok((ShapeOf::Scalar, machine.constant(value)?))
}

/// What a name stands for.
pub fn name_value<M: Machine>(
    scope: &Scope<M::Array>,
    counts: &mut Counts,
    machine: &mut M,
    name: &Name,
) -> Result<(ShapeOf, M::Array), CheckRefused>
    ensures { Agrees (λ found. (found.0, found.1, counts.new, machine.new)) result
        (bound_value M.operations name.now.at (binding_of name.now.number scope.now) counts.old
        machine.old) }
{
    match scope.get(name.number) {
        Some(Bound::Value(shape, array)) => Ok((*shape, machine.share(array)?)),
        Some(Bound::Turn(number)) => constant_value(counts, machine, name.at, *number),
        None => Err(CheckRefused::Bad {
            at: name.at,
            kind: CheckKind::Unknown,
        }),
    }
}

/// An element of a name.
pub fn element_value<M: Machine>(
    scope: &Scope<M::Array>,
    machine: &M,
    name: &Name,
    indices: &Indices,
) -> Result<(ShapeOf, M::Array), CheckRefused>
    ensures { (counts : Counts) (kept : M) →
        Agrees (λ found. (found.0, found.1, counts, kept)) result
        (value_of_element M.operations scope.now name.now.at (indices_tree indices.now)
        (binding_of name.now.number scope.now) counts kept) }
{
    match scope.get(name.number) {
        Some(Bound::Value(shape, array)) => {
            let (row, column) = place_in(scope, name.at, indices, *shape)?;
            let place = offset(*shape, row, column);
            Ok((ShapeOf::Scalar, machine.element(array, place)))
        }
        Some(Bound::Turn(_)) => Err(CheckRefused::Bad {
            at: name.at,
            kind: CheckKind::Shape,
        }),
        None => Err(CheckRefused::Bad {
            at: name.at,
            kind: CheckKind::Unknown,
        }),
    }
}

/// A sum or a difference.
#[inline(never)]
pub fn signed_value<M: Machine>(
    counts: &mut Counts,
    machine: &mut M,
    sign: Sign,
    at: usize,
    left: (ShapeOf, M::Array),
    right: (ShapeOf, M::Array),
) -> Result<(ShapeOf, M::Array), CheckRefused>
    ensures { Agrees (λ found. (found.0, found.1, counts.new, machine.new)) result
        (value_of_sum M.operations sign at (left.0, left.1, counts.old, machine.old)
        (right.0, right.1, counts.old, machine.old)) }
{
    let shape = signed_shape(counts, sign, at, left.0, right.0)?;
    Ok((shape, machine.signed(sign, left.1, right.1)?))
}

/// A product.
#[inline(never)]
pub fn product_value<M: Machine>(
    counts: &mut Counts,
    machine: &mut M,
    at: usize,
    left: (ShapeOf, M::Array),
    right: (ShapeOf, M::Array),
) -> Result<(ShapeOf, M::Array), CheckRefused>
    ensures { Agrees (λ found. (found.0, found.1, counts.new, machine.new)) result
        (value_of_product M.operations at (left.0, left.1, counts.old, machine.old)
        (right.0, right.1, counts.old, machine.old)) }
{
    let shape = times_shape(counts, at, left.0, right.0)?;
    Ok((shape, machine.product(left.1, right.1)?))
}

/// A negation.
#[inline(never)]
pub fn opposite_value<M: Machine>(
    counts: &mut Counts,
    machine: &mut M,
    at: usize,
    found: (ShapeOf, M::Array),
) -> Result<(ShapeOf, M::Array), CheckRefused>
    ensures { Agrees (λ found. (found.0, found.1, counts.new, machine.new)) result
        (value_of_opposite M.operations at (found.0, found.1, counts.old, machine.old)) }
{
    let shape = opposite_shape(counts, at, found.0)?;
    Ok((shape, machine.opposite(found.1)?))
}

/// A function of one argument.
#[inline(never)]
pub fn single_value<M: Machine>(
    counts: &mut Counts,
    machine: &mut M,
    function: SingleFunction,
    at: usize,
    found: (ShapeOf, M::Array),
) -> Result<(ShapeOf, M::Array), CheckRefused>
    ensures { Agrees (λ found. (found.0, found.1, counts.new, machine.new)) result
        (value_of_single M.operations function at
        (found.0, found.1, counts.old, machine.old)) }
{
    let shape = single_shape(counts, function, at, found.0)?;
    Ok((shape, machine.single(function, found.0, found.1)?))
}

/// A function of two arguments.
#[inline(never)]
pub fn pair_value<M: Machine>(
    counts: &mut Counts,
    machine: &mut M,
    function: PairFunction,
    at: usize,
    left: (ShapeOf, M::Array),
    right: (ShapeOf, M::Array),
) -> Result<(ShapeOf, M::Array), CheckRefused>
    ensures { Agrees (λ found. (found.0, found.1, counts.new, machine.new)) result
        (value_of_pair M.operations function at (left.0, left.1, counts.old, machine.old)
        (right.0, right.1, counts.old, machine.old)) }
{
    let shape = pair_shape(counts, function, at, left.0, right.0)?;
    let array = machine.pair(function, left.0, right.0, left.1, right.1)?;
    Ok((shape, array))
}
