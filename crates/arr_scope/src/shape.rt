//! The shapes of operators and functions.

ghost use Rattle.std.specs.Prelude.{◌≡◌, ◌≢◌, ◌*◌, ◌+◌, ◌-◌, IfErr, OnErr};
ghost use Rattle.arr_scope.specs.Agrees.{Agrees};
ghost use Rattle.arr_ast.specs.declared.expression.Sign.TheVariants.{Plus};
ghost use Rattle.arr_scope.specs.declared.refused.CheckKind.TheVariants.{Shape};
ghost use Rattle.arr_scope.specs.declared.refused.CheckRefused.TheVariants.{Bad, Memory};
ghost use Rattle.arr_scope.specs.Shape.{size_of, same_shape, for_nodes, for_minus_one, sum_shape, product_shape, single_shape as shape_of_single, pair_shape as shape_of_pair};

use crate::counts::{Counts, add_nodes, add_nodes_each, use_constant_each};
use crate::refused::{CheckKind, CheckRefused};
use arr_ast::{PairFunction, ShapeOf, Sign, SingleFunction};

const MINUS_ONE: u32 = 2_147_483_646;

/// How many numbers a value has.
pub fn size(shape: ShapeOf) -> u64
    ensures { result ≡ size_of shape }
{
    match shape {
        ShapeOf::Scalar => 1,
        ShapeOf::Vector(n) => u64::from(n),
        ShapeOf::Matrix(n, m) => u64::from(n) * u64::from(m),
    }
}

/// Whether two shapes are equal.
pub fn is_alike(left: ShapeOf, right: ShapeOf) -> bool
    ensures { result ≡ same_shape left right }
{
    match (left, right) {
        (ShapeOf::Scalar, ShapeOf::Scalar) => true,
        (ShapeOf::Vector(n), ShapeOf::Vector(m)) => n == m,
        (ShapeOf::Matrix(n, m), ShapeOf::Matrix(k, q)) => n == k && m == q,
        _ => false,
    }
}

/// The refusal of a shape.
fn misshapen(at: usize) -> CheckRefused
    ensures { result ≡ Bad at Shape }
{
    CheckRefused::Bad {
        at,
        kind: CheckKind::Shape,
    }
}

/// The shape of the opposite of a value of this shape.
pub fn opposite_shape(
    counts: &mut Counts,
    at: usize,
    shape: ShapeOf,
) -> Result<ShapeOf, CheckRefused>
    ensures shape { Agrees (λ shape. (shape, counts.new)) result
        (for_minus_one at (size_of shape) shape counts.old) }
    ensures err { OnErr result (counts.new ≡ counts.old) }
{
    use_constant_each(counts, at, MINUS_ONE, size(shape), 1)?;
    Ok(shape)
}

/// The shape of a sum or a difference.
pub fn signed_shape(
    counts: &mut Counts,
    sign: Sign,
    at: usize,
    left: ShapeOf,
    right: ShapeOf,
) -> Result<ShapeOf, CheckRefused>
    ensures shape { Agrees (λ shape. (shape, counts.new)) result
        (sum_shape sign at left right counts.old) }
    ensures err { OnErr result (counts.new ≡ counts.old) }
    ensures without_memory { sign ≡ Plus → IfErr result (λ refused. refused ≢ Memory) }
{
    if !is_alike(left, right) {
        return Err(misshapen(at));
    }
    match sign {
        Sign::Plus => {
            add_nodes(counts, at, size(left))?;
            Ok(left)
        }
        Sign::Minus => {
            use_constant_each(counts, at, MINUS_ONE, size(left), 2)?;
            Ok(left)
        }
    }
}

/// The shape of a product, element by element.
pub fn times_shape(
    counts: &mut Counts,
    at: usize,
    left: ShapeOf,
    right: ShapeOf,
) -> Result<ShapeOf, CheckRefused>
    ensures shape { Agrees (λ shape. (shape, counts.new)) result
        (product_shape at left right counts.old) }
    ensures err { OnErr result (counts.new ≡ counts.old) }
    ensures without_memory { IfErr result (λ refused. refused ≢ Memory) }
{
    if !is_alike(left, right) {
        return Err(misshapen(at));
    }
    add_nodes(counts, at, size(left))?;
    Ok(left)
}

/// The shape of a call of one argument.
pub fn single_shape(
    counts: &mut Counts,
    function: SingleFunction,
    at: usize,
    shape: ShapeOf,
) -> Result<ShapeOf, CheckRefused>
    ensures shape { Agrees (λ shape. (shape, counts.new)) result
        (shape_of_single function at shape counts.old) }
    ensures err { OnErr result (counts.new ≡ counts.old) }
    ensures without_memory { IfErr result (λ refused. refused ≢ Memory) }
{
    match (function, shape) {
        (SingleFunction::Sum, _) => {
            add_nodes(counts, at, size(shape).saturating_sub(1))?;
            Ok(ShapeOf::Scalar)
        }
        (SingleFunction::Transpose, ShapeOf::Matrix(n, m)) => Ok(ShapeOf::Matrix(m, n)),
        _ => Err(misshapen(at)),
    }
}

/// The shape of a call of two arguments.
pub fn pair_shape(
    counts: &mut Counts,
    function: PairFunction,
    at: usize,
    left: ShapeOf,
    right: ShapeOf,
) -> Result<ShapeOf, CheckRefused>
    ensures shape { Agrees (λ shape. (shape, counts.new)) result
        (shape_of_pair function at left right counts.old) }
    ensures err { OnErr result (counts.new ≡ counts.old) }
    ensures without_memory { IfErr result (λ refused. refused ≢ Memory) }
{
    match (function, left, right) {
        (PairFunction::Scale, ShapeOf::Scalar, _) => {
            add_nodes(counts, at, size(right))?;
            Ok(right)
        }
        (PairFunction::Dot, ShapeOf::Vector(n), ShapeOf::Vector(m)) if n == m => {
            add_nodes(counts, at, nodes_of_dot(n))?;
            Ok(ShapeOf::Scalar)
        }
        (PairFunction::MatMul, ShapeOf::Matrix(n, m), ShapeOf::Matrix(k, q)) if m == k => {
            add_nodes_each(counts, at, u64::from(n) * u64::from(q), nodes_of_dot(m))?;
            Ok(ShapeOf::Matrix(n, q))
        }
        _ => Err(misshapen(at)),
    }
}

/// The nodes of a sum of n products.
fn nodes_of_dot(n: u32) -> u64
    ensures { result ≡ n + n - 1 }
{
    (u64::from(n) + u64::from(n)).saturating_sub(1)
}
