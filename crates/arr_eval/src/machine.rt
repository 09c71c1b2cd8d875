//! Arrays of numbers.

ghost use Rattle.std.specs.Prelude.{◌≡◌, take, drop, IfOk};
ghost use Rattle.arr_eval.specs.Meaning.{numbers, pair as pair_of, single as single_of};

use crate::combined::{added, multiplied, negated_list, subtracted};
use crate::matrix::matrix_product;
use crate::numbers::{dot, scaled, sum};
use arr_ast::{PairFunction, ShapeOf, Sign, SingleFunction};
use arr_run::Machine;
use arr_scope::size;
use field_ext::Fp;
use shared_list::SharedList;
use std::alloc::{AllocError, Global};
use std::marker::Model;

/// Arrays as lists of their elements that many names may share, the inputs that are left, and the outputs so far.
#[derive(Drop)]
pub struct Numbers<'a> {
    pub alloc: Global,
    pub inputs: &'a [Fp],
    pub outputs: Vec<Fp>,
}

impl<'a> Model for Numbers<'a> {
    ghost use Rattle.arr_eval.specs.Meaning.{Kept};

    ghost Value = { Kept };

    ghost view = { λ n. record { inputs = n.inputs.now; outputs = n.outputs.items } };
}

impl<'a> Machine for Numbers<'a> {
    type Array = SharedList<Fp>;

    ghost operations = { numbers };

    fn share(&self, array: &SharedList<Fp>) -> Result<SharedList<Fp>, AllocError> {
        array.share()
    }

    fn input(&mut self, shape: ShapeOf) -> Result<SharedList<Fp>, AllocError> {
        let size = size(shape) as usize;
        let items = Vec::from_slice(self.alloc, prefix(self.inputs, size))?;
        let items = SharedList::new(self.alloc, items)?;
        self.inputs = after(self.inputs, size);
        Ok(items)
    }

    fn constant(&mut self, value: u32) -> Result<SharedList<Fp>, AllocError> {
        Ok(SharedList::one(Fp::reduce(u64::from(value))))
    }

    fn signed(
        &mut self,
        sign: Sign,
        left: SharedList<Fp>,
        right: SharedList<Fp>,
    ) -> Result<SharedList<Fp>, AllocError> {
        match sign {
            Sign::Plus => added(self.alloc, left, &right),
            Sign::Minus => subtracted(self.alloc, left, &right),
        }
    }

    fn product(
        &mut self,
        left: SharedList<Fp>,
        right: SharedList<Fp>,
    ) -> Result<SharedList<Fp>, AllocError> {
        multiplied(self.alloc, left, &right)
    }

    fn opposite(&mut self, array: SharedList<Fp>) -> Result<SharedList<Fp>, AllocError> {
        negated_list(self.alloc, array)
    }

    fn single(
        &mut self,
        function: SingleFunction,
        shape: ShapeOf,
        array: SharedList<Fp>,
    ) -> Result<SharedList<Fp>, AllocError> {
        single(self.alloc, function, shape, array)
    }

    fn pair(
        &mut self,
        function: PairFunction,
        left_shape: ShapeOf,
        right_shape: ShapeOf,
        left: SharedList<Fp>,
        right: SharedList<Fp>,
    ) -> Result<SharedList<Fp>, AllocError> {
        pair(self.alloc, function, left_shape, right_shape, &left, right)
    }

    fn element(&self, array: &SharedList<Fp>, place: usize) -> SharedList<Fp> {
        SharedList::one(array.item_or(place, Fp::zero()))
    }

    fn with_element(
        &self,
        array: SharedList<Fp>,
        place: usize,
        element: SharedList<Fp>,
    ) -> Result<SharedList<Fp>, AllocError> {
        let mut array = array;
        array.set(self.alloc, place, element.item_or(0, Fp::zero()))?;
        Ok(array)
    }

    fn output(&mut self, array: SharedList<Fp>) -> Result<(), AllocError> {
        let items = array.in_order(self.alloc)?;
        self.outputs.extend_from_slice(&items)?;
        Ok(())
    }
}

/// The value of a function of a list of this shape.
fn single(
    alloc: Global,
    function: SingleFunction,
    shape: ShapeOf,
    array: SharedList<Fp>,
) -> Result<SharedList<Fp>, AllocError>
    ensures { IfOk result (λ found. found ≡ single_of function shape array) }
{
    match (function, shape) {
        (SingleFunction::Sum, _) => {
            let items = array.in_order(alloc)?;
            Ok(SharedList::one(sum(&items)))
        }
        (SingleFunction::Transpose, ShapeOf::Matrix(n, m)) => {
            array.transposed(alloc, n as usize, m as usize, Fp::zero())
        }
        _ => Ok(array),
    }
}

/// The value of a function of two lists of these shapes.
fn pair(
    alloc: Global,
    function: PairFunction,
    left_shape: ShapeOf,
    right_shape: ShapeOf,
    left: &SharedList<Fp>,
    right: SharedList<Fp>,
) -> Result<SharedList<Fp>, AllocError>
    ensures { IfOk result
        (λ found. found ≡ pair_of function left_shape right_shape left.now right) }
{
    match (function, left_shape, right_shape) {
        (PairFunction::Scale, _, _) => {
            let factor = left.item_or(0, Fp::zero());
            SharedList::new(alloc, scaled(factor, right.into_vec(alloc)?))
        }
        (PairFunction::Dot, _, _) => {
            let left = left.in_order(alloc)?;
            let right = right.in_order(alloc)?;
            Ok(SharedList::one(dot(&left, &right)))
        }
        (PairFunction::MatMul, ShapeOf::Matrix(n, m), ShapeOf::Matrix(_, q)) => {
            let left = left.in_order(alloc)?;
            let right = right.in_order(alloc)?;
            let items = matrix_product(alloc, n as usize, m as usize, q as usize, &left, &right)?;
            SharedList::new(alloc, items)
        }
        _ => SharedList::new(alloc, Vec::new(alloc)),
    }
}

/// The first numbers, or all of them where there are fewer.
#[tactic(auto, using(crate::proofs::Lists::of_fronts))]
fn prefix(numbers: &[Fp], count: usize) -> &[Fp]
    ensures { result.now ≡ take count numbers.now }
{
    if count <= numbers.len() {
        numbers.split_at(count).0
    } else {
        numbers
    }
}

/// The numbers after the first.
#[tactic(auto, using(crate::proofs::Lists::of_fronts))]
fn after(numbers: &[Fp], count: usize) -> &[Fp]
    ensures { result.now ≡ drop count numbers.now }
{
    if count <= numbers.len() {
        numbers.split_at(count).1
    } else {
        &[]
    }
}
