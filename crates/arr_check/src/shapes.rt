//! Arrays of which nothing is known but the shape.

ghost use Rattle.arr_check.specs.Shapes.{shapes};

use arr_ast::{PairFunction, ShapeOf, Sign, SingleFunction};
use arr_run::Machine;
use std::alloc::AllocError;

/// Arrays that are nothing, and nothing beside them.
#[derive(Clone, Copy)]
pub struct Shapes {}

impl Machine for Shapes {
    type Array = ();

    ghost operations = { shapes };

    fn share(&self, _array: &()) -> Result<(), AllocError> {
        Ok(())
    }

    fn input(&mut self, _shape: ShapeOf) -> Result<(), AllocError> {
        Ok(())
    }

    fn constant(&mut self, _value: u32) -> Result<(), AllocError> {
        Ok(())
    }

    fn signed(&mut self, _sign: Sign, _left: (), _right: ()) -> Result<(), AllocError> {
        Ok(())
    }

    fn product(&mut self, _left: (), _right: ()) -> Result<(), AllocError> {
        Ok(())
    }

    fn opposite(&mut self, _array: ()) -> Result<(), AllocError> {
        Ok(())
    }

    fn single(
        &mut self,
        _function: SingleFunction,
        _shape: ShapeOf,
        _array: (),
    ) -> Result<(), AllocError> {
        Ok(())
    }

    fn pair(
        &mut self,
        _function: PairFunction,
        _left_shape: ShapeOf,
        _right_shape: ShapeOf,
        _left: (),
        _right: (),
    ) -> Result<(), AllocError> {
        Ok(())
    }

    fn element(&self, _array: &(), _place: usize) {}

    fn with_element(&self, _array: (), _place: usize, _element: ()) -> Result<(), AllocError> {
        Ok(())
    }

    fn output(&mut self, _array: ()) -> Result<(), AllocError> {
        Ok(())
    }
}
