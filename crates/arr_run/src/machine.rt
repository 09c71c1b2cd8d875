//! What arrays are.

ghost use Rattle.std.specs.Prelude.{◌≡◌, IfOk};
ghost use Rattle.arr_run.specs.Operations.{Operations};

use arr_ast::{PairFunction, ShapeOf, Sign, SingleFunction};
use std::alloc::AllocError;

/// A kind of arrays, and what is kept beside them. A call is given shapes that fit.
pub trait Machine {
    type Array: Drop;

    /// What each call below gives.
    ghost operations: { Operations Self.Array Self };

    /// The array of another name, with which it is shared.
    fn share(&self, array: &Self::Array) -> Result<Self::Array, AllocError>
        ensures { IfOk result (λ found. found ≡ array.now) };

    /// The next input.
    fn input(&mut self, shape: ShapeOf) -> Result<Self::Array, AllocError>
        ensures { IfOk result (λ found. operations.input shape self.old ≡ (found, self.new)) };

    /// A number, as a scalar.
    fn constant(&mut self, value: u32) -> Result<Self::Array, AllocError>
        ensures { IfOk result (λ found. operations.constant value self.old ≡ (found, self.new)) };

    /// A sum or a difference, element by element.
    fn signed(
        &mut self,
        sign: Sign,
        left: Self::Array,
        right: Self::Array,
    ) -> Result<Self::Array, AllocError>
        ensures { IfOk result (λ found.
            operations.signed sign left right self.old ≡ (found, self.new)) };

    /// A product, element by element.
    fn product(&mut self, left: Self::Array, right: Self::Array) -> Result<Self::Array, AllocError>
        ensures { IfOk result (λ found. operations.product left right self.old
            ≡ (found, self.new)) };

    /// A negation.
    fn opposite(&mut self, array: Self::Array) -> Result<Self::Array, AllocError>
        ensures { IfOk result (λ found. operations.opposite array self.old ≡ (found, self.new)) };

    /// A function of one argument.
    fn single(
        &mut self,
        function: SingleFunction,
        shape: ShapeOf,
        array: Self::Array,
    ) -> Result<Self::Array, AllocError>
        ensures { IfOk result (λ found.
            operations.single function shape array self.old ≡ (found, self.new)) };

    /// A function of two arguments.
    fn pair(
        &mut self,
        function: PairFunction,
        left_shape: ShapeOf,
        right_shape: ShapeOf,
        left: Self::Array,
        right: Self::Array,
    ) -> Result<Self::Array, AllocError>
        ensures { IfOk result (λ found.
            operations.pair function left_shape right_shape left right self.old
            ≡ (found, self.new)) };

    /// The element at a place, as a scalar.
    fn element(&self, array: &Self::Array, place: usize) -> Self::Array
        ensures { result ≡ operations.element array.now place };

    /// The array with a scalar at a place. Its elements are copied where others share them.
    fn with_element(
        &self,
        array: Self::Array,
        place: usize,
        element: Self::Array,
    ) -> Result<Self::Array, AllocError>
        ensures { IfOk result (λ found. found ≡ operations.with_element array place element) };

    /// An output.
    fn output(&mut self, array: Self::Array) -> Result<(), AllocError>
        ensures { IfOk result (λ _. self.new ≡ operations.output array self.old) };
}
