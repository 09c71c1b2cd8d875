//! Arrays of nodes.

ghost use Rattle.arr_lower.specs.Lowering.{nodes};

use crate::nodes::{Nodes, leaves};
use crate::operator::{combined, negated, pair, signed, single};
use arr_ast::{PairFunction, ShapeOf, Sign, SingleFunction};
use arr_run::Machine;
use arr_scope::size;
use circuit_core::Kind;
use shared_list::SharedList;
use std::alloc::{AllocError, Global};
use std::marker::Model;

/// Arrays as lists of nodes that many names may share, all nodes made so far, and the outputs so far.
#[derive(Drop)]
pub struct Lowering {
    pub alloc: Global,
    pub nodes: Nodes,
    pub outputs: Vec<u32>,
}

impl Model for Lowering {
    ghost use Rattle.arr_lower.specs.Lowering.{Kept};

    ghost Value = { Kept };

    ghost view = { λ l. record { nodes = l.nodes; outputs = l.outputs.items } };
}

impl Machine for Lowering {
    type Array = SharedList<u32>;

    ghost operations = { nodes };

    fn share(&self, array: &SharedList<u32>) -> Result<SharedList<u32>, AllocError> {
        array.share()
    }

    fn input(&mut self, shape: ShapeOf) -> Result<SharedList<u32>, AllocError> {
        let items = leaves(&mut self.nodes, self.alloc, size(shape))?;
        SharedList::new(self.alloc, items)
    }

    fn constant(&mut self, value: u32) -> Result<SharedList<u32>, AllocError> {
        Ok(SharedList::one(self.nodes.constant(value)?))
    }

    fn signed(
        &mut self,
        sign: Sign,
        left: SharedList<u32>,
        right: SharedList<u32>,
    ) -> Result<SharedList<u32>, AllocError> {
        signed(&mut self.nodes, self.alloc, sign, &left, &right)
    }

    fn product(
        &mut self,
        left: SharedList<u32>,
        right: SharedList<u32>,
    ) -> Result<SharedList<u32>, AllocError> {
        combined(&mut self.nodes, self.alloc, Kind::Mul, &left, &right)
    }

    fn opposite(&mut self, array: SharedList<u32>) -> Result<SharedList<u32>, AllocError> {
        negated(&mut self.nodes, self.alloc, &array)
    }

    fn single(
        &mut self,
        function: SingleFunction,
        shape: ShapeOf,
        array: SharedList<u32>,
    ) -> Result<SharedList<u32>, AllocError> {
        single(&mut self.nodes, self.alloc, function, shape, array)
    }

    fn pair(
        &mut self,
        function: PairFunction,
        left_shape: ShapeOf,
        right_shape: ShapeOf,
        left: SharedList<u32>,
        right: SharedList<u32>,
    ) -> Result<SharedList<u32>, AllocError> {
        pair(
            &mut self.nodes,
            self.alloc,
            function,
            left_shape,
            right_shape,
            &left,
            &right,
        )
    }

    fn element(&self, array: &SharedList<u32>, place: usize) -> SharedList<u32> {
        SharedList::one(array.item_or(place, 0))
    }

    fn with_element(
        &self,
        array: SharedList<u32>,
        place: usize,
        element: SharedList<u32>,
    ) -> Result<SharedList<u32>, AllocError> {
        let mut array = array;
        array.set(self.alloc, place, element.item_or(0, 0))?;
        Ok(array)
    }

    fn output(&mut self, array: SharedList<u32>) -> Result<(), AllocError> {
        let items = array.in_order(self.alloc)?;
        self.outputs.extend_from_slice(&items)?;
        Ok(())
    }
}
