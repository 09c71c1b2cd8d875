//! Tasks that wait for a value.

use arr_ast::{
    AddedTerm, Expression, Factor, PairFunction, ShapeOf, Sign, SingleFunction, TimesFactor,
};

/// What an evaluation goes on with: the value of a factor inside, or a value that is found.
#[derive(Drop)]
pub enum Next<'t, A> {
    Inner(&'t Factor),
    Found(ShapeOf, A),
}

/// What is done with a value once it is found.
#[derive(Drop)]
pub enum Task<'t, A> {
    /// To add further terms to it.
    Terms(&'t [AddedTerm]),
    /// To add it to another value, or to take it from that, and then to add further terms.
    Signed {
        sign: Sign,
        at: usize,
        shape: ShapeOf,
        array: A,
        further: &'t [AddedTerm],
    },
    /// To multiply it by further factors.
    Factors(&'t [TimesFactor]),
    /// To multiply another value by it, and then by further factors.
    Product {
        at: usize,
        shape: ShapeOf,
        array: A,
        further: &'t [TimesFactor],
    },
    /// To negate it.
    Opposite {
        at: usize,
    },
    /// To apply a function of one argument to it.
    Single {
        function: SingleFunction,
        at: usize,
    },
    /// To apply a function of two arguments to it and to an expression.
    Left {
        function: PairFunction,
        at: usize,
        right: &'t Expression,
    },
    /// To apply a function of two arguments to another value and to it.
    Right {
        function: PairFunction,
        at: usize,
        shape: ShapeOf,
        array: A,
    },
    /// To pass it to the definition at a place, after what was passed and before further arguments.
    Argument {
        at: usize,
        place: usize,
        passed: Vec<(ShapeOf, A)>,
        further: &'t [Expression],
    },
}
