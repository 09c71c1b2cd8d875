//! The values that programs of the array language put out, over the field of 2^31 - 1 elements.
//!
//! An array is a shape and its elements, row by row; names that stand for one array share its
//! elements, and so does its transpose. Addition, subtraction, multiplication and
//! negation work element by element, modulo p; `sum`, `dot`, `matmul` and `transpose` are those of
//! linear algebra (Strang, "Introduction to Linear Algebra", ch. 1 and 2). A loop runs its body
//! once for each number of its range. The definition is `meaning`, in `specs/Meaning.antt`: the run
//! of `arr_run` with the table `numbers`, which says what each operation does; [`laws`] states what holds of it.
//!
//! `input a[3]; output sum(a * a);` over 1, 2 and 3 puts out 14: `eval(alloc, &checked, &inputs)`
//! gives `Ok` of a vector with that one element, for the `checked` that `arr_check::check` made.
#![tactic(auto)]

mod combined;
mod evaluation;
pub mod laws;
mod machine;
mod matrix;
mod numbers;
mod refused;

pub use evaluation::eval;
pub use refused::EvalRefused;
