//! The nodes of programs of the array language: leaves, constants, and sums and products of two nodes.
//!
//! The run is that of `arr_run`, where an array is the list of its elements' nodes, and a node is made where the run over numbers
//! makes a number. An input's element is a leaf, a constant is made at its first use, a difference is a sum with -1 times
//! the right side, and a sum of many is halved until two are left. So the nodes are in the order of their making, each
//! after those that it names (Thaler, "Proofs, Arguments, and Zero-Knowledge", 4.6, for layered arithmetic circuits).
//! The definition is `nodes_of`, in `specs/Lowering.antt`, with the table `nodes` of what each operation makes, and [`laws`] states what holds of it.
//!
//! `input a; input b; output a * b + 2;` gives the nodes a, b, a * b, 2 and their sum, which is the output.
#![tactic(auto)]

pub mod laws;
mod lowering;
mod machine;
mod matrix;
mod nodes;
mod operation;
mod operator;
mod sum;

pub use lowering::lower;
