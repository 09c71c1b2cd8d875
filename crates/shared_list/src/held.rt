//! How the items of a list are held.

use crate::items::Items;
use std::alloc::Global;

/// One item by itself, a list, or a list whose rows and columns are exchanged. A transpose stands in
/// a place of its own, so that this stays small: values of programs are moved often.
#[derive(Drop)]
pub enum Held<T> {
    One(T),
    Rows(Items<T>),
    Turned(Box<Transpose<T>>),
}

/// The transpose of so many rows of so many columns; past the end of the list is `nothing`.
#[derive(Drop)]
pub struct Transpose<T> {
    pub alloc: Global,
    pub nothing: T,
    pub items: Items<T>,
    pub rows: u32,
    pub columns: u32,
}
