//! Lists that many names may stand for, each seen as the list of its items.
//!
//! A second hold on a list costs no copy, and neither does the transpose of a matrix that is held
//! row by row: it is the list with a mark that its rows and columns are exchanged. An item that is
//! set where others hold the list too stands beside the list, as a change of this holder alone: the
//! changes are a tree, of which one more copies a path. A short list is copied instead, and a long
//! one once as many of its items were set as pay for the copy. So an item that is set costs about
//! what it changes. A list is put in order when it is read as a slice.
//!
//! A list of 1 to 6 as 2 rows of 3, transposed, is 1, 4, 2, 5, 3, 6.
#![tactic(auto)]

mod changes;
mod held;
mod items;
mod list;
mod turning;

pub use list::SharedList;
