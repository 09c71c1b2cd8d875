//! Session text: a case, and the challenges of a live session on it.
//!
//! It is the text of a Plain case, then a line `words C v1 .. vC`, in which each challenge is given by its real and its
//! imaginary part, and then a line `done`. Reading takes the bytes one by one, each by the part that is due, so a refusal has
//! one place and one kind, as for a case. The format is this project's own.
//!
//! ```text
//! gkr case 1\nprogram 9\noutput 7;\ninput 0\nend\nwords 8 2 0 3 0 4 0 6 0\ndone\n
//! ```
#![tactic(auto)]

pub mod laws;
mod reading;
mod session;

pub use reading::read_session;
pub use session::SessionCase;
