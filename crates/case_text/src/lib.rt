//! Case text: a program and the numbers that go with it.
//!
//! A case is a line `gkr case 1` or `gkr case 2`, which says the program's language, a program after its length in bytes, a
//! line of inputs, perhaps a line of outputs, perhaps a proof in hex digits, and a line `end`:
//! `gkr case 1\nprogram 9\noutput 7;\ninput 0\nend\n`. Which of the middle lines there are is its [`Form`]. Reading takes
//! the bytes one by one, each by the part that is due, so a refusal has one place and one kind. Values are elements of the
//! field of 2^31 - 1 numbers. [`Reply`] is what the program answers, and [`write_reply`] its lines. The format is this
//! project's own.
#![tactic(auto)]

mod case;
pub mod laws;
mod reply;

pub use case::Case;
pub use case::form::Form;
pub use case::reading::{case_of, counted, read_case};
pub use case::refusal::{BadCase, CaseRefused, refusal_of};
pub use case::writing::write_case;
pub use reply::demo::DemoSummary;
pub use reply::history::{HistoryLine, ServedHistory, write_history};
pub use reply::outputs::Outputs;
pub use reply::served::{ServedJob, ServedJobs, write_served};
pub use reply::session::SessionSizes;
pub use reply::sizes::{CircuitSizes, LayerSize};
pub use reply::verdict::{AuditLines, MessagePlace, VerdictLine};
pub use reply::{Reply, write_reply};
pub use text_parts::DueKind;
