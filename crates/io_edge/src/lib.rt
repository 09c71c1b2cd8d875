//! The outside of the program: where its bytes come from, where they go, and where its workers pass.
//!
//! [`Source`] and [`Sink`] follow `std::io::Read` and `std::io::Write`, and add a count of failures that never falls:
//! a call answers [`Failed`] only where that count rose. A proof over any source and sink thus names the failure that
//! it met. [`StdSource`] and [`StdSink`] work over a reader and a writer of std, and are the program's own edge. The
//! ends in memory serve tests: [`MemorySource`] and [`MemorySink`] move a few bytes a call and fail where they are
//! to, and [`SteadySource`] and [`SteadySink`] never fail. [`Gate`] is where a test holds a worker.
//!
//! ```
//! let mut source = SteadySource::new(alloc, b"abc", 2)?;
//! let mut room = [0; 8];
//! // Ok(2), and room begins with "ab".
//! let count = source.read(&mut room);
//! ```
#![tactic(auto)]

mod copying;
mod failed;
mod gate;
mod memory_sink;
mod memory_source;
mod schedule;
mod sink;
mod source;
mod std_sink;
mod std_source;
mod steady_sink;
mod steady_source;

pub use failed::Failed;
pub use gate::{Gate, OpenGate};
pub use memory_sink::MemorySink;
pub use memory_source::MemorySource;
pub use sink::Sink;
pub use source::Source;
pub use std_sink::StdSink;
pub use std_source::StdSource;
pub use steady_sink::SteadySink;
pub use steady_source::SteadySource;
