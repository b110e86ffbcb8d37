//! The outside of the service: what gives bytes, what takes them and what tells the time, each with a written meaning.
//!
//! A source and a sink count their faults, and fail only where that count rises. Each has a form in memory, for tests, and
//! a form over std, which is the trusted edge.
#![tactic(auto)]

mod clock;
mod memory_sink;
mod memory_source;
mod read_all;
mod real;
mod sink;
mod source;
mod steps;

pub use clock::{Clock, ListClock, SystemClock};
pub use memory_sink::MemorySink;
pub use memory_source::MemorySource;
pub use read_all::{ReadEnd, read_to_limit};
pub use real::{ReaderSource, WriterSink};
pub use sink::{Sink, write_all};
pub use source::Source;
pub use steps::Steps;
use thiserror::Error;

/// A device failed. Its count of faults rose.
#[derive(Clone, Copy, Debug, PartialEq, Eq, Error)]
#[error("a device failed")]
pub struct Failed;
