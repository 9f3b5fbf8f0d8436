// The outside: a source of bytes and a sink, in memory and over readers and writers.
#![tactic(auto)]

mod memory;
mod sink;
mod source;
mod standard;
mod streams;

pub use memory::{MemorySink, MemorySource, SureSink, SureSource};
pub use sink::Sink;
pub use source::{Failed, Source};
pub use standard::{StdSink, StdSource};
pub use streams::{MAX_JOB_LEN, ReadError, read_all, write_all};
