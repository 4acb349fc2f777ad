//! The streams of bytes that a program reads and writes: sources and sinks, which count their faults, with their forms in
//! memory and over the readers and writers of std. A source is read to its end, and a whole piece is written.
#![tactic(auto)]

mod sink;
mod source;

pub use sink::{MemorySink, Sink, StdSink, SureSink, write_all};
pub use source::{Failed, MemorySource, ReadFault, Source, StdSource, SureSource, read_all};
