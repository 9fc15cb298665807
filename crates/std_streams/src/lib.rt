//! Readers and writers of the standard library as sources and sinks.
//!
//! `ReaderSource` and `WriterSink` count the errors of what they wrap, tell nothing of its bytes, and make an interrupted call again.
#![tactic(auto)]

mod streams;

pub use streams::{ReaderSource, WriterSink};
