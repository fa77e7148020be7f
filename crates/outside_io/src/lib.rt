//! What lies outside the program: sources of bytes, sinks for bytes and takers of pieces, each
//! with the causes of its faults.
#![tactic(auto)]

pub mod memory_sinks;
pub mod memory_sources;
pub mod reading;
pub mod std_streams;
#[cfg(test)]
mod tests;
pub mod traits;
pub mod writing;

pub use memory_sinks::{CleanSink, MemSink};
pub use memory_sources::{CleanSource, MemSource};
pub use reading::{ReadEnd, read_all, read_pieces};
pub use std_streams::{StdSink, StdSource};
pub use traits::{Got, Put, Sink, Source, Taker};
pub use writing::{WriteFault, write_all};
