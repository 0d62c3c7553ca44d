//! Bytes in and bytes out: files on a shelf and sinks that take bytes, in memory or real, with each fault counted.
#![tactic(auto)]

mod failing_calls;
mod fault_counts;
mod mem_shelf;
mod mem_sink;
mod real_shelf;
mod real_sink;
mod shelf;
mod sink;

pub use mem_shelf::MemShelf;
pub use mem_sink::MemSink;
pub use real_shelf::RealShelf;
pub use real_sink::RealSink;
pub use shelf::{Failed, NoMemory, OpenError, ReadError, Shelf, read_all};
pub use sink::{Sink, WriteFault, write_all_of};

#[cfg(test)]
mod tests;
