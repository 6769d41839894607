//! Sources and sinks of bytes, reading to the end and writing whole, and a count of faults that
//! shows each failure.
#![tactic(auto)]

mod counts;
mod laws;
mod limits;
mod mem_sink;
mod mem_source;
mod sink;
mod source;
mod std_edge;
#[cfg(test)]
mod tests;
mod transfer;

pub use laws::limits_of_reads;
pub use limits::READ_BYTES;
pub use mem_sink::MemSink;
pub use mem_source::MemSource;
pub use sink::Sink;
pub use source::{Failed, Source};
pub use std_edge::{StdSink, StdSource};
pub use transfer::{ReadStop, read_all, read_most, write_all};
