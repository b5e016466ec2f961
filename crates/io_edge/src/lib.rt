//! Sources and sinks of bytes that count their faults: the edge between the program and what is outside.
//!
//! A source tells the bytes that are left in it, and a sink those that were written, where it can: one in memory does,
//! a terminal does not. Each counts the reads or writes that failed, so that a caller's contract can say that it answers
//! a fault only where the count rose.
#![tactic(auto)]

mod file;
mod memory;
mod standard;
mod traits;
mod whole;

pub use file::FileSink;
pub use memory::{MemSink, MemSource};
pub use standard::{NoSink, StdSink, StdSource};
pub use traits::{Failed, Sink, Source};
pub use whole::{ReadAllError, read_all, write_all_counted};
