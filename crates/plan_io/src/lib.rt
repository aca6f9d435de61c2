//! Byte sources and sinks: the traits that all readers and writers of the workspace use, with
//! implementations over memory and over std.
#![tactic(auto)]

mod memory;
mod std_sink;
mod std_source;
mod tally;
mod traits;
mod whole;

pub use memory::{MemSink, MemSource};
pub use std_sink::StdSink;
pub use std_source::StdSource;
pub use tally::Tally;
pub use traits::{DeviceFault, Sink, Source};
pub use whole::{InputError, MOST_CALLS, OutputError, read_beyond, write_whole};
