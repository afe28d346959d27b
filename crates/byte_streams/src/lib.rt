//! Where bytes come from and go to: the traits of sources and sinks, both in memory and over streams of std, and the
//! calls that read or write all of one.
#![tactic(auto)]

mod input;
mod mem_sink;
mod mem_source;
mod output;
mod sink;
mod source;
mod std_streams;
mod taker;

pub use input::{InputError, MAX_INPUT, read_input, take_input};
pub use mem_sink::MemSink;
pub use mem_source::MemSource;
pub use output::write_all;
pub use sink::{Sink, SinkFault};
pub use source::{Source, SourceFault};
pub use std_streams::{StdSink, StdSource};
pub use taker::InputTaker;
