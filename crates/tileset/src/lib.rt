//! The whole converter as one call over streams and a medium, with its report and outcomes.
#![tactic(auto)]

mod converting;
mod dump;
mod hex_dump;
mod load;
mod outcome;
mod outcome_text;
mod places;
mod refusal_text;
mod report;
mod summary;
mod top_call;

pub use byte_streams::{
    InputError, MAX_INPUT, MemSink, MemSource, Sink, SinkFault, Source, SourceFault, StdSink,
    StdSource, read_input, take_input, write_all,
};
pub use outcome::Outcome;
pub use outcome_text::{outcome_line, outcome_status};
pub use tileset_script::{Command, MAX_BULK_REPEAT, MAX_BULK_TILES, command_of};
pub use top_call::run;
