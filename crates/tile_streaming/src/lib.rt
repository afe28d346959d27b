//! Conversions that hold no contents: a mark of each tile, and one content at a time.
#![tactic(auto)]

mod beginning;
mod collisions;
mod content_marks;
mod contents;
mod converting;
mod described;
mod error;
mod finding;
mod hashing;
pub mod laws;
mod layouts;
mod mark;
mod mark_facts;
mod marking;
mod names;
mod options;
mod ordering;
mod overlaid;
mod part;
mod patched_set;
mod patching;
mod reading;
mod refusing;
mod report;
mod resolving;
mod rest;
mod row_marks;
mod row_tests;
mod seen_rows;
mod sizing;
mod spots;
mod streaming;
mod unnamed;
mod verifying;
mod writing;

pub use error::StreamError;
pub use mark::{Mark, MarkedSet};
pub use marking::read_marks;
pub use options::StreamOptions;
pub use report::StreamReport;
pub use streaming::{convert_part, convert_patched, convert_streamed};
