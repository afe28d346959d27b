//! Archives of a part of an archive: its tiles whose ids lie in intervals, as those of a tile and its
//! descendants down to a zoom.
#![tactic(auto)]

mod boxes;
mod collection;
mod error;
mod extraction;
mod id_intervals;
pub mod laws;
mod opening;
mod outcome;
mod part;
mod quadrants;
mod subtree;
mod top_call;
mod words;
mod writing;
mod zoom_box;

pub use boxes::{box_intervals, box_part, said_boxes};
pub use collection::{collect, collect_intervals, options_from, part_options};
pub use error::ExtractError;
pub use extraction::{extract, extract_intervals};
pub use id_intervals::IdIntervals;
pub use outcome::{ExtractOutcome, extract_status};
pub use part::TilePart;
pub use subtree::subtree_intervals;
pub use top_call::run_extract;
pub use writing::write_parts;
pub use zoom_box::ZoomBox;
