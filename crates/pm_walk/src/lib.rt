//! Walks along the directories of an archive, which collect its tile entries.
#![tactic(auto)]

mod collection;
mod error;
mod extent;
mod intervals;
mod parts;
mod taker;
mod taking;
mod testing;
mod walk;

pub use collection::{collect, take_entries};
pub use error::WalkError;
pub use extent::{Extent, FIRST_TOO_DEEP};
pub use taker::TakesEntries;
pub use testing::test_range;
