//! Calls that promise what other crates' public calls promise: an edit that makes one of them mean
//! something else must be refused.
#![tactic(auto)]

mod archives;
mod checking;
mod input;
mod serving;
mod writing;

pub use archives::{decode, header_bytes, next_entry, put_content};
pub use checking::{check, entries_below};
pub use input::{id, place, read};
pub use serving::{held_after, reply, serve};
pub use writing::{add, end, finish};
