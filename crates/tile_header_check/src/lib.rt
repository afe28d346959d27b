//! Archives whose header is checked: what it says of their tiles and their metadata is so, or the first that isn't.
#![tactic(auto)]

mod checking;
mod clustering;
mod fault;
mod fault_text;
mod metadata;
mod tiles;

pub use checking::check_header;
pub use fault::{HeaderError, HeaderFault, MetadataFault};
pub use fault_text::fault_line;
