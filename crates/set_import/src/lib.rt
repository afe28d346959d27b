//! Sets that are made of archives, with what the archives say of themselves.
#![tactic(auto)]

mod batch;
mod entries;
mod filling;
pub mod laws;
mod making;
pub mod round_trip;
mod runs;
mod said;
mod status;
mod storing;
mod streaming;
mod words;

pub use making::{import_as_said, import_streamed};
pub use status::import_status;
pub use words::{MAX_TILES, limit_of};
