//! What an archive says beside its tiles, by what its set says of itself, and the way back: an
//! archive's document for a set.
#![tactic(auto)]

mod archive_json;
mod degrees;
pub mod degrees_text;
mod document;
mod extents;
mod extents_text;
mod facts;
mod format;
pub mod laws;
mod options;
mod parting;
mod set_names;
mod understood;

pub use archive_json::is_left_out;
pub use document::document_of_archive;
pub use extents::{SetBounds, SetCenter};
pub use facts::{TileFacts, is_gzip};
pub use options::{SetOptions, options_of_set};
pub use set_names::SetNames;
pub use understood::is_understood;
