//! A loaded tile set: what it holds, its edits, the changes that they come to, and the hash of its tiles.
#![tactic(auto)]

mod adding;
mod aggregate;
mod assembling;
mod changes;
mod copying;
mod editing;
mod empty;
mod given_ids;
mod into_changes;
mod last_uses;
mod loaded;
mod moved_rows;
mod moving;
mod put_rows;
mod sharing;
mod single_edits;
mod spending;
mod taking;

pub use assembling::set_of;
pub use editing::Editing;
pub use given_ids::GivenIds;
pub use loaded::Loaded;
pub use put_rows::id_key;
