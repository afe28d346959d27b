//! Archives that are read: opened, looked up through leaves, with and without caches of directories.
#![tactic(auto)]

mod cache;
mod entries;
mod front;
pub mod laws;
mod leaves;
mod look_up;
mod metadata;
mod parts;
mod ranges;
mod reader;
mod state;
mod tilejson;
mod tiles;
mod versions;
mod view;
mod walk;

pub use cache::{DirCacheResult, DirectoryCache, HashMapCache, LruDirCache, NoCache};
pub use entries::Entries;
pub use look_up::MAX_LEAVES;
pub use reader::PmTilesReader;
pub use state::ReaderState;
pub use view::ArchiveView;
pub use walk::WalkState;
