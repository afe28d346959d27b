//! A cache of tiles in a set of the layout Cache: each with the moment when it came, the moment when it expires and a
//! tag, thrown out by age and by size.
#![tactic(auto)]

mod cache;
mod entries;
mod evicting;
mod finding;
pub mod laws;
mod meta_rows;
mod moments;
mod names;
mod opening;
mod pages;
mod purging;
mod reading;
mod seen_rows;
mod seen_tiles;
mod setting;
mod sizing;
mod state;

pub use cache::MbtilesCache;
pub use mb_metadata::Metadata;
pub use moments::{CacheEntryMeta, CachedTile, UnixSeconds};
pub use state::CacheState;
