//! Inserting a batch of tiles into a tile set: over it, under it or beside it, in one commit.
#![tactic(auto)]

mod batch;
mod insert;
pub mod laws;
mod mode;
mod new_tile;
mod tests_of_batch;

pub use insert::insert_tiles;
pub use mode::CopyDuplicateMode;
pub use new_tile::NewTile;
