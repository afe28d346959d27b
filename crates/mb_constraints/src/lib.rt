//! The constraints on the tables of a tile set: the tests that its rows must pass.
#![tactic(auto)]

mod algorithm;
mod described;
mod diff_hashes;
mod hashes;
mod references;
mod tile_rows;

pub use algorithm::algorithm_by;
pub use described::has_metadata;
pub use diff_hashes::{test_base_hashes, test_patch_hashes};
pub use hashes::{test_content_hashes, test_tile_hashes};
pub use references::test_references;
pub use tile_rows::test_tiles;
