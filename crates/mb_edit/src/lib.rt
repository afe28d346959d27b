//! Edits of tile sets: patches of whole tiles, and tiles that are put.
#![tactic(auto)]

mod apply;
mod collision;
pub mod laws;
mod patch;
mod patching_order;
mod put;

pub use apply::apply_patch;
pub use mb_load::commit_loaded;
pub use patch::patch_loaded;
pub use patching_order::{
    test_hashes_of_base, test_hashes_of_patch, test_patchable, test_whole_tiles,
};
pub use put::{move_tiles, put_tiles, test_editable};
