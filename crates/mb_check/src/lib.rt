//! Checks of tile sets: their hashes, what a patch says of itself, validation, and a summary.
#![tactic(auto)]

mod aggregate;
mod patch_info;
mod rows;
mod sizes;
mod tile_counts;
mod totals;
mod updating;
mod validation;
mod zoom_info;

pub use aggregate::{
    calc_agg_tiles_hash, check_agg_tiles_hashes, get_agg_tiles_hash, get_hash_algorithm,
};
pub use patch_info::{PatchFileInfo, assert_hashes, examine_diff, validate_diff_info};
pub use rows::{check_each_tile_hash, check_tiles_type_validity};
pub use tile_counts::Summary;
pub use totals::summary;
pub use updating::update_agg_tiles_hash;
pub use validation::{AggHashType, validate};
pub use zoom_info::{ZoomInfo, ZoomInfoList};
