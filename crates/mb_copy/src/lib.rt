//! Copying one tile set into another: by zooms and boxes, over, under or beside what is there, into any layout.
#![tactic(auto)]

mod box_list;
mod chosen;
mod commit_anew;
mod copied;
mod copier;
mod copy_type;
mod copying;
mod copying_patched;
mod edits;
mod names;
mod patch_order;
mod patched_source;
mod refusals;
mod target;
mod tile_box;
mod wanted;
mod zoom_levels;

pub use box_list::BoxList;
pub use copier::MbtilesCopier;
pub use copy_type::CopyType;
pub use mb_insert::CopyDuplicateMode;
pub use tile_box::TileBox;
pub use zoom_levels::ZoomLevels;
