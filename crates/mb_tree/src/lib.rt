//! Trees of files with a tile each: packed into a tile set, and unpacked out of one.
#![tactic(auto)]

mod base;
mod folder_files;
mod folder_tree;
mod folder_writing;
mod format;
pub mod laws;
mod mem_tree;
mod naming;
mod pack_tree;
mod packing;
mod scheme;
mod tests_of_paths;
mod tile_path;
mod tree;
mod unpack_tree;

pub use folder_tree::FolderTree;
pub use mem_tree::MemTree;
pub use pack_tree::pack;
pub use scheme::TileScheme;
pub use tree::{TileTree, TreeError};
pub use unpack_tree::unpack;
