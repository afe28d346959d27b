//! Tile coordinates and Hilbert tile ids.
#![tactic(auto)]

mod coord;
mod error;
mod hilbert;
mod id;
mod interval;
pub mod laws;
mod orientation;

pub use coord::{MAX_ZOOM, TileCoord, invert_y_value, parse_tile_index};
pub use error::TileError;
pub use id::{MAX_TILE_ID, PYRAMID_SIZE_BY_ZOOM, TileId};
pub use interval::subtree_interval;
