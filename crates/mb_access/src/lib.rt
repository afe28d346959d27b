//! A tile set by its calls: what stands at a coordinate, and between which zooms; and its name by the path of its file.
#![tactic(auto)]

mod described;
mod finding;
mod hashed;
pub mod laws;
mod mbtiles;
mod mbtiles_inserts;
mod mbtiles_metadata;
mod reads;
mod stream_state;
mod streams;

pub use mb_insert::{CopyDuplicateMode, NewTile, insert_tiles};
pub use mb_metadata::{Metadata, UpdateZoomType, compute_min_max_zoom};
pub use mbtiles::Mbtiles;
pub use stream_state::StreamState;
pub use streams::{Coords, Tiles};
