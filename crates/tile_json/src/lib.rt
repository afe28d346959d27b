//! What a tile set says of itself, as a TileJSON document has it: its texts, zooms, bounds and layers.
#![tactic(auto)]

mod document;
mod error;
mod extent;
mod floats;
mod json_reading;
mod json_value;
mod layer;
mod layer_reading;
mod members;
mod reading;
mod text_map;

pub use document::TileJson;
pub use error::DocumentError;
pub use extent::{TileBounds, TileCenter};
pub use floats::has_float;
pub use json_value::JsonVal;
pub use layer::{LayerList, VectorLayer};
pub use text_map::{JsonFields, TextFields, TextMap};
