// Scripts: options, a base, patches, and the coordinates that are asked for.
mod cell;
mod draft;
mod error;
mod line;
mod options;
mod reader;
mod reading;
mod setting;
mod text;

pub use error::ScriptError;
pub use line::Line;
use mb_store::MemStore;
pub use options::ScriptOptions;
pub use reader::ScriptReader;
pub use reading::parse_script;
pub use setting::Setting;
use tile_ids::TileCoord;

/// A script that was read.
#[derive(Drop)]
pub struct ParsedScript {
    /// How the base is converted.
    pub options: ScriptOptions,
    /// The base.
    pub base: MemStore,
    /// The patches, in the order in which they are taken.
    pub patches: Vec<MemStore>,
    /// The coordinates that are asked for, in their order.
    pub queries: Vec<TileCoord>,
}
