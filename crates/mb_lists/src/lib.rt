//! What a tile set keeps of its rows in memory: tiles, names and contents, each in a list in the order of its keys.
#![tactic(auto)]

mod clearing;
mod content_list;
mod dates;
mod dating;
mod dropping;
mod entries;
mod kinds;
pub mod laws;
mod name_list;
mod placing;
mod row_coord;
mod row_tiles;
mod tile_dates;
mod tile_list;

pub use content_list::{ContentList, contents_from, kept_cell, kept_id};
pub use dates::Dates;
pub use dating::push_dated;
pub use dropping::{mark_all, sort_named};
pub use entries::{Content, Standing, StoredName, StoredTile};
pub use kinds::have_id_kinds;
pub use mb_tables::{cell_at, have_tile_kinds};
pub use name_list::NameList;
pub use row_coord::coord_of;
pub use row_tiles::{RowTiles, cache_tiles, flat_tiles, named_tiles};
pub use tile_dates::TileDates;
pub use tile_list::TileList;
