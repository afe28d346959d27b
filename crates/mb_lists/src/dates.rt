// The times of a tile of a cache.
use mb_tables::Cell;

/// The times that a cache keeps for a tile, each as its row has it.
#[derive(Debug, Drop)]
pub struct Dates {
    /// When the tile was fetched: a number, or null.
    pub fetched: Cell,
    /// When it expires: a number, or null.
    pub expires: Cell,
    /// Its version: a text, or null.
    pub etag: Cell,
}
