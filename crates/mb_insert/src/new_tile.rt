// Tiles that are to be put into a set.
use base_values::BlobVal;

/// A tile of a batch.
#[derive(Debug, Drop)]
pub struct NewTile {
    /// The zoom, 0 to 30.
    pub z: u8,
    /// The column from the left, below two to the zoom.
    pub x: u32,
    /// The row from the top, below two to the zoom.
    pub y: u32,
    /// The bytes.
    pub tile_data: BlobVal,
}
