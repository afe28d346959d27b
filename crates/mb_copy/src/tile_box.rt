// A box of tiles.

/// A box of columns and rows of zoom 30, each from 0 to below 2^30, both ends included; rows are counted from the top.
/// A box with an end below its beginning, or with a number past the zoom, holds nothing.
#[derive(Clone, Copy, Debug, PartialEq, Eq)]
pub struct TileBox {
    /// The first column.
    pub min_x: u32,
    /// The first row.
    pub min_y: u32,
    /// The last column.
    pub max_x: u32,
    /// The last row.
    pub max_y: u32,
}
