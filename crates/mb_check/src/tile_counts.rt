// What a summary tells.
use crate::ZoomInfoList;
use mb_store::MbtType;

/// Counts and sizes of the tiles of a set. Tiles whose contents are null are counted, and have no size.
#[derive(Drop)]
pub struct Summary {
    /// Its layout.
    pub mbt_type: MbtType,
    /// How many tiles it has.
    pub tile_count: u64,
    /// The least of the least sizes of its zooms in bytes; a zoom with only null has size 0. None
    /// where there are no tiles.
    pub min_tile_size: Option<u64>,
    /// The greatest of the greatest sizes of its zooms in bytes.
    pub max_tile_size: Option<u64>,
    /// The bytes of all tiles, at most the greatest `u64`.
    pub total_size: u64,
    /// The least zoom, 0 to 30.
    pub min_zoom: Option<u8>,
    /// The greatest zoom, 0 to 30.
    pub max_zoom: Option<u8>,
    /// The zooms that have tiles, by rising zoom.
    pub zoom_info: ZoomInfoList,
}
