// What a writer is told of its archive beside tiles and metadata.
ghost use Rattle.std.specs.Prelude.{◌≤◌, ℕ, List};
ghost use Rattle.pm_writer.specs.Bounds.{OptionsFit};
ghost use Rattle.pm_writer.specs.Settings.{options_with};

use pm_format::{Compression, TileType};

/// Labels, type, zooms, degrees in ten millionths, and the most entries of a leaf.
#[derive(Clone, Copy, Debug)]
pub(crate) struct Settings {
    pub(crate) internal_compression: Compression,
    pub(crate) tile_compression: Compression,
    pub(crate) tile_type: TileType,
    pub(crate) min_zoom: u8,
    pub(crate) max_zoom: u8,
    pub(crate) min_longitude: i32,
    pub(crate) min_latitude: i32,
    pub(crate) max_longitude: i32,
    pub(crate) max_latitude: i32,
    pub(crate) center_zoom: u8,
    pub(crate) center_longitude: i32,
    pub(crate) center_latitude: i32,
    pub(crate) max_leaf_entries: u32,
}

impl Settings {
    /// The numbers lie within their types, whatever the metadata.
    pub(crate) fn fit(self)
        requires least { 16 ≤ self.max_leaf_entries }
        requires most { self.max_leaf_entries ≤ 65536 }
        ensures { (metadata : List ℕ) → OptionsFit (options_with self metadata) }
    {}
}
