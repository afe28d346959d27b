// What is told of the tiles of a zoom.
ghost use Rattle.std.specs.Prelude.{◌≡◌};

use std::marker::Model;

/// What is told of the tiles of a zoom. Tiles whose contents are null are counted, and have no size.
#[derive(Clone, Copy, Debug, PartialEq, Eq)]
pub struct ZoomInfo {
    /// The zoom, 0 to 30.
    pub zoom: u8,
    /// How many tiles it has.
    pub tile_count: u64,
    /// The bytes of the least tile, 0 where all are null.
    pub min_tile_size: u64,
    /// The bytes of the greatest tile, 0 where all are null.
    pub max_tile_size: u64,
    /// The bytes of all tiles, at most the greatest `u64`.
    pub total_size: u64,
}

/// The zooms of a set that have tiles, by rising zoom.
#[derive(Debug, Drop)]
pub struct ZoomInfoList {
    zooms: Vec<ZoomInfo>,
}

impl Model for ZoomInfoList {
    ghost use Rattle.std.specs.Prelude.{List};
    ghost use Rattle.mb_check.specs.declared.zoom_info.ZoomInfo.{ZoomInfo};

    ghost Value = { List ZoomInfo };

    ghost view = { λ l. l.zooms.items };
}

impl ZoomInfoList {
    /// The list of these zooms.
    pub fn new(zooms: Vec<ZoomInfo>) -> ZoomInfoList
        ensures { result ≡ zooms.items }
    {
        ZoomInfoList { zooms }
    }

    /// The zooms in order.
    pub fn as_slice(&self) -> &[ZoomInfo]
        ensures { result.now ≡ self.now }
    {
        self.zooms.as_slice()
    }
}
