// A tile's number along the Hilbert curve, over all zooms.
ghost use Rattle.std.specs.Prelude.{◌≡◌, ◌≤◌, ◌<◌, ◌↔◌, IsOk, IfOk, IfErr};

use crate::hilbert::{hilbert_number, pyramid_size};
use crate::{TileCoord, TileError};
use std::marker::Model;

/// The id of the last tile of zoom 31.
pub const MAX_TILE_ID: u64 = 6_148_914_691_236_517_204;

/// How many tiles the zooms below each zoom of 0 to 31 have together: a third of four to the zoom less one.
pub const PYRAMID_SIZE_BY_ZOOM: [u64; 32] = [
    0,
    1,
    5,
    21,
    85,
    341,
    1_365,
    5_461,
    21_845,
    87_381,
    349_525,
    1_398_101,
    5_592_405,
    22_369_621,
    89_478_485,
    357_913_941,
    1_431_655_765,
    5_726_623_061,
    22_906_492_245,
    91_625_968_981,
    366_503_875_925,
    1_466_015_503_701,
    5_864_062_014_805,
    23_456_248_059_221,
    93_824_992_236_885,
    375_299_968_947_541,
    1_501_199_875_790_165,
    6_004_799_503_160_661,
    24_019_198_012_642_645,
    96_076_792_050_570_581,
    384_307_168_202_282_325,
    1_537_228_672_809_129_301,
];

/// A Hilbert tile id, from 0 to that of the last tile of zoom 31 (PMTiles specification version 3, tile ids).
#[derive(Clone, Copy, Debug, PartialEq, Eq, PartialOrd, Ord, Hash)]
pub struct TileId {
    value: u64,
}

impl Model for TileId {
    ghost use Rattle.std.specs.Prelude.{◌≤◌, ℕ};
    ghost use Rattle.tile_ids.specs.declared.id.TheConstants.{MAX_TILE_ID};

    ghost Value = { ℕ };

    ghost view = { λ i. i.value };

    ghost invariant = { λ i. i.value ≤ MAX_TILE_ID };

    ghost inverse = { λ n. record { value = n } };
}

impl TileId {
    /// The id of this number, or `InvalidTileId` where the number is above `MAX_TILE_ID`.
    pub fn new(id: u64) -> Result<TileId, TileError>
        ensures valid { IsOk result ↔ (id ≤ MAX_TILE_ID) }
        ensures value { IfOk result (λ i. i ≡ id) }
        ensures error { IfErr result (λ e. e ≡ TileError.InvalidTileId id) }
    {
        if id > MAX_TILE_ID {
            return Err(TileError::InvalidTileId(id));
        }
        Ok(TileId { value: id })
    }

    /// The id of a number up to `MAX_TILE_ID`.
    pub(crate) fn from_value(value: u64) -> TileId
        requires { value ≤ MAX_TILE_ID }
        ensures { result ≡ value }
    {
        TileId { value }
    }

    /// The number.
    pub fn value(self) -> u64
        ensures value { result ≡ self }
        ensures within { result ≤ MAX_TILE_ID }
    {
        self.value
    }
}

impl From<TileCoord> for TileId {
    ghost use Rattle.tile_ids.specs.Hilbert.{id_of};

    ghost from_gives = { λ c i. i ≡ id_of c };

    fn from(coord: TileCoord) -> TileId {
        let zoom = coord.z();
        let number = hilbert_number(zoom, coord.x(), coord.y());
        TileId {
            value: pyramid_size(zoom) + number,
        }
    }
}

impl From<TileId> for u64 {
    ghost from_gives = { λ i n. n ≡ i };

    fn from(id: TileId) -> u64 {
        id.value()
    }
}
