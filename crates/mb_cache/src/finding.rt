// Coordinates of tiles, and their rows in a store.
ghost use Rattle.std.specs.Prelude.{◌≡◌, pos, true, IfErr, IfOk, IfSome, length};
ghost use Rattle.mb_cache.specs.Finding.{coord_in};
ghost use Rattle.mb_cache.specs.State.{row_at};
ghost use Rattle.mb_cache.specs.Common.{FaultsCounted, Int, is_free, place_at, ReadsOnly, tile_key};

use mb_store::{Cell, MbtError, MbtResult, Row, RowKey, TableName, TileStore};
use std::alloc::Global;
use tile_ids::{TileCoord, invert_y_value};

/// The coordinate of three numbers, where they are one of zoom 0 to 30.
pub(crate) fn coord_in(z: u8, x: u32, y: u32) -> Option<TileCoord>
    ensures { result ≡ coord_in z x y }
{
    if z > 30 {
        return None;
    }
    TileCoord::new(z, x, y).ok()
}

/// The refusal of three numbers that are no coordinate: these numbers, the row as it is given.
pub(crate) fn bad_coordinate(z: u8, x: u32, y: u32) -> MbtError
    ensures { result ≡ MbtError.InvalidTileIndex (Int (pos z)) (Int (pos x)) (Int (pos y)) }
{
    MbtError::InvalidTileIndex {
        zoom_level: Cell::Int(i64::from(z)),
        tile_column: Cell::Int(i64::from(x)),
        tile_row: Cell::Int(i64::from(y)),
    }
}

/// The key of the row of a coordinate.
pub(crate) fn key_at(coord: TileCoord) -> RowKey
    ensures { result ≡ tile_key (place_at coord) }
{
    let zoom = coord.z();
    RowKey::Tile {
        zoom,
        column: coord.x(),
        row: invert_y_value(zoom, coord.y()),
    }
}

/// The row of a coordinate, as the store has it.
pub(crate) fn find_row<S: TileStore>(
    alloc: Global,
    store: &mut S,
    coord: TileCoord,
) -> MbtResult<Option<Row>>
    ensures answer { S.tells store.old ≡ true →
        IfOk result (λ row. row ≡ row_at (S.told store.old) (place_at coord)) }
    ensures wide { IfOk result (λ row. IfSome row (λ row. length row ≡ 7)) }
    ensures free { IfErr result (λ e. is_free e ≡ true) }
    ensures kept { ReadsOnly S.told S.tells S.faults S.steady store.old store.new }
    ensures fault { FaultsCounted S.faults store.old store.new result MbtError.StoreFault }
{
    Ok(store.find(alloc, TableName::TileCache, &key_at(coord))?)
}
