// Places of rows, ids of coordinates, and the reading of an input.
ghost use Rattle.std.specs.Prelude.{◌≡◌};
ghost use Rattle.byte_streams.specs.Input.{InputCounts};
ghost use Rattle.tile_ids.specs.Coord.{tile_index};
ghost use Rattle.tile_ids.specs.Hilbert.{id_of};

use byte_streams::{InputError, Source, read_input};
use std::alloc::Global;
use tile_ids::{TileCoord, TileId, parse_tile_index};

/// The coordinate of a stored zoom, column and row, the row counted from the bottom.
pub fn place(zoom: Option<i64>, column: Option<i64>, row: Option<i64>) -> Option<TileCoord>
    ensures value { result ≡ tile_index zoom column row }
{
    parse_tile_index(zoom, column, row)
}

/// The id of a coordinate.
pub fn id(coord: TileCoord) -> TileId
    ensures value { result ≡ id_of coord }
{
    TileId::from(coord)
}

/// All the bytes that are left of an input.
pub fn read<S: Source>(alloc: Global, source: &mut S) -> Result<Vec<u8>, InputError>
    ensures counted { InputCounts (S.taken source.old) (S.taken source.new) result }
{
    read_input(alloc, source)
}
