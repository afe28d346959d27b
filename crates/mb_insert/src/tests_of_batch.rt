// The tests of a batch of tiles.
ghost use Rattle.std.specs.Prelude.{◌≡◌, not};
ghost use Rattle.mb_insert.specs.Batch.{has_duplicates, is_coord, put_of};
ghost use Rattle.mb_insert.specs.Insertion.{bad_coord, duplicates};
ghost use Rattle.mb_insert.specs.Common.{first_refused, Tests, TileSet, unless};

use crate::{CopyDuplicateMode, NewTile};
use mb_loaded::Loaded;
use mb_store::{Cell, MbtError, MbtResult};

// Whether the numbers of a tile are a coordinate of zoom 0 to 30.
fn is_coord(tile: &NewTile) -> bool
    ensures { result ≡ is_coord tile.now }
{
    if tile.z > 30 {
        return false;
    }
    let side = 1u32 << tile.z;
    tile.x < side && tile.y < side
}

// The test of the numbers of a tile.
fn test_coord(tile: &NewTile) -> MbtResult<()>
    ensures { Tests (bad_coord tile.now) result }
{
    if is_coord(tile) {
        return Ok(());
    }
    Err(MbtError::InvalidTileIndex {
        zoom_level: Cell::Int(i64::from(tile.z)),
        tile_column: Cell::Int(i64::from(tile.x)),
        tile_row: Cell::Int(i64::from(tile.y)),
    })
}

/// The test of the numbers of all tiles: the first that are no coordinate of zoom 0 to 30.
pub(crate) fn test_coords(batch: &[NewTile]) -> MbtResult<()>
    ensures { Tests (first_refused bad_coord batch.now) result }
{
    for tile in batch {
        test_coord(tile)?;
    }
    Ok(())
}

// The test that a batch has as many tiles as there are places that it puts.
fn test_all_put(tiles: &Loaded, batch: &[NewTile]) -> MbtResult<()>
    ensures { (set : TileSet) → tiles.now.state.tiles ≡ put_of CopyDuplicateMode.Abort set batch.now
        → Tests (unless (not (has_duplicates set batch.now)) MbtError.DuplicateValues) result }
{
    if tiles.tile_count() == batch.len() {
        return Ok(());
    }
    Err(MbtError::DuplicateValues)
}

/// The test that no place of a batch is in the set or twice in the batch, where the mode asks for it,
/// by the tiles that are put.
pub(crate) fn test_duplicates(
    mode: CopyDuplicateMode,
    tiles: &Loaded,
    batch: &[NewTile],
) -> MbtResult<()>
    ensures { (set : TileSet) → tiles.now.state.tiles ≡ put_of mode set batch.now
        → Tests (duplicates mode set batch.now) result }
{
    match mode {
        CopyDuplicateMode::Override => Ok(()),
        CopyDuplicateMode::Ignore => Ok(()),
        CopyDuplicateMode::Abort => test_all_put(tiles, batch),
    }
}
