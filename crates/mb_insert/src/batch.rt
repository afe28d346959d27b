// The tiles of a batch that are put into a set.
ghost use Rattle.std.specs.Prelude.{◌≡◌, All, IfOk, OnOk, Some, cond, filter, map, reverse, true};
ghost use Rattle.mb_insert.specs.Common.{empty, from_entries, insert, place_at};
ghost use Rattle.mb_insert.specs.Batch.{entry_of, is_coord, is_missing, place_in, put_of};

use crate::{CopyDuplicateMode, NewTile};
use base_values::OutOfMemory;
use mb_loaded::{Editing, Loaded};
use mb_store::MbtType;
use std::alloc::Global;
use tile_hash::HashAlgorithm;
use tile_ids::TileCoord;

// The coordinate of a new tile.
fn coord_of(tile: &NewTile) -> TileCoord
    requires { is_coord tile.now ≡ true }
    ensures { place_at result ≡ place_in tile.now }
{
    TileCoord::new(tile.z, tile.x, tile.y).unwrap()
}

// A flat set without tiles, that takes those of a batch.
fn no_tiles(alloc: Global, algorithm: HashAlgorithm) -> Editing
    ensures { result.state.tiles ≡ empty }
{
    let set = Loaded::empty(alloc, MbtType::Flat, algorithm);
    set.edit()
}

// Puts a new tile in place of one that was put at its place before.
fn put_tile(alloc: Global, tiles: &mut Editing, tile: &NewTile) -> Result<(), OutOfMemory>
    requires { is_coord tile.now ≡ true }
    ensures { OnOk result (tiles.new.state.tiles ≡ insert tiles.old.state.tiles (place_in tile.now)
        (Some tile.now.tile_data)) }
{
    let coord = coord_of(tile);
    let bytes = tile.tile_data.try_clone(alloc)?;
    tiles.set_tile(coord, bytes)
}

// Whether a set has no tile at the place of a new one, and no null.
fn is_missing(set: &Loaded, tile: &NewTile) -> bool
    requires { is_coord tile.now ≡ true }
    ensures { result ≡ is_missing set.now.state.tiles tile.now }
{
    set.tile(coord_of(tile)).is_none()
}

// Puts a new tile, where the set has none at its place.
fn put_missing(
    alloc: Global,
    tiles: &mut Editing,
    set: &Loaded,
    tile: &NewTile,
) -> Result<(), OutOfMemory>
    requires { is_coord tile.now ≡ true }
    ensures { OnOk result (tiles.new.state.tiles ≡ cond (is_missing set.now.state.tiles tile.now)
        (insert tiles.old.state.tiles (place_in tile.now) (Some tile.now.tile_data))
        tiles.old.state.tiles) }
{
    if is_missing(set, tile) {
        return put_tile(alloc, tiles, tile);
    }
    Ok(())
}

// The last tile of each place of a batch.
fn last_tiles(
    alloc: Global,
    algorithm: HashAlgorithm,
    batch: &[NewTile],
) -> Result<Loaded, OutOfMemory>
    requires { All (λ t. is_coord t ≡ true) batch.now }
    ensures { IfOk result (λ h. h.state.tiles ≡ from_entries (map entry_of (reverse batch.now))) }
{
    let mut tiles = no_tiles(alloc, algorithm);
    for tile in batch {
        put_tile(alloc, &mut tiles, tile)?;
    }
    tiles.settle()
}

// The first tile of each place of a batch at which a set has none.
fn missing_tiles(alloc: Global, set: &Loaded, batch: &[NewTile]) -> Result<Loaded, OutOfMemory>
    requires { All (λ t. is_coord t ≡ true) batch.now }
    ensures { IfOk result
        (λ h. h.state.tiles ≡ from_entries
        (map entry_of (filter (is_missing set.now.state.tiles) batch.now))) }
{
    let mut tiles = no_tiles(alloc, set.algorithm());
    let mut left = batch.len();
    while left > 0 {
        left -= 1;
        put_missing(alloc, &mut tiles, set, &batch[left])?;
    }
    tiles.settle()
}

/// The tiles of a batch that a mode puts into a set, each place once, as a flat set of their own.
pub(crate) fn chosen_tiles(
    alloc: Global,
    set: &Loaded,
    mode: CopyDuplicateMode,
    batch: &[NewTile],
) -> Result<Loaded, OutOfMemory>
    requires { All (λ t. is_coord t ≡ true) batch.now }
    ensures { IfOk result (λ h. h.state.tiles ≡ put_of mode set.now.state.tiles batch.now) }
{
    match mode {
        CopyDuplicateMode::Override => last_tiles(alloc, set.algorithm(), batch),
        CopyDuplicateMode::Ignore => missing_tiles(alloc, set, batch),
        CopyDuplicateMode::Abort => missing_tiles(alloc, set, batch),
    }
}
