// Reads of single tiles.
ghost use Rattle.std.specs.Prelude.{◌≡◌, ◌≢◌, Err, is_some, option_copied, option_map};
ghost use Rattle.mb_access.specs.Reads.{bytes_in, contains_answer, coord_in, tile_answer, tile_in};
ghost use Rattle.mb_access.specs.Common.{Answers, blob_cell, FaultsCounted, IsBegun, ReadsOnly};

use crate::Mbtiles;
use base_values::BlobVal;
use mb_load::load;
use mb_loaded::Loaded;
use mb_store::{Cell, MbtError, MbtResult, TileStore};
use std::alloc::Global;
use tile_ids::TileCoord;

/// The coordinate of three numbers, where they are one.
pub(crate) fn coord_in(z: u8, x: u32, y: u32) -> Option<TileCoord>
    ensures { result ≡ coord_in z x y }
{
    TileCoord::new(z, x, y).ok()
}

// The cell of the tile at three numbers.
fn cell_in(set: &Loaded, z: u8, x: u32, y: u32) -> Option<&Cell>
    ensures { option_copied result
        ≡ option_map blob_cell (tile_in set.now.state.tiles (coord_in z x y)) }
{
    match coord_in(z, x, y) {
        Some(coord) => set.tile(coord),
        None => None,
    }
}

// Whether a loaded set has a tile at three numbers.
fn has_tile(set: &Loaded, z: u8, x: u32, y: u32) -> bool
    ensures { result ≡ is_some (tile_in set.now.state.tiles (coord_in z x y)) }
{
    cell_in(set, z, x, y).is_some()
}

/// The bytes of the tile of a loaded set at three numbers.
pub(crate) fn bytes_in(
    alloc: Global,
    set: &Loaded,
    z: u8,
    x: u32,
    y: u32,
) -> MbtResult<Option<BlobVal>>
    ensures answer { Answers (tile_answer z x y set.now.state) result }
    ensures fault { result ≢ Err MbtError.StoreFault }
{
    match cell_in(set, z, x, y) {
        Some(Cell::Blob(bytes)) => Ok(Some(bytes.try_clone(alloc)?)),
        _ => Ok(None),
    }
}

impl Mbtiles {
    /// The bytes of the tile at a zoom, a column from the left and a row from the top. None where the set has no tile
    /// there or null, and where the three are no coordinate.
    ///
    /// It answers the refusals of `load`. The store holds what it held, whatever the answer.
    pub fn get_tile<S: TileStore>(
        &self,
        alloc: Global,
        store: &mut S,
        z: u8,
        x: u32,
        y: u32,
    ) -> MbtResult<Option<BlobVal>>
        ensures answer { IsBegun (tile_answer z x y) (S.tells store.old) (S.told store.old) result }
        ensures kept { ReadsOnly S.told S.tells S.faults S.steady store.old store.new }
        ensures fault { FaultsCounted S.faults store.old store.new result MbtError.StoreFault }
    {
        let set = load(alloc, store)?;
        bytes_in(alloc, &set, z, x, y)
    }

    /// Whether the set has a tile at a zoom, a column from the left and a row from the top, null ones included. False
    /// where the three are no coordinate.
    ///
    /// It answers the refusals of `load`. The store holds what it held, whatever the answer.
    pub fn contains<S: TileStore>(
        &self,
        alloc: Global,
        store: &mut S,
        z: u8,
        x: u32,
        y: u32,
    ) -> MbtResult<bool>
        ensures answer { IsBegun (contains_answer z x y) (S.tells store.old) (S.told store.old) result }
        ensures kept { ReadsOnly S.told S.tells S.faults S.steady store.old store.new }
        ensures fault { FaultsCounted S.faults store.old store.new result MbtError.StoreFault }
    {
        let set = load(alloc, store)?;
        Ok(has_tile(&set, z, x, y))
    }
}
