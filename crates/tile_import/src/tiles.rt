// The tiles of tile entries, as a set of their own.
ghost use Rattle.std.specs.Prelude.{◌≡◌, ◌≤◌, ◌+◌, [], IfOk, OnOk, map};
ghost use Rattle.tile_import.specs.Common.{MAX_TILE_ID, place_at};
ghost use Rattle.tile_import.specs.Putting.{IsMadeOf, ids_of, place_of_id, with_ids};

use base_values::{BlobVal, OutOfMemory};
use bytes::Bytes;
use mb_loaded::{Editing, Loaded};
use mb_store::MbtType;
use pm_format::DirEntry;
use pm_walk::TakesEntries;
use std::alloc::Global;
use tile_hash::HashAlgorithm;
use tile_ids::{TileCoord, TileId};

// The coordinate of an id.
fn placed(id: TileId) -> TileCoord
    ensures { place_at result ≡ place_of_id id }
{
    TileCoord::from(id)
}

// The coordinates of the ids of a run.
fn coords_of(alloc: Global, entry: DirEntry) -> Result<Vec<TileCoord>, OutOfMemory>
    requires { entry.tile_id + entry.run_length ≤ MAX_TILE_ID + 1 }
    ensures { IfOk result (λ coords. map place_at coords.items ≡ map place_of_id (ids_of entry)) }
{
    let mut coords = Vec::with_capacity(alloc, entry.run_length() as usize)?;
    for id in entry.iter_coords() {
        coords.push(placed(id))?;
    }
    Ok(coords)
}

// Puts bytes at the coordinate of each id of a run, where they are kept once.
fn put_run(
    alloc: Global,
    tiles: &mut Editing,
    entry: DirEntry,
    bytes: &[u8],
) -> Result<(), OutOfMemory>
    requires { entry.tile_id + entry.run_length ≤ MAX_TILE_ID + 1 }
    ensures { OnOk result (tiles.new.state.tiles
        ≡ with_ids tiles.old.state.tiles bytes.now (ids_of entry)) }
{
    let coords = coords_of(alloc, entry)?;
    let contents = BlobVal::new(Vec::from_slice(alloc, bytes)?);
    tiles.set_tiles(coords.as_slice(), contents)
}

/// The tiles of an archive, as a flat set of their own in the making: the contents of each tile entry stand at the
/// coordinate of each id of its run.
#[derive(Drop)]
pub(crate) struct MadeTiles {
    alloc: Global,
    tiles: Editing,
}

impl TakesEntries for MadeTiles {
    ghost use Rattle.tile_import.specs.Putting.{IsMadeOf};

    ghost holds = { λ t es cs. IsMadeOf t.tiles.state.tiles es cs };

    fn take_entry(&mut self, entry: DirEntry, contents: Bytes) -> Result<(), OutOfMemory> {
        put_run(self.alloc, &mut self.tiles, entry, contents.as_slice())
    }
}

/// No tile yet.
pub(crate) fn no_tiles(alloc: Global) -> MadeTiles
    ensures { IsMadeOf result.tiles.state.tiles [] [] }
{
    let set = Loaded::empty(alloc, MbtType::Flat, HashAlgorithm::Md5);
    MadeTiles {
        alloc,
        tiles: set.edit(),
    }
}

/// The set, once all tiles are made.
pub(crate) fn settle_tiles(made: MadeTiles) -> Result<Loaded, OutOfMemory>
    ensures { IfOk result (λ set. set.state.tiles ≡ made.tiles.state.tiles) }
{
    let MadeTiles { alloc: _, tiles } = made;
    let set = tiles.settle()?;
    Ok(set)
}
