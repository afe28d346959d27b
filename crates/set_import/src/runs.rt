// Tiles that are put into batches, one run after another.
ghost use Rattle.std.specs.Prelude.{◌≡◌, ◌≤◌, ◌<◌, ◌+◌, ℕ, IfErr, OnOk, Some, true};
ghost use Rattle.mb_tables.specs.Refusals.{is_free};
ghost use Rattle.pm_walk.specs.declared.extent.TheConstants.{FIRST_TOO_DEEP};
ghost use Rattle.set_import.specs.Batches.{AreFlat, IsPlain, IsStream, Streams};
ghost use Rattle.set_import.specs.Common.{FaultsCounted, Keeps, Tables};
ghost use Rattle.std.specs.FinMap.{insert};
ghost use Rattle.mb_tables.specs.Tiles.{TileSet};
ghost use Rattle.tile_import.specs.Putting.{ids_of, place_of_id, with_ids};

use crate::batch::{Batch, commit_batch, no_batch};
use mb_store::{MbtError, MbtResult, TileStore};
use pm_format::DirEntry;
use std::alloc::Global;
use std::mem;
use tile_import::coord_at;

// Makes room for a tile of so many bytes: where there is none, the tiles that wait are committed.
fn make_room<S: TileStore>(
    alloc: Global,
    store: &mut S,
    batch: &mut Batch,
    length: u64,
) -> MbtResult<()>
    requires plain { IsPlain batch.old.tiles }
    requires flat { S.tells store.old ≡ true → AreFlat (S.told store.old).descriptions }
    ensures streams { (made : Tables) (all : TileSet) (next : ℕ)
        → IsStream (S.tells store.old) made (S.told store.old) batch.old.tiles all next
        → Streams (S.tells store.old) made (S.told store.new) batch.new.tiles all next result }
    ensures plain { IsPlain batch.new.tiles }
    ensures described { S.tells store.old ≡ true
        → (S.told store.new).descriptions ≡ (S.told store.old).descriptions }
    ensures free { IfErr result (λ e. is_free e ≡ true) }
    ensures kept { Keeps S.tells S.faults S.steady store.old store.new }
    ensures fault { FaultsCounted S.faults store.old store.new result MbtError.StoreFault }
{
    if !batch.is_full(length) {
        return Ok(());
    }
    let full = mem::replace(batch, no_batch(alloc));
    commit_batch(alloc, store, full)
}

// Puts the tile of an id into a batch, behind a commit of those that wait where it is full.
fn put_tile<S: TileStore>(
    alloc: Global,
    store: &mut S,
    batch: &mut Batch,
    id: u64,
    bytes: &[u8],
) -> MbtResult<()>
    requires shallow { id < FIRST_TOO_DEEP }
    requires plain { IsPlain batch.old.tiles }
    requires flat { S.tells store.old ≡ true → AreFlat (S.told store.old).descriptions }
    ensures streams { (made : Tables) (all : TileSet)
        → IsStream (S.tells store.old) made (S.told store.old) batch.old.tiles all id
        → Streams (S.tells store.old) made (S.told store.new) batch.new.tiles
        (insert all (place_of_id id) (Some bytes.now)) (id + 1) result }
    ensures plain { IsPlain batch.new.tiles }
    ensures described { S.tells store.old ≡ true
        → (S.told store.new).descriptions ≡ (S.told store.old).descriptions }
    ensures free { IfErr result (λ e. is_free e ≡ true) }
    ensures kept { Keeps S.tells S.faults S.steady store.old store.new }
    ensures fault { FaultsCounted S.faults store.old store.new result MbtError.StoreFault }
{
    match make_room(alloc, store, batch, bytes.len() as u64) {
        Ok(()) => {}
        Err(error) => return Err(error),
    }
    match batch.put(alloc, coord_at(id), bytes) {
        Ok(()) => Ok(()),
        Err(_) => Err(MbtError::OutOfMemory),
    }
}

/// Puts the tiles of a run into a batch, which is committed whenever it is full.
pub(crate) fn put_run<S: TileStore>(
    alloc: Global,
    store: &mut S,
    batch: &mut Batch,
    entry: DirEntry,
    bytes: &[u8],
) -> MbtResult<()>
    requires shallow { entry.tile_id + entry.run_length ≤ FIRST_TOO_DEEP }
    requires plain { IsPlain batch.old.tiles }
    requires flat { S.tells store.old ≡ true → AreFlat (S.told store.old).descriptions }
    ensures streams { (made : Tables) (all : TileSet)
        → IsStream (S.tells store.old) made (S.told store.old) batch.old.tiles all entry.tile_id
        → Streams (S.tells store.old) made (S.told store.new) batch.new.tiles
        (with_ids all bytes.now (ids_of entry)) (entry.tile_id + entry.run_length) result }
    ensures plain { IsPlain batch.new.tiles }
    ensures described { S.tells store.old ≡ true
        → (S.told store.new).descriptions ≡ (S.told store.old).descriptions }
    ensures free { IfErr result (λ e. is_free e ≡ true) }
    ensures kept { Keeps S.tells S.faults S.steady store.old store.new }
    ensures fault { FaultsCounted S.faults store.old store.new result MbtError.StoreFault }
{
    let mut id = entry.tile_id();
    let mut left = entry.run_length();
    while left > 0 {
        match put_tile(alloc, store, batch, id, bytes) {
            Ok(()) => {}
            Err(error) => return Err(error),
        }
        id += 1;
        left -= 1;
    }
    Ok(())
}
