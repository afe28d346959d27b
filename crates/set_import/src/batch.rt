// Tiles that wait for a commit.
ghost use Rattle.std.specs.Prelude.{◌≡◌, IfErr, IfOk, OnErr, OnOk, true};
ghost use Rattle.mb_lists.specs.Entries.{place_at};
ghost use Rattle.mb_loaded.specs.Changing.{AreChangesOf};
ghost use Rattle.mb_loaded.specs.Edits.{with_tile};
ghost use Rattle.mb_tables.specs.Refusals.{is_free};
ghost use Rattle.set_import.specs.Batches.{AreFlat, IsPlain, is_full};
ghost use Rattle.set_import.specs.Common.{FaultsCounted, Keeps, MakesChanges};
ghost use Rattle.set_import.specs.Streaming.{empty_flat};

use crate::storing::changes_of;
use base_values::{BlobVal, OutOfMemory};
use mb_loaded::{Editing, Loaded};
use mb_store::{MbtError, MbtResult, MbtType, TileStore};
use std::alloc::Global;
use tile_hash::HashAlgorithm;
use tile_ids::TileCoord;

// How many rows, and bytes of contents, one commit puts at most. Contents of more bytes are put alone.
const MAX_ROWS: u64 = 1_000;

const MAX_BYTES: u64 = 8 << 20;

/// Tiles that wait for a commit, as a flat set in the making, and for how many more rows and bytes there is room.
#[derive(Drop)]
pub(crate) struct Batch {
    tiles: Editing,
    rows: u64,
    bytes: u64,
}

/// No tile yet.
pub(crate) fn no_batch(alloc: Global) -> Batch
    ensures { result.tiles ≡ empty_flat }
{
    Batch {
        tiles: Loaded::empty(alloc, MbtType::Flat, HashAlgorithm::Md5).edit(),
        rows: MAX_ROWS,
        bytes: MAX_BYTES,
    }
}

impl Batch {
    /// Whether there is no room for a tile of so many bytes. There always is where no tile waits.
    pub(crate) fn is_full(&self, length: u64) -> bool
        ensures { result ≡ is_full MAX_ROWS self.now.rows self.now.bytes length }
    {
        self.rows == 0 || (self.bytes < length && self.rows < MAX_ROWS)
    }

    /// Puts bytes at a coordinate.
    pub(crate) fn put(
        &mut self,
        alloc: Global,
        coord: TileCoord,
        bytes: &[u8],
    ) -> Result<(), OutOfMemory>
        ensures ok { OnOk result
            (self.new.tiles ≡ with_tile self.old.tiles (place_at coord) bytes.now) }
        ensures err { OnErr result (self.new.tiles ≡ self.old.tiles) }
    {
        let contents = BlobVal::new(Vec::from_slice(alloc, bytes)?);
        self.tiles.set_tile(coord, contents)?;
        self.rows = self.rows.saturating_sub(1);
        self.bytes = self.bytes.saturating_sub(bytes.len() as u64);
        Ok(())
    }
}

/// Commits all edits of a flat set without ids to a store that has the tables of one.
pub(crate) fn commit_plain<S: TileStore>(alloc: Global, store: &mut S, set: Loaded) -> MbtResult<()>
    requires plain { IsPlain set }
    requires flat { S.tells store.old ≡ true → AreFlat (S.told store.old).descriptions }
    ensures committed { S.tells store.old ≡ true → OnOk result
        (MakesChanges set (S.told store.old) (S.told store.new)) }
    ensures refused { OnErr result (S.told store.new ≡ S.told store.old) }
    ensures free { IfErr result (λ e. is_free e ≡ true) }
    ensures kept { Keeps S.tells S.faults S.steady store.old store.new }
    ensures fault { FaultsCounted S.faults store.old store.new result MbtError.StoreFault }
{
    let changes = changes_of(alloc, set)?;
    store.commit(alloc, &changes)?;
    Ok(())
}

// The set of a batch, which is let go.
fn settle(batch: Batch) -> Result<Loaded, OutOfMemory>
    ensures { IfOk result (λ set. set ≡ batch.tiles) }
{
    let Batch {
        tiles,
        rows: _,
        bytes: _,
    } = batch;
    tiles.settle()
}

/// Commits the tiles that wait.
pub(crate) fn commit_batch<S: TileStore>(
    alloc: Global,
    store: &mut S,
    batch: Batch,
) -> MbtResult<()>
    requires plain { IsPlain batch.tiles }
    requires flat { S.tells store.old ≡ true → AreFlat (S.told store.old).descriptions }
    ensures committed { S.tells store.old ≡ true → OnOk result
        (MakesChanges batch.tiles (S.told store.old) (S.told store.new)) }
    ensures refused { OnErr result (S.told store.new ≡ S.told store.old) }
    ensures free { IfErr result (λ e. is_free e ≡ true) }
    ensures kept { Keeps S.tells S.faults S.steady store.old store.new }
    ensures fault { FaultsCounted S.faults store.old store.new result MbtError.StoreFault }
{
    let set = settle(batch)?;
    commit_plain(alloc, store, set)?;
    Ok(())
}
