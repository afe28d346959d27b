// The call of a set that puts tiles into it.
ghost use Rattle.std.specs.Prelude.{◌≡◌, OnErr, OnOk, true};
ghost use Rattle.mb_access.specs.Common.{FaultsCounted, IsBegun, Keeps};
ghost use Rattle.mb_insert.specs.Inserted.{IsInserted};
ghost use Rattle.mb_insert.specs.Insertion.{insertion};

use crate::Mbtiles;
use mb_insert::{CopyDuplicateMode, NewTile};
use mb_store::{MbtError, MbtResult, TileStore};
use std::alloc::Global;

impl Mbtiles {
    /// What `insert_tiles` of `mb_insert` does.
    pub fn insert_tiles<S: TileStore>(
        &self,
        alloc: Global,
        store: &mut S,
        on_duplicate: CopyDuplicateMode,
        batch: &[NewTile],
    ) -> MbtResult<()>
        ensures answer { IsBegun (insertion on_duplicate batch.now)
            (S.tells store.old) (S.told store.old) result }
        ensures inserted { S.tells store.old ≡ true → OnOk result
            (IsInserted on_duplicate batch.now (S.told store.old) (S.told store.new)) }
        ensures refused { OnErr result (S.told store.new ≡ S.told store.old) }
        ensures kept { Keeps S.tells S.faults S.steady store.old store.new }
        ensures fault { FaultsCounted S.faults store.old store.new result MbtError.StoreFault }
    {
        mb_insert::insert_tiles(alloc, store, on_duplicate, batch)
    }
}
