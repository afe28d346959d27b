// What the descriptions of a store's tables tell.
ghost use Rattle.std.specs.Prelude.{◌≡◌, ◌≢◌, Err, IfErr};
ghost use Rattle.mb_access.specs.Described.{IsDescribed, missing_answer, read_name};
ghost use Rattle.mb_access.specs.Common.{Answers, detected, FaultsCounted, ReadsOnly};

use crate::Mbtiles;
use mb_store::{MbtError, MbtResult, MbtType, TableDesc, TileStore};
use std::alloc::Global;

// The name of the table without an index on places, of these descriptions.
fn missing_in(tables: &[TableDesc]) -> MbtResult<Option<&'static str>>
    ensures answer { Answers (missing_answer tables.now) (read_name result) }
    ensures error { IfErr result (λ e. e ≡ MbtError.InvalidDataFormat) }
{
    mb_store::missing_tile_index(tables)
}

// The layout of these descriptions.
fn detected_in(tables: &[TableDesc]) -> MbtResult<MbtType>
    ensures answer { Answers (detected tables.now) result }
    ensures fault { result ≢ Err MbtError.StoreFault }
{
    mb_store::detect_type(tables)
}

impl Mbtiles {
    /// The layout of the set by the descriptions of its tables, or the refusal of `detect_type` of these.
    pub fn detect_type<S: TileStore>(&self, alloc: Global, store: &mut S) -> MbtResult<MbtType>
        ensures answer { IsDescribed detected (S.tells store.old) (S.told store.old) result }
        ensures kept { ReadsOnly S.told S.tells S.faults S.steady store.old store.new }
        ensures fault { FaultsCounted S.faults store.old store.new result MbtError.StoreFault }
    {
        let tables = store.describe(alloc)?;
        detected_in(&tables)
    }

    /// The name of the table of the set's places, where no index of it has the columns of a place among its own, by the
    /// descriptions of its tables.
    pub fn missing_tile_index<S: TileStore>(
        &self,
        alloc: Global,
        store: &mut S,
    ) -> MbtResult<Option<&'static str>>
        ensures answer { IsDescribed missing_answer
            (S.tells store.old) (S.told store.old) (read_name result) }
        ensures kept { ReadsOnly S.told S.tells S.faults S.steady store.old store.new }
        ensures fault { FaultsCounted S.faults store.old store.new result MbtError.StoreFault }
    {
        let tables = store.describe(alloc)?;
        missing_in(&tables)
    }
}
