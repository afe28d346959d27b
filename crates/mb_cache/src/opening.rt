// Opening a cache.
ghost use Rattle.std.specs.Prelude.{◌≡◌, Some, false, true, IfErr, IfOk, OnErr, OnOk};
ghost use Rattle.mb_cache.specs.Opening.{LeftOrBegun, OpensAs, begin_answer, begun_with, described_answer, done, is_cache_layout, open_answer};
ghost use Rattle.mb_cache.specs.State.{Agrees};
ghost use Rattle.mb_cache.specs.Common.{Answers, Cache, FaultsCounted, is_free, Keeps, layout_of, ReadsOnly, Tables};

use crate::CacheState;
use crate::pages::{read_metadata, read_rows};
use mb_constraints::has_metadata;
use mb_store::{
    MbtError, MbtResult, TableDesc, TableName, TileStore, create_cache_schema,
    is_cache_tables_type, is_dedup_id_normalized_tables_type, is_flat_tables_type,
    is_flat_with_hash_tables_type, is_normalized_tables_type,
};
use mb_tables::is_keyed;
use std::alloc::Global;

// Whether the first layout whose tables are described is the cache.
fn is_cache(tables: &[TableDesc]) -> bool
    ensures { result ≡ is_cache_layout (layout_of tables.now) }
{
    !is_normalized_tables_type(tables)
        && !is_dedup_id_normalized_tables_type(tables)
        && !is_flat_with_hash_tables_type(tables)
        && !is_flat_tables_type(tables)
        && is_cache_tables_type(tables)
}

// Creates the tables of a cache where nothing is described, and else tests that they are.
fn begin<S: TileStore>(alloc: Global, store: &mut S) -> MbtResult<()>
    ensures answer { S.tells store.old ≡ true →
        Answers (begin_answer (S.told store.old).descriptions) result }
    ensures begun { S.tells store.old ≡ true →
        OnOk result (S.told store.new ≡ begun_with (S.told store.old)) }
    ensures err { OnErr result (S.told store.new ≡ S.told store.old) }
    ensures kept { Keeps S.tells S.faults S.steady store.old store.new }
    ensures fault { FaultsCounted S.faults store.old store.new result MbtError.StoreFault }
    ensures own { IfErr result (λ e. is_free e ≡ false → e ≡ MbtError.NotACacheFile) }
{
    let tables = store.describe(alloc)?;
    if tables.is_empty() {
        return create_cache_schema(alloc, store);
    }
    if is_cache(&tables) {
        Ok(())
    } else {
        Err(MbtError::NotACacheFile)
    }
}

// The tests of the descriptions of a cache.
fn test_described(tables: &[TableDesc]) -> MbtResult<()>
    ensures { result ≡ described_answer tables.now }
{
    if !is_cache(tables) {
        return Err(MbtError::NotACacheFile);
    }
    if !has_metadata(tables) {
        return Err(MbtError::InvalidDataFormat);
    }
    if !is_keyed(tables, TableName::TileCache) {
        return Err(MbtError::NoUniquenessConstraint);
    }
    Ok(())
}

// The state of the cache of a store whose tables are there.
fn load_state<S: TileStore>(alloc: Global, store: &mut S) -> MbtResult<CacheState>
    ensures answer { S.tells store.old ≡ true →
        layout_of (S.told store.old).descriptions ≡ Some Cache →
        OpensAs (S.told store.old) result }
    ensures own { (t : Tables) × OpensAs t result }
    ensures kept { ReadsOnly S.told S.tells S.faults S.steady store.old store.new }
    ensures fault { FaultsCounted S.faults store.old store.new result MbtError.StoreFault }
{
    let tables = store.describe(alloc)?;
    test_described(&tables)?;
    let seen = read_rows(alloc, store)?;
    let metadata = read_metadata(alloc, store)?;
    let entries = seen.settle(alloc, metadata)?;
    Ok(CacheState { alloc, entries })
}

impl CacheState {
    /// Opens the cache of a store, without borrowing it any longer. It creates the tables of the layout Cache and of
    /// metadata in a store that describes nothing, answers `NotACacheFile` where the first layout whose tables are
    /// described isn't Cache, and else the refusals of loading. Rows are read in pages of 64, each of which is let go
    /// before the next: beside the entries, a place of 12 bytes for each row is in memory until the call returns.
    ///
    /// Refused, the store holds what it held, or has its new tables without rows. A store that tells nothing is
    /// answered as some tables are that its answers could be of, with the entries of these.
    pub fn open<S: TileStore>(alloc: Global, store: &mut S) -> MbtResult<CacheState>
        ensures answer { S.tells store.old ≡ true →
            Answers (open_answer (S.told store.old)) (done result) }
        ensures begun { S.tells store.old ≡ true →
            OnOk result (S.told store.new ≡ begun_with (S.told store.old)) }
        ensures agrees { S.tells store.old ≡ true → IfOk result (Agrees (S.told store.new)) }
        ensures err { S.tells store.old ≡ true →
            OnErr result (LeftOrBegun (S.told store.old) (S.told store.new)) }
        ensures kept { Keeps S.tells S.faults S.steady store.old store.new }
        ensures fault { FaultsCounted S.faults store.old store.new result MbtError.StoreFault }
        ensures own { (t : Tables) × OpensAs t result }
    {
        begin(alloc, store)?;
        load_state(alloc, store)
    }
}
