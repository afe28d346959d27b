// The tables and views that the project itself creates in a store.
ghost use Rattle.mb_store.specs.Kept.{FaultsCounted, Keeps, ReadsOnly};
ghost use Rattle.std.specs.Prelude.{◌≡◌, ◌⊎◌, ◌↔◌, [], ◌∷◌, true, false, IfErr, IfOk, IsTrue, OnErr, OnOk};
ghost use Rattle.mb_store.specs.Common.{layout_tables, MbtError, set_tables, started_as, table_of, view_of};
ghost use Rattle.mb_store.specs.Store.{created};

use crate::{MbtResult, MbtType, NormalizedSchema, TableName, TileStore};
use mb_tables::{layout_tables, set_tables, table_of, view_of};
use std::alloc::Global;

/// Creates the table `tiles`, where that name isn't described yet. Refused, the store stands as it was.
pub fn create_flat_tables<S: TileStore>(alloc: Global, store: &mut S) -> MbtResult<()>
    ensures ok { S.tells store.old ≡ true
        → OnOk result (S.told store.new ≡ created (S.told store.old) (layout_tables MbtType.Flat)) }
    ensures err { OnErr result (S.told store.new ≡ S.told store.old) }
    ensures errors { IfErr result (λ e. (e ≡ MbtError.StoreFault) ⊎ (e ≡ MbtError.OutOfMemory)) }
    ensures kept { Keeps S.tells S.faults S.steady store.old store.new }
    ensures fault { FaultsCounted S.faults store.old store.new result MbtError.StoreFault }
{
    let tables = layout_tables(alloc, MbtType::Flat)?;
    store.create(alloc, tables.as_slice())?;
    Ok(())
}

/// Creates the table `tiles_with_hash` and the view `tiles`, each where its name isn't described yet. Refused,
/// the store stands as it was.
pub fn create_flat_with_hash_tables<S: TileStore>(alloc: Global, store: &mut S) -> MbtResult<()>
    ensures ok { S.tells store.old ≡ true
        → OnOk result
        (S.told store.new ≡ created (S.told store.old) (layout_tables MbtType.FlatWithHash)) }
    ensures err { OnErr result (S.told store.new ≡ S.told store.old) }
    ensures errors { IfErr result (λ e. (e ≡ MbtError.StoreFault) ⊎ (e ≡ MbtError.OutOfMemory)) }
    ensures kept { Keeps S.tells S.faults S.steady store.old store.new }
    ensures fault { FaultsCounted S.faults store.old store.new result MbtError.StoreFault }
{
    let tables = layout_tables(alloc, MbtType::FlatWithHash)?;
    store.create(alloc, tables.as_slice())?;
    Ok(())
}

/// Creates the tables `map` and `images` and the view `tiles`, each where its name isn't described yet. Refused,
/// the store stands as it was.
pub fn create_normalized_tables<S: TileStore>(alloc: Global, store: &mut S) -> MbtResult<()>
    ensures ok { S.tells store.old ≡ true
        → OnOk result
        (S.told store.new ≡ created (S.told store.old)
        (layout_tables (MbtType.Normalized false NormalizedSchema.Hash))) }
    ensures err { OnErr result (S.told store.new ≡ S.told store.old) }
    ensures errors { IfErr result (λ e. (e ≡ MbtError.StoreFault) ⊎ (e ≡ MbtError.OutOfMemory)) }
    ensures kept { Keeps S.tells S.faults S.steady store.old store.new }
    ensures fault { FaultsCounted S.faults store.old store.new result MbtError.StoreFault }
{
    let layout = MbtType::Normalized {
        hash_view: false,
        schema: NormalizedSchema::Hash,
    };
    let tables = layout_tables(alloc, layout)?;
    store.create(alloc, tables.as_slice())?;
    Ok(())
}

/// Creates the table `tile_cache` and the view `tiles`, each where its name isn't described yet. Refused,
/// the store stands as it was.
pub fn create_cache_tables<S: TileStore>(alloc: Global, store: &mut S) -> MbtResult<()>
    ensures ok { S.tells store.old ≡ true
        → OnOk result
        (S.told store.new ≡ created (S.told store.old) (layout_tables MbtType.Cache)) }
    ensures err { OnErr result (S.told store.new ≡ S.told store.old) }
    ensures errors { IfErr result (λ e. (e ≡ MbtError.StoreFault) ⊎ (e ≡ MbtError.OutOfMemory)) }
    ensures kept { Keeps S.tells S.faults S.steady store.old store.new }
    ensures fault { FaultsCounted S.faults store.old store.new result MbtError.StoreFault }
{
    let tables = layout_tables(alloc, MbtType::Cache)?;
    store.create(alloc, tables.as_slice())?;
    Ok(())
}

/// Creates the table `metadata`, where that name isn't described yet. Refused, the store stands as it was.
pub fn create_metadata_table<S: TileStore>(alloc: Global, store: &mut S) -> MbtResult<()>
    ensures ok { S.tells store.old ≡ true
        → OnOk result
        (S.told store.new ≡ created (S.told store.old) (table_of TableName.Metadata ∷ [])) }
    ensures err { OnErr result (S.told store.new ≡ S.told store.old) }
    ensures errors { IfErr result (λ e. (e ≡ MbtError.StoreFault) ⊎ (e ≡ MbtError.OutOfMemory)) }
    ensures kept { Keeps S.tells S.faults S.steady store.old store.new }
    ensures fault { FaultsCounted S.faults store.old store.new result MbtError.StoreFault }
{
    let mut tables = Vec::new(alloc);
    tables.push(table_of(alloc, TableName::Metadata)?)?;
    store.create(alloc, tables.as_slice())?;
    Ok(())
}

/// Creates the view `tiles_with_hash`, where that name isn't described yet. Refused, the store stands as it was.
pub fn create_tiles_with_hash_view<S: TileStore>(alloc: Global, store: &mut S) -> MbtResult<()>
    ensures ok { S.tells store.old ≡ true
        → OnOk result
        (S.told store.new ≡ created (S.told store.old) (view_of TableName.TilesWithHash ∷ [])) }
    ensures err { OnErr result (S.told store.new ≡ S.told store.old) }
    ensures errors { IfErr result (λ e. (e ≡ MbtError.StoreFault) ⊎ (e ≡ MbtError.OutOfMemory)) }
    ensures kept { Keeps S.tells S.faults S.steady store.old store.new }
    ensures fault { FaultsCounted S.faults store.old store.new result MbtError.StoreFault }
{
    let mut tables = Vec::new(alloc);
    tables.push(view_of(alloc, TableName::TilesWithHash)?)?;
    store.create(alloc, tables.as_slice())?;
    Ok(())
}

/// Creates the table `metadata` and what `create_cache_tables` does. Refused, the store stands as it was.
pub fn create_cache_schema<S: TileStore>(alloc: Global, store: &mut S) -> MbtResult<()>
    ensures ok { S.tells store.old ≡ true
        → OnOk result (S.told store.new ≡ created (S.told store.old) (set_tables MbtType.Cache)) }
    ensures err { OnErr result (S.told store.new ≡ S.told store.old) }
    ensures errors { IfErr result (λ e. (e ≡ MbtError.StoreFault) ⊎ (e ≡ MbtError.OutOfMemory)) }
    ensures kept { Keeps S.tells S.faults S.steady store.old store.new }
    ensures fault { FaultsCounted S.faults store.old store.new result MbtError.StoreFault }
{
    let tables = set_tables(alloc, MbtType::Cache)?;
    store.create(alloc, tables.as_slice())?;
    Ok(())
}

// A layout with `map` and `images` in place of the tables of a set with numbers.
fn started_as(layout: MbtType) -> MbtType
    ensures { result ≡ started_as layout }
{
    match layout {
        MbtType::Normalized { hash_view, .. } => MbtType::Normalized {
            hash_view,
            schema: NormalizedSchema::Hash,
        },
        _ => layout,
    }
}

/// Creates the table `metadata` and the tables and views of a layout, each where its name isn't described yet. Both
/// normalised schemas get `map` and `images`. Refused, the store stands as it was.
pub fn init_mbtiles_schema<S: TileStore>(
    alloc: Global,
    store: &mut S,
    mbt_type: MbtType,
) -> MbtResult<()>
    ensures ok { S.tells store.old ≡ true
        → OnOk result
        (S.told store.new ≡ created (S.told store.old) (set_tables (started_as mbt_type))) }
    ensures err { OnErr result (S.told store.new ≡ S.told store.old) }
    ensures errors { IfErr result (λ e. (e ≡ MbtError.StoreFault) ⊎ (e ≡ MbtError.OutOfMemory)) }
    ensures kept { Keeps S.tells S.faults S.steady store.old store.new }
    ensures fault { FaultsCounted S.faults store.old store.new result MbtError.StoreFault }
{
    let tables = set_tables(alloc, started_as(mbt_type))?;
    store.create(alloc, tables.as_slice())?;
    Ok(())
}

/// Whether the store describes nothing.
pub fn is_empty_database<S: TileStore>(alloc: Global, store: &mut S) -> MbtResult<bool>
    ensures answer { S.tells store.old ≡ true → IfOk result
        (λ empty. IsTrue empty ↔ ((S.told store.old).descriptions ≡ [])) }
    ensures kept { ReadsOnly S.told S.tells S.faults S.steady store.old store.new }
    ensures errors { IfErr result (λ e. (e ≡ MbtError.StoreFault) ⊎ (e ≡ MbtError.OutOfMemory)) }
    ensures fault { FaultsCounted S.faults store.old store.new result MbtError.StoreFault }
{
    let tables = store.describe(alloc)?;
    Ok(tables.is_empty())
}
