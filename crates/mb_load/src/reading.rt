// All rows of a table.
ghost use Rattle.mb_load.specs.Common.{content_rows, FaultsCounted, is_normalized, Metadata, ReadsOnly, tile_table, told_of, width};
ghost use Rattle.std.specs.Prelude.{◌≡◌, All, [], false, true, IfOk, length};

use base_values::OutOfMemory;
use mb_store::{MbtType, MemStore, Row, StoreError, TableName, TileStore};
use std::alloc::Global;

/// All rows of a table in their order: as many as the store counts are asked for at once.
pub(crate) fn read_table<S: TileStore>(
    alloc: Global,
    store: &mut S,
    table: TableName,
) -> Result<Vec<Row>, StoreError>
    ensures answer { S.tells store.old ≡ true → IfOk result
        (λ rows. rows.items ≡ (S.told store.old).rows table) }
    ensures widths { IfOk result (λ rows. All (λ row. length row ≡ width table) rows.items) }
    ensures kept { ReadsOnly S.told S.tells S.faults S.steady store.old store.new }
    ensures fault { FaultsCounted S.faults store.old store.new result StoreError.Fault }
{
    let count = store.count_rows(table)?;
    store.rows(alloc, table, 0, count)
}

// The rows of contents of a normalised set; the other layouts have none.
fn read_contents<S: TileStore>(
    alloc: Global,
    store: &mut S,
    layout: MbtType,
) -> Result<Vec<Row>, StoreError>
    ensures answer { S.tells store.old ≡ true → IfOk result
        (λ rows. rows.items ≡ content_rows layout (S.told store.old)) }
    ensures widths { IfOk result (λ rows. All (λ row. length row ≡ 2) rows.items) }
    ensures none { is_normalized layout ≡ false → IfOk result (λ rows. rows.items ≡ []) }
    ensures kept { ReadsOnly S.told S.tells S.faults S.steady store.old store.new }
    ensures fault { FaultsCounted S.faults store.old store.new result StoreError.Fault }
{
    match layout {
        MbtType::Normalized { schema, .. } => read_table(alloc, store, schema.contents()),
        _ => Ok(Vec::new(alloc)),
    }
}

/// All rows of a set.
#[derive(Debug, Drop)]
pub(crate) struct AllRows {
    pub metadata: Vec<Row>,
    pub tiles: Vec<Row>,
    pub contents: Vec<Row>,
}

/// All rows of the tables of a layout.
pub(crate) fn read_all<S: TileStore>(
    alloc: Global,
    store: &mut S,
    layout: MbtType,
) -> Result<AllRows, StoreError>
    ensures metadata { S.tells store.old ≡ true → IfOk result
        (λ r. r.metadata.items ≡ (S.told store.old).rows Metadata) }
    ensures tiles { S.tells store.old ≡ true → IfOk result
        (λ r. r.tiles.items ≡ (S.told store.old).rows (tile_table layout)) }
    ensures contents { S.tells store.old ≡ true → IfOk result
        (λ r. r.contents.items ≡ content_rows layout (S.told store.old)) }
    ensures widths { IfOk result (λ r. All (λ row. length row ≡ 2) r.contents.items) }
    ensures none { is_normalized layout ≡ false → IfOk result (λ r. r.contents.items ≡ []) }
    ensures kept { ReadsOnly S.told S.tells S.faults S.steady store.old store.new }
    ensures fault { FaultsCounted S.faults store.old store.new result StoreError.Fault }
{
    let metadata = read_table(alloc, store, TableName::Metadata)?;
    let tiles = read_table(alloc, store, layout.tile_table())?;
    let contents = read_contents(alloc, store, layout)?;
    Ok(AllRows {
        metadata,
        tiles,
        contents,
    })
}

// The rows of contents of a normalised set, moved out of a store; the other layouts have none.
fn take_contents(
    alloc: Global,
    mut store: MemStore,
    layout: MbtType,
) -> Result<Vec<Row>, OutOfMemory>
    ensures answer { IfOk result (λ rows. rows.items ≡ content_rows layout (told_of store)) }
    ensures widths { IfOk result (λ rows. All (λ row. length row ≡ 2) rows.items) }
    ensures none { is_normalized layout ≡ false → IfOk result (λ rows. rows.items ≡ []) }
{
    match layout {
        MbtType::Normalized { schema, .. } => store.take_rows(alloc, schema.contents()),
        _ => Ok(Vec::new(alloc)),
    }
}

/// All rows of the tables of a layout, moved out of a store in memory.
pub(crate) fn take_all(
    alloc: Global,
    mut store: MemStore,
    layout: MbtType,
) -> Result<AllRows, OutOfMemory>
    ensures metadata { IfOk result (λ r. r.metadata.items ≡ (told_of store).rows Metadata) }
    ensures tiles { IfOk result (λ r. r.tiles.items ≡ (told_of store).rows (tile_table layout)) }
    ensures contents { IfOk result
        (λ r. r.contents.items ≡ content_rows layout (told_of store)) }
    ensures widths { IfOk result (λ r. All (λ row. length row ≡ 2) r.contents.items) }
    ensures none { is_normalized layout ≡ false → IfOk result (λ r. r.contents.items ≡ []) }
{
    let metadata = store.take_rows(alloc, TableName::Metadata)?;
    let tiles = store.take_rows(alloc, layout.tile_table())?;
    let contents = take_contents(alloc, store, layout)?;
    Ok(AllRows {
        metadata,
        tiles,
        contents,
    })
}
