// Rows that are pushed into a store in memory.
ghost use Rattle.std.specs.Prelude.{◌≡◌};
ghost use Rattle.mb_tables.specs.Described.{is_table};

use mb_store::{MbtResult, MemStore, TileStore};
use mb_tables::{Row, TableDesc, TableKind, TableName};
use std::alloc::Global;

/// Whether a table, and not a view, is described by this name.
pub fn is_table(tables: &[TableDesc], table: TableName) -> bool
    ensures { result ≡ is_table tables.now table }
{
    let name = table.name();
    tables.iter().any(|d| d.name.as_str() == name && matches!(d.kind, TableKind::Table))
}

/// Pushes a row, where its table is described and as wide as it is. Asks for the descriptions first.
pub fn push(
    alloc: Global,
    store: &mut MemStore,
    table: TableName,
    row: Row,
) -> Option<MbtResult<()>> {
    let tables = store.describe(alloc).ok()?;
    if !is_table(tables.as_slice(), table) || row.cells().len() != table.width() {
        return None;
    }
    Some(store.push_row(table, row))
}
