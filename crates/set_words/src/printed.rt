// Rows of tables as they are printed.
use mb_store::TileStore;
use mb_tables::{Cell, Row, TableName};
use std::alloc::Global;
use std::fmt::Write;

/// All tables, in their order.
pub const TABLES: [TableName; 8] = [
    TableName::Tiles,
    TableName::TilesWithHash,
    TableName::Map,
    TableName::Images,
    TableName::TilesShallow,
    TableName::TilesData,
    TableName::TileCache,
    TableName::Metadata,
];

/// A cell as a line spells it, its text quoted.
pub fn say_cell(alloc: Global, out: &mut String, cell: &Cell) -> Option<()> {
    match cell {
        Cell::Null => write!(out, "n").ok(),
        Cell::Other => write!(out, "o").ok(),
        Cell::Int(number) => write!(out, "i{number}").ok(),
        Cell::Text(text) => write!(out, "t{:?}", text.as_str()).ok(),
        Cell::Blob(bytes) => {
            let digits = hex::encode(alloc, bytes.as_bytes()).ok()?;
            write!(out, "x{digits}").ok()
        }
    }
}

// The name of a table and the cells of one of its rows.
fn say_row(alloc: Global, out: &mut String, table: TableName, row: &Row) -> Option<()> {
    write!(out, "{table}").ok()?;
    for cell in row.cells() {
        write!(out, " ").ok()?;
        say_cell(alloc, out, cell)?;
    }
    write!(out, "; ").ok()
}

/// All rows of a table, and how many there are.
pub fn say_table<S: TileStore>(
    alloc: Global,
    out: &mut String,
    store: &mut S,
    table: TableName,
) -> Option<u64> {
    let count = store.count_rows(table).ok()?;
    let rows = store.rows(alloc, table, 0, count).ok()?;
    for row in &rows {
        say_row(alloc, out, table, row)?;
    }
    Some(count)
}

/// All rows of all tables.
pub fn say_all<S: TileStore>(alloc: Global, out: &mut String, store: &mut S) -> Option<()> {
    for table in &TABLES {
        say_table(alloc, out, store, *table)?;
    }
    Some(())
}
