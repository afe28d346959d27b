// The rows of the tables in memory.
ghost use Rattle.std.specs.Prelude.{◌≡◌, length, ◌+◌, ◌-◌, ◌^◌, ◌&&◌, [], cond, false, IfErr, OnErr, OnOk, min, sum_by};
ghost use Rattle.mb_store.specs.Common.{clash, list_any, table_eq, TableName, width};
ghost use Rattle.mb_store.specs.ByTable.{at};
ghost use Rattle.mb_store.specs.MemTables.{AreAllStored, AreKeyed, rows_at};
ghost use Rattle.mb_store.specs.Sizes.{all_tables, row_size};
ghost use Rattle.mb_store.specs.Store.{placed, with_rows};
ghost use Rattle.mb_store.specs.TableRows.{rows_in};
ghost use Rattle.mb_store.specs.Errors.{IsRowError, RefusesTwice};

use crate::by_table::ByTable;
use crate::sizes::with_rows;
use crate::table_rows::TableRows;
use crate::{MbtError, MbtResult, Row, TableDesc, TableName, table_rows};
use mb_tables::is_keyed;
use std::alloc::Global;
use std::mem;

// The rows of each table.
pub(crate) type MemTables = ByTable<TableRows>;

// No table has a row.
pub(crate) fn no_rows(alloc: Global) -> MemTables
    ensures rows { (table : TableName) → rows_at result table ≡ [] }
    ensures stored { AreAllStored result }
{
    ByTable {
        tiles: TableRows::none(alloc),
        tiles_with_hash: TableRows::none(alloc),
        map: TableRows::none(alloc),
        images: TableRows::none(alloc),
        tiles_shallow: TableRows::none(alloc),
        tiles_data: TableRows::none(alloc),
        tile_cache: TableRows::none(alloc),
        metadata: TableRows::none(alloc),
    }
}

// Which tables are described as keyed.
pub(crate) fn keyed_tables(descriptions: &[TableDesc]) -> ByTable<bool>
    ensures { AreKeyed descriptions.now result }
{
    ByTable {
        tiles: is_keyed(descriptions, TableName::Tiles),
        tiles_with_hash: is_keyed(descriptions, TableName::TilesWithHash),
        map: is_keyed(descriptions, TableName::Map),
        images: is_keyed(descriptions, TableName::Images),
        tiles_shallow: is_keyed(descriptions, TableName::TilesShallow),
        tiles_data: is_keyed(descriptions, TableName::TilesData),
        tile_cache: is_keyed(descriptions, TableName::TileCache),
        metadata: is_keyed(descriptions, TableName::Metadata),
    }
}

// Adds a row at its place, or refuses it where the table is keyed and has its key. Refused, it leaves the rows.
pub(crate) fn push(tables: &mut MemTables, table: TableName, keyed: bool, row: Row) -> MbtResult<()>
    requires wide { length row ≡ width table }
    requires stored { AreAllStored tables.old }
    ensures duplicate { RefusesTwice table
        (keyed && list_any (clash table row) (rows_at tables.old table)) result }
    ensures errors { IfErr result (IsRowError table) }
    ensures ok { OnOk result ((other : TableName)
        → rows_at tables.new other ≡ with_rows (rows_at tables.old) table
        (placed table row (rows_at tables.old table)) other) }
    ensures err { OnErr result ((other : TableName)
        → rows_at tables.new other ≡ rows_at tables.old other) }
    ensures others { (other : TableName) → table_eq other table ≡ false
        → at tables.new other ≡ at tables.old other }
    ensures stored { AreAllStored tables.new }
{
    match table {
        TableName::Tiles => table_rows::push(table, keyed, row, &mut tables.tiles),
        TableName::TilesWithHash => table_rows::push(
            table,
            keyed,
            row,
            &mut tables.tiles_with_hash,
        ),
        TableName::Map => table_rows::push(table, keyed, row, &mut tables.map),
        TableName::Images => table_rows::push(table, keyed, row, &mut tables.images),
        TableName::TilesShallow => table_rows::push(table, keyed, row, &mut tables.tiles_shallow),
        TableName::TilesData => table_rows::push(table, keyed, row, &mut tables.tiles_data),
        TableName::TileCache => table_rows::push(table, keyed, row, &mut tables.tile_cache),
        TableName::Metadata => table_rows::push(table, keyed, row, &mut tables.metadata),
    }
}

// Takes the rows of a table, which has none then.
pub(crate) fn take(alloc: Global, tables: &mut MemTables, table: TableName) -> TableRows
    requires stored { AreAllStored tables.old }
    ensures taken { rows_in result ≡ rows_at tables.old table }
    ensures left { (other : TableName)
        → rows_at tables.new other ≡ with_rows (rows_at tables.old) table [] other }
    ensures others { (other : TableName) → table_eq other table ≡ false
        → at tables.new other ≡ at tables.old other }
    ensures stored { AreAllStored tables.new }
{
    match table {
        TableName::Tiles => tables.tiles.take(alloc),
        TableName::TilesWithHash => tables.tiles_with_hash.take(alloc),
        TableName::Map => tables.map.take(alloc),
        TableName::Images => tables.images.take(alloc),
        TableName::TilesShallow => tables.tiles_shallow.take(alloc),
        TableName::TilesData => tables.tiles_data.take(alloc),
        TableName::TileCache => tables.tile_cache.take(alloc),
        TableName::Metadata => tables.metadata.take(alloc),
    }
}

// Puts other rows in the place of a table's, which are given back.
pub(crate) fn exchange(tables: &mut MemTables, table: TableName, rows: TableRows) -> TableRows
    ensures given { result ≡ at tables.old table }
    ensures put { (other : TableName)
        → at tables.new other ≡ cond (table_eq other table) rows (at tables.old other) }
{
    match table {
        TableName::Tiles => mem::replace(&mut tables.tiles, rows),
        TableName::TilesWithHash => mem::replace(&mut tables.tiles_with_hash, rows),
        TableName::Map => mem::replace(&mut tables.map, rows),
        TableName::Images => mem::replace(&mut tables.images, rows),
        TableName::TilesShallow => mem::replace(&mut tables.tiles_shallow, rows),
        TableName::TilesData => mem::replace(&mut tables.tiles_data, rows),
        TableName::TileCache => mem::replace(&mut tables.tile_cache, rows),
        TableName::Metadata => mem::replace(&mut tables.metadata, rows),
    }
}

// A size and that of a table's rows, at most the greatest count.
fn with_table(size: u64, rows: &TableRows) -> u64
    ensures { result ≡ min (size + sum_by row_size (rows_in rows.now)) (2 ^ 64 - 1) }
{
    with_rows(size, rows)
}

// The sizes of all rows of all tables, at most the greatest count.
pub(crate) fn live_size(tables: &MemTables) -> u64
    ensures { result ≡ min (sum_by (λ table. sum_by row_size (rows_at tables.now table)) all_tables)
        (2 ^ 64 - 1) }
{
    let mut size = with_table(0, &tables.tiles);
    size = with_table(size, &tables.tiles_with_hash);
    size = with_table(size, &tables.map);
    size = with_table(size, &tables.images);
    size = with_table(size, &tables.tiles_shallow);
    size = with_table(size, &tables.tiles_data);
    size = with_table(size, &tables.tile_cache);
    with_table(size, &tables.metadata)
}
