// Commits over all tables in memory: first all memory is taken, and then no step fails.
ghost use Rattle.std.specs.Prelude.{◌≡◌, IfOk, OnErr, OnOk};
ghost use Rattle.mb_store.specs.Common.{TableName};
ghost use Rattle.mb_store.specs.ByTable.{at};
ghost use Rattle.mb_store.specs.Changes.{AreChanges};
ghost use Rattle.mb_store.specs.Committing.{CommitsTable};
ghost use Rattle.mb_store.specs.Editing.{AreAdded, early_rows, keys_of, removed};
ghost use Rattle.mb_store.specs.TableRows.{AreStored};
ghost use Rattle.mb_store.specs.MemTables.{AreAllStored, rows_at};

use crate::TableName;
use crate::by_table::ByTable;
use crate::change::Change;
use crate::editing::{keys_of, put_all, remove_all, undo};
use crate::mem_tables::MemTables;
use crate::stored_row::StoredRow;
use crate::table_rows::TableRows;
use base_values::OutOfMemory;
use std::alloc::Global;

// What is looked for under the keys of a table's changes, and the number of the first row that is put.
#[derive(Debug, Drop)]
pub(crate) struct Edits {
    pub keys: Vec<StoredRow>,
    pub start: u64,
}

// Takes the memory for the keys of a table's changes.
fn prepare(
    alloc: Global,
    table: TableName,
    changes: &[Change],
    rows: &TableRows,
) -> Result<Edits, OutOfMemory>
    ensures keys { IfOk result (λ edits. edits.keys.items ≡ keys_of table changes.now) }
    ensures start { IfOk result (λ edits. edits.start ≡ rows.now.next) }
{
    let keys = keys_of(alloc, table, changes)?;
    Ok(Edits {
        keys,
        start: rows.next,
    })
}

// Takes the memory for the keys of each table's changes.
fn prepare_all(
    alloc: Global,
    changes: &[Change],
    tables: &MemTables,
) -> Result<ByTable<Edits>, OutOfMemory>
    ensures keys { IfOk result
        (λ edits. (table : TableName) → (at edits table).keys.items ≡ keys_of table changes.now) }
    ensures start { IfOk result
        (λ edits. (table : TableName) → (at edits table).start ≡ (at tables.now table).next) }
{
    Ok(ByTable {
        tiles: prepare(alloc, TableName::Tiles, changes, &tables.tiles)?,
        tiles_with_hash: prepare(
            alloc,
            TableName::TilesWithHash,
            changes,
            &tables.tiles_with_hash,
        )?,
        map: prepare(alloc, TableName::Map, changes, &tables.map)?,
        images: prepare(alloc, TableName::Images, changes, &tables.images)?,
        tiles_shallow: prepare(
            alloc,
            TableName::TilesShallow,
            changes,
            &tables.tiles_shallow,
        )?,
        tiles_data: prepare(alloc, TableName::TilesData, changes, &tables.tiles_data)?,
        tile_cache: prepare(alloc, TableName::TileCache, changes, &tables.tile_cache)?,
        metadata: prepare(alloc, TableName::Metadata, changes, &tables.metadata)?,
    })
}

// Adds the rows that changes put. When out of memory, some of them may be there.
fn put_tables(alloc: Global, changes: &[Change], tables: &mut MemTables) -> Result<(), OutOfMemory>
    requires sound { AreChanges changes.now }
    requires stored { AreAllStored tables.old }
    ensures early { (table : TableName)
        → early_rows (at tables.old table).next (at tables.new table).stored.keys ≡
        (at tables.old table).stored.keys }
    ensures ok { OnOk result ((table : TableName)
        → AreAdded table changes.now (at tables.old table).next (at tables.old table).stored.keys
        (at tables.new table).stored.keys) }
    ensures stored { AreAllStored tables.new }
{
    put_all(alloc, TableName::Tiles, changes, &mut tables.tiles)?;
    put_all(
        alloc,
        TableName::TilesWithHash,
        changes,
        &mut tables.tiles_with_hash,
    )?;
    put_all(alloc, TableName::Map, changes, &mut tables.map)?;
    put_all(alloc, TableName::Images, changes, &mut tables.images)?;
    put_all(
        alloc,
        TableName::TilesShallow,
        changes,
        &mut tables.tiles_shallow,
    )?;
    put_all(alloc, TableName::TilesData, changes, &mut tables.tiles_data)?;
    put_all(alloc, TableName::TileCache, changes, &mut tables.tile_cache)?;
    put_all(alloc, TableName::Metadata, changes, &mut tables.metadata)?;
    Ok(())
}

// Removes all rows that were put.
fn undo_tables(edits: &ByTable<Edits>, tables: &mut MemTables)
    requires { AreAllStored tables.old }
    ensures rows { (table : TableName)
        → (at tables.new table).stored.keys ≡ early_rows (at edits.now table).start
        (at tables.old table).stored.keys }
    ensures stored { AreAllStored tables.new }
{
    undo(TableName::Tiles, edits.tiles.start, &mut tables.tiles);
    undo(
        TableName::TilesWithHash,
        edits.tiles_with_hash.start,
        &mut tables.tiles_with_hash,
    );
    undo(TableName::Map, edits.map.start, &mut tables.map);
    undo(TableName::Images, edits.images.start, &mut tables.images);
    undo(
        TableName::TilesShallow,
        edits.tiles_shallow.start,
        &mut tables.tiles_shallow,
    );
    undo(
        TableName::TilesData,
        edits.tiles_data.start,
        &mut tables.tiles_data,
    );
    undo(
        TableName::TileCache,
        edits.tile_cache.start,
        &mut tables.tile_cache,
    );
    undo(
        TableName::Metadata,
        edits.metadata.start,
        &mut tables.metadata,
    );
}

// Removes the rows of changed keys that were there before.
fn remove_table(table: TableName, edits: Edits, rows: &mut TableRows)
    requires { AreStored table rows.old }
    ensures rows { rows.new.stored.keys ≡ removed edits.keys.items edits.start
        rows.old.stored.keys }
    ensures stored { AreStored table rows.new }
{
    remove_all(table, edits.keys, edits.start, rows);
}

// Removes the rows of changed keys that were there before, in each table.
fn remove_tables(edits: ByTable<Edits>, tables: &mut MemTables)
    requires { AreAllStored tables.old }
    ensures rows { (table : TableName)
        → (at tables.new table).stored.keys ≡ removed (at edits table).keys.items
        (at edits table).start (at tables.old table).stored.keys }
    ensures stored { AreAllStored tables.new }
{
    remove_table(TableName::Tiles, edits.tiles, &mut tables.tiles);
    remove_table(
        TableName::TilesWithHash,
        edits.tiles_with_hash,
        &mut tables.tiles_with_hash,
    );
    remove_table(TableName::Map, edits.map, &mut tables.map);
    remove_table(TableName::Images, edits.images, &mut tables.images);
    remove_table(
        TableName::TilesShallow,
        edits.tiles_shallow,
        &mut tables.tiles_shallow,
    );
    remove_table(
        TableName::TilesData,
        edits.tiles_data,
        &mut tables.tiles_data,
    );
    remove_table(
        TableName::TileCache,
        edits.tile_cache,
        &mut tables.tile_cache,
    );
    remove_table(TableName::Metadata, edits.metadata, &mut tables.metadata);
}

// Makes all changes, or none when out of memory.
pub(crate) fn commit_all(
    alloc: Global,
    changes: &[Change],
    tables: &mut MemTables,
) -> Result<(), OutOfMemory>
    requires sound { AreChanges changes.now }
    requires stored { AreAllStored tables.old }
    ensures ok { OnOk result ((table : TableName)
        → CommitsTable changes.now table (rows_at tables.old table) (rows_at tables.new table)) }
    ensures err { OnErr result ((table : TableName)
        → rows_at tables.new table ≡ rows_at tables.old table) }
    ensures stored { AreAllStored tables.new }
{
    let edits = prepare_all(alloc, changes, tables)?;
    match put_tables(alloc, changes, tables) {
        Ok(()) => {
            remove_tables(edits, tables);
            Ok(())
        }
        Err(refused) => {
            undo_tables(&edits, tables);
            Err(refused)
        }
    }
}
