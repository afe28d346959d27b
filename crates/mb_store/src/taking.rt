// Taking the rows of a table, which may be gathered.
ghost use Rattle.std.specs.Prelude.{◌≡◌, [], false, true, IfOk};
ghost use Rattle.mb_store.specs.Common.{IsInOrder, table_eq};
ghost use Rattle.mb_store.specs.Gathered.{AreGathered, told_at};
ghost use Rattle.mb_store.specs.MemTables.{AreAllStored};
ghost use Rattle.mb_store.specs.Store.{with_rows};

use crate::gathered::Gathered;
use crate::gathering::{same_table, settle};
use crate::mem_tables::MemTables;
use crate::{Row, TableName, mem_tables, reading};
use base_values::OutOfMemory;
use std::alloc::Global;
use std::mem;

// Takes the rows of a table that are all gathered, in the order of their keys.
fn take_gathered(
    alloc: Global,
    tables: &MemTables,
    gathered: &mut Gathered,
    table: TableName,
) -> Result<Vec<Row>, OutOfMemory>
    requires gathered { AreGathered tables.now gathered.old }
    requires own { gathered.old.table ≡ table }
    requires open { gathered.old.is_open ≡ true }
    ensures rows { IfOk result
        (λ rows. rows.items ≡ told_at tables.now gathered.old table) }
    ensures told { told_at tables.now gathered.new
        ≡ with_rows (told_at tables.now gathered.old) table [] }
    ensures gathered { AreGathered tables.now gathered.new }
{
    let mut list = mem::replace(gathered, Gathered::none(alloc)).into_list();
    list.sort_unstable();
    reading::listed(alloc, list)
}

// Takes the rows of a table, in whose ordered set the gathered rows are put first.
fn take_settled(
    alloc: Global,
    tables: &mut MemTables,
    gathered: &mut Gathered,
    table: TableName,
) -> Result<Vec<Row>, OutOfMemory>
    requires stored { AreAllStored tables.old }
    requires gathered { AreGathered tables.old gathered.old }
    requires own { gathered.old.table ≡ table }
    ensures rows { IfOk result
        (λ rows. rows.items ≡ told_at tables.old gathered.old table) }
    ensures told { told_at tables.new gathered.new
        ≡ with_rows (told_at tables.old gathered.old) table [] }
    ensures stored { AreAllStored tables.new }
    ensures gathered { AreGathered tables.new gathered.new }
{
    match settle(tables, gathered) {
        Ok(()) => reading::into_rows(alloc, mem_tables::take(alloc, tables, table)),
        Err(refused) => {
            *gathered = Gathered::none(alloc);
            let _ = mem_tables::take(alloc, tables, table);
            Err(refused)
        }
    }
}

// Takes the rows of a table that isn't the one of the gathered rows.
fn take_beside(
    alloc: Global,
    tables: &mut MemTables,
    gathered: &Gathered,
    table: TableName,
) -> Result<Vec<Row>, OutOfMemory>
    requires stored { AreAllStored tables.old }
    requires gathered { AreGathered tables.old gathered.now }
    requires other { table_eq table gathered.now.table ≡ false }
    ensures rows { IfOk result
        (λ rows. rows.items ≡ told_at tables.old gathered.now table) }
    ensures told { told_at tables.new gathered.now
        ≡ with_rows (told_at tables.old gathered.now) table [] }
    ensures stored { AreAllStored tables.new }
    ensures gathered { AreGathered tables.new gathered.now }
{
    reading::into_rows(alloc, mem_tables::take(alloc, tables, table))
}

// Takes the rows of a table in the order of their keys. The table has none then, also when out of memory.
pub(crate) fn take(
    alloc: Global,
    tables: &mut MemTables,
    gathered: &mut Gathered,
    table: TableName,
) -> Result<Vec<Row>, OutOfMemory>
    requires stored { AreAllStored tables.old }
    requires gathered { AreGathered tables.old gathered.old }
    ensures rows { IfOk result
        (λ rows. rows.items ≡ told_at tables.old gathered.old table) }
    ensures told { told_at tables.new gathered.new
        ≡ with_rows (told_at tables.old gathered.old) table [] }
    ensures stored { AreAllStored tables.new }
    ensures gathered { AreGathered tables.new gathered.new }
{
    if !same_table(table, gathered.table) {
        return take_beside(alloc, tables, gathered, table);
    }
    if gathered.is_open {
        return take_gathered(alloc, tables, gathered, table);
    }
    take_settled(alloc, tables, gathered, table)
}

// The rows of a table stand in the order of their keys.
pub(crate) fn in_order(tables: &MemTables, gathered: &Gathered, table: TableName)
    requires stored { AreAllStored tables.now }
    requires gathered { AreGathered tables.now gathered.now }
    ensures { IsInOrder table (told_at tables.now gathered.now table) }
{
    let _ = tables.of(table).stored.iter();
}
