// The tables in memory with the rows that are gathered beside them.
ghost use Rattle.std.specs.Prelude.{◌≡◌, ◌<◌, ◌^◌, ◌&&◌, ◌↔◌, [], false, true, length, IfErr, OnErr, OnOk};
ghost use Rattle.mb_store.specs.Common.{clash, list_any, table_eq, TableName, width};
ghost use Rattle.mb_store.specs.Errors.{IsRowError, RefusesTwice};
ghost use Rattle.mb_store.specs.Gathered.{AreGathered, told_at};
ghost use Rattle.mb_store.specs.GatheredRows.{has_own};
ghost use Rattle.mb_store.specs.MemTables.{AreAllStored};
ghost use Rattle.mb_store.specs.Store.{placed, with_rows};
ghost use Rattle.mb_store.specs.StoredRow.{own_key};
ghost use Rattle.mb_store.specs.TableRows.{has_equal};

use crate::gathered::Gathered;
use crate::mem_tables::MemTables;
use crate::stored_row::StoredRow;
use crate::table_rows::TableRows;
use crate::{MbtError, MbtResult, Row, TableName, mem_tables, stored_row, table_rows};
use base_values::OutOfMemory;

// Whether two tables are the same.
pub(crate) fn same_table(table: TableName, other: TableName) -> bool
    ensures { result ≡ table_eq table other }
{
    table.number() == other.number()
}

// Whether a row of a table can be gathered: the list is open for this table and its hash set has room where these
// numbers begin, or nothing is gathered and the table has no rows, so that it is opened.
fn opens(
    tables: &MemTables,
    gathered: &mut Gathered,
    table: TableName,
    numbers: (u32, u32, u32),
) -> bool
    requires gathered { AreGathered tables.now gathered.old }
    ensures told { told_at tables.now gathered.new ≡ told_at tables.now gathered.old }
    ensures gathered { AreGathered tables.now gathered.new }
    ensures table { result ≡ true → gathered.new.table ≡ table }
    ensures open { result ≡ true → gathered.new.is_open ≡ true }
{
    if gathered.is_open && same_table(table, gathered.table) {
        return gathered.spread.admits(&gathered.seen, numbers);
    }
    if gathered.rows.is_empty() && tables.of(table).stored.is_empty() {
        gathered.begin(table);
        return true;
    }
    false
}

// Moves the gathered rows into the ordered set of their table. Refused, those that are left stay gathered.
pub(crate) fn settle(tables: &mut MemTables, gathered: &mut Gathered) -> Result<(), OutOfMemory>
    requires stored { AreAllStored tables.old }
    requires gathered { AreGathered tables.old gathered.old }
    ensures told { told_at tables.new gathered.new ≡ told_at tables.old gathered.old }
    ensures ok { OnOk result (gathered.new.rows.items ≡ []) }
    ensures idle { gathered.old.rows.items ≡ [] → tables.new ≡ tables.old }
    ensures closed { gathered.new.is_open ≡ false }
    ensures table { gathered.new.table ≡ gathered.old.table }
    ensures stored { AreAllStored tables.new }
    ensures gathered { AreGathered tables.new gathered.new }
{
    gathered.close();
    if gathered.rows.is_empty() {
        return Ok(());
    }
    let table = gathered.table;
    let none = TableRows::none(*gathered.rows.allocator());
    let mut rows = mem_tables::exchange(tables, table, none);
    let settled = table_rows::put_all(table, &mut gathered.rows, &mut rows);
    let _ = mem_tables::exchange(tables, table, rows);
    match settled {
        Ok(()) => {
            gathered.free();
            Ok(())
        }
        Err(refused) => Err(refused),
    }
}

// Whether rows of a list have one with the key of this one.
fn is_among(row: &StoredRow, list: &[StoredRow]) -> bool
    ensures { result ≡ has_own (own_key row.now.0) list.now }
{
    list.iter().any(|other| row.compare_keys(other).is_eq())
}

// Whether a table that is keyed or not has a row of this one's key, in its ordered set or among the gathered
// rows, which are its own.
fn stands(
    tables: &MemTables,
    gathered: &Gathered,
    table: TableName,
    single: bool,
    row: &StoredRow,
) -> bool
    requires wide { length row.now.0 ≡ width table }
    requires first { row.now.1 ≡ 0 }
    requires stored { AreAllStored tables.now }
    requires gathered { AreGathered tables.now gathered.now }
    requires own { gathered.now.table ≡ table }
    ensures { result ≡ (single
        && has_equal table row.now.0 (told_at tables.now gathered.now table)) }
{
    single
        && (table_rows::has_equal(table, row, tables.of(table))
            || is_among(row, gathered.rows.as_slice()))
}

// The refusal of a row that can't be added when out of memory: as one that stands already, where it is one.
fn refusal(
    tables: &MemTables,
    gathered: &Gathered,
    table: TableName,
    keyed: bool,
    row: Row,
) -> MbtError
    requires wide { length row ≡ width table }
    requires stored { AreAllStored tables.now }
    requires gathered { AreGathered tables.now gathered.now }
    requires own { gathered.now.table ≡ table }
    ensures duplicate { (result ≡ MbtError.DuplicateRow table)
        ↔ ((keyed && list_any (clash table row) (told_at tables.now gathered.now table)) ≡ true) }
    ensures errors { IsRowError table result }
{
    let single = table_rows::is_single(table, keyed, row.cells());
    let stored = StoredRow::new(row, 0);
    let stands = stands(tables, gathered, table, single, &stored);
    drop(stored);
    if stands {
        MbtError::DuplicateRow(table)
    } else {
        MbtError::OutOfMemory
    }
}

// Adds a row at its place in the ordered set of its table, in which the gathered rows are put first.
fn push_settled(
    tables: &mut MemTables,
    gathered: &mut Gathered,
    table: TableName,
    keyed: bool,
    row: Row,
) -> MbtResult<()>
    requires wide { length row ≡ width table }
    requires stored { AreAllStored tables.old }
    requires gathered { AreGathered tables.old gathered.old }
    requires own { gathered.old.table ≡ table }
    ensures duplicate { RefusesTwice table
        (keyed && list_any (clash table row) (told_at tables.old gathered.old table)) result }
    ensures errors { IfErr result (IsRowError table) }
    ensures ok { OnOk result (told_at tables.new gathered.new
        ≡ with_rows (told_at tables.old gathered.old) table
        (placed table row (told_at tables.old gathered.old table))) }
    ensures err { OnErr result
        (told_at tables.new gathered.new ≡ told_at tables.old gathered.old) }
    ensures count { OnOk result (length (told_at tables.new gathered.new table) < 2 ^ 64) }
    ensures stored { AreAllStored tables.new }
    ensures gathered { AreGathered tables.new gathered.new }
{
    match settle(tables, gathered) {
        Ok(()) => mem_tables::push(tables, table, keyed, row),
        Err(_) => Err(refusal(tables, gathered, table, keyed, row)),
    }
}

// Adds a row at its place in the ordered set of its table, which isn't the one of the gathered rows.
fn push_beside(
    tables: &mut MemTables,
    gathered: &Gathered,
    table: TableName,
    keyed: bool,
    row: Row,
) -> MbtResult<()>
    requires wide { length row ≡ width table }
    requires stored { AreAllStored tables.old }
    requires gathered { AreGathered tables.old gathered.now }
    requires other { table_eq table gathered.now.table ≡ false }
    ensures duplicate { RefusesTwice table
        (keyed && list_any (clash table row) (told_at tables.old gathered.now table)) result }
    ensures errors { IfErr result (IsRowError table) }
    ensures ok { OnOk result (told_at tables.new gathered.now
        ≡ with_rows (told_at tables.old gathered.now) table
        (placed table row (told_at tables.old gathered.now table))) }
    ensures err { OnErr result
        (told_at tables.new gathered.now ≡ told_at tables.old gathered.now) }
    ensures count { OnOk result (length (told_at tables.new gathered.now table) < 2 ^ 64) }
    ensures stored { AreAllStored tables.new }
    ensures gathered { AreGathered tables.new gathered.now }
{
    mem_tables::push(tables, table, keyed, row)
}

// Adds a row at its place in the ordered set of its table.
fn push_ordered(
    tables: &mut MemTables,
    gathered: &mut Gathered,
    table: TableName,
    keyed: bool,
    row: Row,
) -> MbtResult<()>
    requires wide { length row ≡ width table }
    requires stored { AreAllStored tables.old }
    requires gathered { AreGathered tables.old gathered.old }
    ensures duplicate { RefusesTwice table
        (keyed && list_any (clash table row) (told_at tables.old gathered.old table)) result }
    ensures errors { IfErr result (IsRowError table) }
    ensures ok { OnOk result (told_at tables.new gathered.new
        ≡ with_rows (told_at tables.old gathered.old) table
        (placed table row (told_at tables.old gathered.old table))) }
    ensures err { OnErr result
        (told_at tables.new gathered.new ≡ told_at tables.old gathered.old) }
    ensures count { OnOk result (length (told_at tables.new gathered.new table) < 2 ^ 64) }
    ensures stored { AreAllStored tables.new }
    ensures gathered { AreGathered tables.new gathered.new }
{
    if same_table(table, gathered.table) {
        push_settled(tables, gathered, table, keyed, row)
    } else {
        push_beside(tables, gathered, table, keyed, row)
    }
}

// Gathers a row, or adds it at its place in the ordered set of its table. It is refused where the table is keyed and
// has its key. Refused, all rows stay.
pub(crate) fn push(
    tables: &mut MemTables,
    gathered: &mut Gathered,
    table: TableName,
    keyed: bool,
    row: Row,
) -> MbtResult<()>
    requires wide { length row ≡ width table }
    requires stored { AreAllStored tables.old }
    requires gathered { AreGathered tables.old gathered.old }
    ensures duplicate { RefusesTwice table
        (keyed && list_any (clash table row) (told_at tables.old gathered.old table)) result }
    ensures errors { IfErr result (IsRowError table) }
    ensures ok { OnOk result (told_at tables.new gathered.new
        ≡ with_rows (told_at tables.old gathered.old) table
        (placed table row (told_at tables.old gathered.old table))) }
    ensures err { OnErr result
        (told_at tables.new gathered.new ≡ told_at tables.old gathered.old) }
    ensures count { OnOk result (length (told_at tables.new gathered.new table) < 2 ^ 64) }
    ensures stored { AreAllStored tables.new }
    ensures gathered { AreGathered tables.new gathered.new }
{
    let Some(numbers) = stored_row::numbers_of(row.cells()) else {
        return push_ordered(tables, gathered, table, keyed, row);
    };
    if keyed && opens(tables, gathered, table, numbers) {
        gathered.add(numbers, row)
    } else {
        push_ordered(tables, gathered, table, keyed, row)
    }
}
