// The rows of a table in memory, as a set in the order of their keys.
ghost use Rattle.std.specs.Prelude.{◌≡◌, ◌<◌, ◌≤◌, ◌&&◌, [], find, length, not, IfErr, IfOk, OnErr, OnOk};
ghost use Rattle.mb_store.specs.Common.{clash, has_key, insert_key, is_null, IsInOrder, key_of, list_any, option_copied, option_map, TableName, width};
ghost use Rattle.mb_store.specs.Store.{placed};
ghost use Rattle.mb_store.specs.GatheredRows.{AreFirst, all_rows};
ghost use Rattle.mb_store.specs.StoredRow.{Stored, is_early, stored_cmp};
ghost use Rattle.mb_store.specs.TableRows.{AreStored, has_equal, rows_in};
ghost use Rattle.mb_store.specs.Errors.{IsRowError, RefusesTwice};

use crate::stored_row::StoredRow;
use crate::{Cell, MbtError, MbtResult, Row, RowKey, TableName};
use base_values::OutOfMemory;
use mb_tables::key_of;
use std::alloc::Global;
use std::collections::BTreeSet;
use std::collections::btree_set::Iter;
use std::mem;

// The rows of a table, and the number of the row that comes next.
#[derive(Debug, Drop)]
pub(crate) struct TableRows {
    pub stored: BTreeSet<StoredRow>,
    pub next: u64,
}

impl TableRows {
    // No rows.
    pub fn none(alloc: Global) -> TableRows
        ensures rows { rows_in result ≡ [] }
        ensures stored { (table : TableName) → AreStored table result }
    {
        TableRows {
            stored: BTreeSet::new(alloc),
            next: 0,
        }
    }

    // Takes the rows, which leaves none.
    pub fn take(&mut self, alloc: Global) -> TableRows
        ensures taken { rows_in result ≡ rows_in self.old }
        ensures left { rows_in self.new ≡ [] }
        ensures stored { (table : TableName) → AreStored table self.new }
    {
        mem::replace(self, TableRows::none(alloc))
    }

    // How many rows there are.
    pub fn len(&self) -> u64
        ensures { result ≡ length (rows_in self.now) }
    {
        self.stored.len() as u64
    }

    // The rows in the order of their keys.
    pub fn iter(&self) -> Iter<'_, StoredRow>
        ensures rows { result ≡ self.now.stored.keys }
        ensures order { (table : TableName) → AreStored table self.now
            → IsInOrder table (rows_in self.now) }
    {
        self.stored.iter()
    }
}

// The first row with the key of another, which has no number yet, where it came before a number.
pub(crate) fn first_early<'a>(
    key: &StoredRow,
    limit: u64,
    stored: &'a BTreeSet<StoredRow>,
) -> Option<&'a StoredRow>
    requires { key.now.1 ≡ 0 }
    ensures { option_copied result ≡ find (is_early key.now.0 limit) stored.now.keys }
{
    match stored.range(key..).next() {
        None => None,
        Some(first) => {
            if first.is_early(key, limit) {
                Some(first)
            } else {
                None
            }
        }
    }
}

// A copy of a row, if there is one.
fn copy_of(alloc: Global, row: Option<&StoredRow>) -> Result<Option<Row>, OutOfMemory>
    ensures { IfOk result
        (λ copy. copy ≡ option_map (λ (s : Stored). s.0) (option_copied row.entry)) }
{
    match row {
        Some(row) => Ok(Some(row.to_row(alloc)?)),
        None => Ok(None),
    }
}

// A copy of the first row with a key.
pub(crate) fn find_in(
    alloc: Global,
    table: TableName,
    key: &RowKey,
    rows: &TableRows,
) -> Result<Option<Row>, OutOfMemory>
    requires { AreStored table rows.now }
    ensures { IfOk result (λ row. row ≡ find (has_key table key.now) (rows_in rows.now)) }
{
    let key = StoredRow::of_key(alloc, key)?;
    copy_of(alloc, first_early(&key, rows.next, &rows.stored))
}

// Whether a cell of the row's key is null.
fn has_null_key(table: TableName, row: &[Cell]) -> bool
    ensures { result ≡ list_any is_null (key_of table row.now) }
{
    key_of(table, row).iter().any(|cell| cell.is_null())
}

// Whether a table that is keyed or not has at most one row of the row's key.
pub(crate) fn is_single(table: TableName, keyed: bool, row: &[Cell]) -> bool
    ensures { result ≡ (keyed && not (list_any is_null (key_of table row.now))) }
{
    keyed && !has_null_key(table, row)
}

// Whether rows have one with the key of this one, which has no number yet.
pub(crate) fn has_equal(table: TableName, row: &StoredRow, rows: &TableRows) -> bool
    requires wide { length row.now.0 ≡ width table }
    requires first { row.now.1 ≡ 0 }
    requires stored { AreStored table rows.now }
    ensures { result ≡ has_equal table row.now.0 (rows_in rows.now) }
{
    first_early(row, rows.next, &rows.stored).is_some()
}

// Adds a row behind those of its key, with the next number. When out of memory, the rows stay.
pub(crate) fn add(table: TableName, row: StoredRow, rows: &mut TableRows) -> Result<(), OutOfMemory>
    requires wide { length row.0 ≡ width table }
    requires stored { AreStored table rows.old }
    ensures ok { OnOk result (rows.new.stored.keys ≡ insert_key stored_cmp rows.old.stored.keys
        (row.0, rows.old.next)) }
    ensures placed { OnOk result (rows_in rows.new ≡ placed table row.0 (rows_in rows.old)) }
    ensures err { OnErr result (rows.new.stored.keys ≡ rows.old.stored.keys) }
    ensures later { rows.old.next ≤ rows.new.next }
    ensures stored { AreStored table rows.new }
{
    if rows.next == u64::MAX || rows.stored.len() == usize::MAX {
        return Err(OutOfMemory);
    }
    let mut row = row;
    row.set_arrival(rows.next);
    rows.stored.insert(row)?;
    rows.next += 1;
    Ok(())
}

// Adds a row to rows that all have the number 0, as it has, or refuses it where one has its key: its place and its
// equal are found by one search.
fn add_first(table: TableName, row: StoredRow, rows: &mut TableRows) -> MbtResult<()>
    requires wide { length row.0 ≡ width table }
    requires first { row.1 ≡ 0 }
    requires all_first { rows.old.next ≤ 1 }
    requires stored { AreStored table rows.old }
    ensures duplicate { RefusesTwice table (has_equal table row.0 (rows_in rows.old)) result }
    ensures errors { IfErr result (IsRowError table) }
    ensures ok { OnOk result (rows_in rows.new ≡ placed table row.0 (rows_in rows.old)) }
    ensures err { OnErr result (rows_in rows.new ≡ rows_in rows.old) }
    ensures stored { AreStored table rows.new }
{
    if rows.stored.len() == usize::MAX {
        return Err(MbtError::OutOfMemory);
    }
    rows.next = 1;
    let Ok(added) = rows.stored.insert(row) else {
        return Err(MbtError::OutOfMemory);
    };
    if added {
        Ok(())
    } else {
        Err(MbtError::DuplicateRow(table))
    }
}

// Adds a row, or refuses it where one has its key.
fn add_only(table: TableName, row: StoredRow, rows: &mut TableRows) -> MbtResult<()>
    requires wide { length row.0 ≡ width table }
    requires first { row.1 ≡ 0 }
    requires stored { AreStored table rows.old }
    ensures duplicate { RefusesTwice table (has_equal table row.0 (rows_in rows.old)) result }
    ensures errors { IfErr result (IsRowError table) }
    ensures ok { OnOk result (rows_in rows.new ≡ placed table row.0 (rows_in rows.old)) }
    ensures err { OnErr result (rows_in rows.new ≡ rows_in rows.old) }
    ensures stored { AreStored table rows.new }
{
    if rows.next <= 1 {
        return add_first(table, row, rows);
    }
    if has_equal(table, &row, rows) {
        return Err(MbtError::DuplicateRow(table));
    }
    match add(table, row, rows) {
        Ok(()) => Ok(()),
        Err(_) => Err(MbtError::OutOfMemory),
    }
}

// Adds a row at its place, or refuses it where the table is keyed and has its key. Refused, it leaves the rows.
pub(crate) fn push(table: TableName, keyed: bool, row: Row, rows: &mut TableRows) -> MbtResult<()>
    requires wide { length row ≡ width table }
    requires stored { AreStored table rows.old }
    ensures duplicate { RefusesTwice table (keyed && list_any (clash table row) (rows_in rows.old))
        result }
    ensures errors { IfErr result (IsRowError table) }
    ensures ok { OnOk result (rows_in rows.new ≡ placed table row (rows_in rows.old)) }
    ensures err { OnErr result (rows_in rows.new ≡ rows_in rows.old) }
    ensures stored { AreStored table rows.new }
{
    if is_single(table, keyed, row.cells()) {
        return add_only(table, StoredRow::new(row, 0), rows);
    }
    match add(table, StoredRow::new(row, 0), rows) {
        Ok(()) => Ok(()),
        Err(_) => Err(MbtError::OutOfMemory),
    }
}

// Puts a row of the number 0 at its place. When out of memory it is given back.
fn put(table: TableName, row: StoredRow, rows: &mut TableRows) -> Result<(), StoredRow>
    requires wide { length row.0 ≡ width table }
    requires first { row.1 ≡ 0 }
    requires stored { AreStored table rows.old }
    ensures ok { OnOk result
        (rows.new.stored.keys ≡ insert_key stored_cmp rows.old.stored.keys row) }
    ensures err { OnErr result (rows.new.stored.keys ≡ rows.old.stored.keys) }
    ensures back { IfErr result (λ refused. refused ≡ row) }
    ensures stored { AreStored table rows.new }
{
    if rows.stored.len() == usize::MAX {
        return Err(row);
    }
    rows.next = rows.next.max(1);
    match rows.stored.insert(row) {
        Ok(_) => Ok(()),
        Err(refused) => Err(refused.value),
    }
}

// Puts the rows of a list at their places, the last first. When out of memory those that
// are left stay in the list.
pub(crate) fn put_all(
    table: TableName,
    list: &mut Vec<StoredRow>,
    rows: &mut TableRows,
) -> Result<(), OutOfMemory>
    requires first { AreFirst table list.old.items }
    requires stored { AreStored table rows.old }
    ensures told { all_rows rows.new.stored.keys list.new.items
        ≡ all_rows rows.old.stored.keys list.old.items }
    ensures ok { OnOk result (list.new.items ≡ []) }
    ensures first { AreFirst table list.new.items }
    ensures stored { AreStored table rows.new }
{
    while let Some(row) = list.pop() {
        if let Err(row) = put(table, row, rows) {
            list.push_reserved(row);
            return Err(OutOfMemory);
        }
    }
    Ok(())
}
