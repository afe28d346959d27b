// The steps of a commit for one table: rows are added, and then those that were there before are removed.
ghost use Rattle.std.specs.Prelude.{◌≡◌, ◌≤◌, IfOk, IfSome, OnErr, OnOk, filter, length, not, true};
ghost use Rattle.mb_store.specs.Common.{table_eq, width};
ghost use Rattle.mb_store.specs.Changes.{AreChanges};
ghost use Rattle.mb_store.specs.Editing.{AreAdded, early_rows, keys_of, removed, with_put};
ghost use Rattle.mb_store.specs.StoredRow.{is_early};
ghost use Rattle.mb_store.specs.TableRows.{AreStored};

use crate::TableName;
use crate::change::Change;
use crate::gathering::same_table;
use crate::stored_row::StoredRow;
use crate::table_rows::{TableRows, add, first_early};
use base_values::OutOfMemory;
use std::alloc::Global;

// What is looked for under the keys of a table's changes.
pub(crate) fn keys_of(
    alloc: Global,
    table: TableName,
    changes: &[Change],
) -> Result<Vec<StoredRow>, OutOfMemory>
    ensures { IfOk result (λ keys. keys.items ≡ keys_of table changes.now) }
{
    let mut keys = Vec::new(alloc);
    for change in changes {
        if same_table(change.table, table) {
            keys.push(StoredRow::of_key(alloc, &change.key)?)?;
        }
    }
    Ok(keys)
}

// Adds the row that a change puts, if it is of the table. When out of memory, the rows stay.
fn put(
    alloc: Global,
    table: TableName,
    change: &Change,
    rows: &mut TableRows,
) -> Result<(), OutOfMemory>
    requires fits { table_eq change.now.table table ≡ true → IfSome change.now.row
        (λ row. length row ≡ width table) }
    requires stored { AreStored table rows.old }
    ensures ok { OnOk result (rows.new.stored.keys ≡ with_put table change.now rows.old.next
        rows.old.stored.keys) }
    ensures err { OnErr result (rows.new.stored.keys ≡ rows.old.stored.keys) }
    ensures later { rows.old.next ≤ rows.new.next }
    ensures stored { AreStored table rows.new }
{
    if !same_table(change.table, table) {
        return Ok(());
    }
    match &change.row {
        Some(row) => add(table, StoredRow::new(row.try_clone(alloc)?, 0), rows),
        None => Ok(()),
    }
}

// Adds the rows that the changes of a table put. When out of memory, some of them may be there.
pub(crate) fn put_all(
    alloc: Global,
    table: TableName,
    changes: &[Change],
    rows: &mut TableRows,
) -> Result<(), OutOfMemory>
    requires sound { AreChanges changes.now }
    requires stored { AreStored table rows.old }
    ensures early { early_rows rows.old.next rows.new.stored.keys ≡ rows.old.stored.keys }
    ensures ok { OnOk result (AreAdded table changes.now rows.old.next rows.old.stored.keys
        rows.new.stored.keys) }
    ensures stored { AreStored table rows.new }
{
    for change in changes {
        put(alloc, table, change, rows)?;
    }
    Ok(())
}

// Removes all rows with numbers from one on.
pub(crate) fn undo(table: TableName, start: u64, rows: &mut TableRows)
    requires { AreStored table rows.old }
    ensures rows { rows.new.stored.keys ≡ early_rows start rows.old.stored.keys }
    ensures stored { AreStored table rows.new }
{
    rows.stored.retain(|row| row.arrival() < start);
}

// Removes the rows of a key that came before a number.
fn remove(table: TableName, key: StoredRow, start: u64, rows: &mut TableRows)
    requires { AreStored table rows.old }
    ensures rows { rows.new.stored.keys ≡ filter
        (λ s. not (is_early key.0 start s)) rows.old.stored.keys }
    ensures stored { AreStored table rows.new }
{
    let mut key = key;
    key.set_arrival(0);
    while let Some(first) = first_early(&key, start, &rows.stored) {
        let arrival = first.arrival();
        key.set_arrival(arrival);
        rows.stored.remove(&key);
        key.set_arrival(0);
    }
}

// Removes the rows of each key that came before a number.
pub(crate) fn remove_all(table: TableName, keys: Vec<StoredRow>, start: u64, rows: &mut TableRows)
    requires { AreStored table rows.old }
    ensures rows { rows.new.stored.keys ≡ removed keys.items start rows.old.stored.keys }
    ensures stored { AreStored table rows.new }
{
    for key in keys {
        remove(table, key, start, rows);
    }
}
