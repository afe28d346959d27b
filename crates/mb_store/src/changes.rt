// The changes that one commit makes.
ghost use Rattle.std.specs.Prelude.{◌≡◌, ◌<◌, ◌↔◌, IsTrue, List, [], true, Some, None, OnOk, OnErr, length, slice_get, option_copied};
ghost use Rattle.mb_store.specs.ChangeIndex.{IsIndex};
ghost use Rattle.mb_store.specs.Changes.{AreChanges, with_change};
ghost use Rattle.mb_store.specs.Committing.{AreOfTables};
ghost use Rattle.mb_store.specs.Common.{has_key, is_table, TableDesc, width};

use crate::change::Change;
use crate::table_key::TableKey;
use crate::{Row, RowKey, TableName};
use base_values::OutOfMemory;
use std::alloc::Global;
use std::collections::BTreeMap;
use std::marker::Model;

/// The changes that one commit makes, in order of arrival: for each table and key at most one. A later change of a key
/// takes the place of the earlier.
#[derive(Debug, Drop)]
pub struct Changes {
    changes: Vec<Change>,
    places: BTreeMap<TableKey, usize>,
}

impl Model for Changes {
    ghost use Rattle.std.specs.Prelude.{List};
    ghost use Rattle.mb_store.specs.declared.change.Change.{Change};
    ghost use Rattle.mb_store.specs.ChangeIndex.{AreIndexed};

    ghost Value = { List Change };

    ghost view = { λ c. c.changes.items };

    ghost invariant = { λ c. AreIndexed c.changes.items c.places };
}

impl Changes {
    /// No change.
    pub fn new(alloc: Global) -> Changes
        ensures none { result ≡ [] }
        ensures tables { (ds : List TableDesc) → AreOfTables ds result }
    {
        Changes {
            changes: Vec::new(alloc),
            places: BTreeMap::new(alloc),
        }
    }

    /// Puts a row under its key, in place of all rows of the key. The row has the table's width and the key's cells.
    pub fn put(&mut self, table: TableName, key: RowKey, row: Row) -> Result<(), OutOfMemory>
        requires own { has_key table key row ≡ true }
        requires wide { length row ≡ width table }
        ensures ok { OnOk result
            (self.new ≡ with_change self.old
            (record { table = table; key = key; row = Some row })) }
        ensures err { OnErr result (self.new ≡ self.old) }
        ensures tables { (ds : List TableDesc) → AreOfTables ds self.old → is_table ds table ≡ true
            → AreOfTables ds self.new }
    {
        let change = Change {
            table,
            key,
            row: Some(row),
        };
        add(&mut self.changes, &mut self.places, change)
    }

    /// Removes the rows of a key.
    pub fn delete(&mut self, table: TableName, key: RowKey) -> Result<(), OutOfMemory>
        ensures ok { OnOk result
            (self.new ≡ with_change self.old (record { table = table; key = key; row = None })) }
        ensures err { OnErr result (self.new ≡ self.old) }
        ensures tables { (ds : List TableDesc) → AreOfTables ds self.old → is_table ds table ≡ true
            → AreOfTables ds self.new }
    {
        let change = Change {
            table,
            key,
            row: None,
        };
        add(&mut self.changes, &mut self.places, change)
    }

    /// How many changes there are.
    pub fn len(&self) -> usize
        ensures { result ≡ length self.now }
    {
        self.changes.len()
    }

    /// Whether there is none.
    pub fn is_empty(&self) -> bool
        ensures { IsTrue result ↔ (self.now ≡ []) }
    {
        self.changes.is_empty()
    }

    /// The change at a place: its table, its key, and the row that is put, None where the rows are removed.
    pub fn change_at(&self, index: usize) -> (TableName, &RowKey, Option<&Row>)
        requires { index < length self.now }
        ensures change { slice_get self.now index ≡ Some
            (record { table = result.0; key = result.1.now; row = option_copied result.2 }) }
        ensures sound { AreChanges self.now }
    {
        let change = &self.changes[index];
        (change.table, &change.key, change.row.as_ref())
    }

    // The changes in order of arrival.
    pub(crate) fn as_slice(&self) -> &[Change]
        ensures all { result.now ≡ self.now }
        ensures sound { AreChanges self.now }
    {
        self.changes.as_slice()
    }
}

// Puts a change in place of the one with its key, or at the end. Refused, it leaves the changes.
fn add(
    changes: &mut Vec<Change>,
    places: &mut BTreeMap<TableKey, usize>,
    change: Change,
) -> Result<(), OutOfMemory>
    requires { IsIndex changes.old.items places.old }
    ensures ok { OnOk result (changes.new.items ≡ with_change changes.old.items change) }
    ensures err { OnErr result (changes.new.items ≡ changes.old.items) }
    ensures index { IsIndex changes.new.items places.new }
{
    let key = TableKey {
        table: change.table,
        key: change.key.try_clone(*changes.allocator())?,
    };
    match places.get(&key).copied() {
        Some(place) => changes[place] = change,
        None => {
            changes.reserve(1)?;
            places.insert(key, changes.len())?;
            changes.push(change).unwrap();
        }
    }
    Ok(())
}
