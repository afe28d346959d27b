// The place where a page of rows ended, so that the page behind it is found by a search and not by a walk over all
// the rows before it.
ghost use Rattle.std.specs.Prelude.{◌≡◌, ◌&&◌, ◌==◌, None, drop, false, take, true, IfOk};
ghost use Rattle.mb_store.specs.Common.{table_eq};
ghost use Rattle.mb_store.specs.Bookmark.{IsMarked};
ghost use Rattle.mb_store.specs.ByTable.{at};
ghost use Rattle.mb_store.specs.MemTables.{MemTables, rows_at};
ghost use Rattle.mb_store.specs.StoredRow.{stored_cmp};
ghost use Rattle.std.specs.List.Sorted.{IsStrictlySortedBy};

use crate::gathering::same_table;
use crate::mem_tables::MemTables;
use crate::stored_row::StoredRow;
use crate::{Row, TableName, reading};
use base_values::OutOfMemory;
use std::alloc::Global;
use std::collections::btree_set::Range;

// A row of a table: its number from 0, and a row of its key alone.
#[derive(Debug, Drop)]
pub(crate) struct Place {
    pub table: TableName,
    pub number: u64,
    pub key: StoredRow,
}

impl Place {
    // Whether this is the row of a number in a table.
    fn is_at(&self, table: TableName, number: u64) -> bool
        ensures { result ≡ (table_eq self.now.table table && (self.now.number == number)) }
    {
        same_table(self.table, table) && self.number == number
    }
}

// The row that stands behind the last page, if one is known.
#[derive(Debug)]
pub(crate) struct Bookmark {
    pub place: Option<Place>,
}

// By hand, so that a store that is let go has one step for it.
impl Drop for Bookmark {
    fn drop(self) {
        let Bookmark { place: _ } = self;
    }
}

impl Bookmark {
    // No row.
    pub fn none() -> Bookmark
        ensures { result.place ≡ None }
    {
        Bookmark { place: None }
    }

    // Takes the bookmark away, unless the rows stay.
    pub fn keep_if(&mut self, stay: bool)
        ensures kept { stay ≡ true → self.new ≡ self.old }
        ensures gone { stay ≡ false → self.new.place ≡ None }
    {
        if !stay {
            self.place = None;
        }
    }
}

// The rows of a table from a number on: behind the last page by its key, others by a walk from the first row.
fn rows_from<'a>(
    tables: &'a MemTables,
    bookmark: &Bookmark,
    table: TableName,
    from: u64,
) -> Range<'a, StoredRow>
    requires { IsMarked tables.now bookmark.now }
    ensures rows { result ≡ drop from (at tables.now table).stored.keys }
    ensures sorted { IsStrictlySortedBy stored_cmp (at tables.now table).stored.keys }
{
    let stored = &tables.of(table).stored;
    if let Some(place) = &bookmark.place {
        if place.is_at(table, from) {
            let key = &place.key;
            return stored.range(key..);
        }
    }
    reading::past(stored.range(..), from)
}

// A bookmark at the first of the rows from a number on. There is none where no row is left, or out of memory.
fn mark(alloc: Global, table: TableName, number: u64, rest: &mut Range<'_, StoredRow>) -> Bookmark
    ensures { (tables : MemTables) → IsStrictlySortedBy stored_cmp (at tables table).stored.keys
        → rest.old ≡ drop number (at tables table).stored.keys → IsMarked tables result }
{
    let Some(row) = rest.next() else {
        return Bookmark::none();
    };
    match row.to_key(alloc) {
        Ok(key) => Bookmark {
            place: Some(Place { table, number, key }),
        },
        Err(_) => Bookmark::none(),
    }
}

// Copies of a table's rows from a number on, as many as there are, up to a limit. The bookmark goes behind them.
pub(crate) fn page(
    alloc: Global,
    tables: &MemTables,
    bookmark: &mut Bookmark,
    table: TableName,
    from: u64,
    limit: u64,
) -> Result<Vec<Row>, OutOfMemory>
    requires { IsMarked tables.now bookmark.old }
    ensures page { IfOk result
        (λ page. page.items ≡ take limit (drop from (rows_at tables.now table))) }
    ensures marked { IsMarked tables.now bookmark.new }
{
    let mut rest = rows_from(tables, bookmark, table, from);
    let room = tables.of(table).len().saturating_sub(from).min(limit);
    let page = reading::page_of(alloc, &mut rest, limit, room)?;
    *bookmark = match from.checked_add(limit) {
        Some(number) => mark(alloc, table, number, &mut rest),
        None => Bookmark::none(),
    };
    Ok(page)
}
