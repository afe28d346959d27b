// Reading rows in the order of their keys.
ghost use Rattle.std.specs.Prelude.{◌≡◌, drop, take, IfOk, OnOk};
ghost use Rattle.mb_store.specs.StoredRow.{rows_of};
ghost use Rattle.mb_store.specs.TableRows.{rows_in};

use crate::Row;
use crate::stored_row::StoredRow;
use crate::table_rows::TableRows;
use base_values::OutOfMemory;
use std::alloc::Global;
use std::collections::btree_set::Range;

// The rows behind the first ones.
pub(crate) fn past(rows: Range<'_, StoredRow>, count: u64) -> Range<'_, StoredRow>
    ensures { result ≡ drop count rows.entry }
{
    let mut rest = rows;
    let mut left = count;
    while left > 0 {
        if rest.next().is_none() {
            return rest;
        }
        left -= 1;
    }
    rest
}

// Copies of the next rows, as many as there are, up to a limit, in a list with room for so many.
pub(crate) fn page_of(
    alloc: Global,
    rows: &mut Range<'_, StoredRow>,
    limit: u64,
    room: u64,
) -> Result<Vec<Row>, OutOfMemory>
    ensures page { IfOk result (λ page. page.items ≡ take limit (rows_of rows.old)) }
    ensures rest { OnOk result (rows.new ≡ drop limit rows.old) }
{
    let mut page = Vec::with_capacity(alloc, room as usize)?;
    let mut left = limit;
    while left > 0 {
        let Some(row) = rows.next() else {
            return Ok(page);
        };
        page.push(row.to_row(alloc)?)?;
        left -= 1;
    }
    Ok(page)
}

// The rows themselves in the order of their keys, whose cells are moved.
pub(crate) fn into_rows(alloc: Global, rows: TableRows) -> Result<Vec<Row>, OutOfMemory>
    ensures { IfOk result (λ all. all.items ≡ rows_in rows) }
{
    let TableRows { stored, next: _ } = rows;
    let mut all = Vec::with_capacity(alloc, stored.len())?;
    for row in stored {
        all.push(row.into_row(alloc)?)?;
    }
    Ok(all)
}

// The rows of a list themselves, whose cells are moved.
pub(crate) fn listed(alloc: Global, list: Vec<StoredRow>) -> Result<Vec<Row>, OutOfMemory>
    ensures { IfOk result (λ all. all.items ≡ rows_of list.items) }
{
    let mut all = Vec::with_capacity(alloc, list.len())?;
    for row in list {
        all.push(row.into_row(alloc)?)?;
    }
    Ok(all)
}
