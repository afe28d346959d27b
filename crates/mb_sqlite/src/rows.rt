// Cells of rows, and values of the database.
ghost use Rattle.std.specs.Prelude.{◌≡◌, ◌≢◌, ◌+◌, ◌-◌, ◌^◌, IfOk, IfSome, IsSome, ◌↔◌, length, min};
ghost use Rattle.mb_sqlite.specs.Common.{width};
ghost use Rattle.sqlite_value.specs.Value.{owned};
ghost use Rattle.mb_store.specs.Sizes.{cell_size};
ghost use Rattle.mb_tables.specs.declared.cell.Cell as stored;
ghost use Rattle.mb_sqlite.specs.Reading.{IsRowOf};
ghost use Rattle.mb_sqlite.specs.Sizing.{answer_size, value_size};
ghost use Rattle.mb_sqlite.specs.Stored.{IsReadAs, IsWrittenAs};

use crate::failure::Failure;
use base_values::{BlobVal, TextVal};
use mb_tables::{Cell, Row, TableName};
use sqlite::types::ValueRef;
use std::alloc::{AllocError, Global};

// A value of the database as a cell. A floating point number, and a text that isn't UTF-8, is a value of another kind.
pub(crate) fn cell_of(alloc: Global, value: ValueRef<'_>) -> Result<Cell, AllocError>
    ensures { IfOk result (IsReadAs (owned value.entry)) }
{
    Ok(match value {
        ValueRef::Null => Cell::Null,
        ValueRef::Int(number) => Cell::Int(number),
        ValueRef::Real(_) => Cell::Other,
        ValueRef::Text(text) => match std::str::from_utf8(text) {
            Ok(text) => Cell::Text(TextVal::new(String::from_str(alloc, text)?)),
            Err(_) => Cell::Other,
        },
        ValueRef::Blob(bytes) => Cell::Blob(BlobVal::new(Vec::from_slice(alloc, bytes)?)),
    })
}

// A cell as a value of the database, None for a value of another kind.
pub(crate) fn value_of<'a>(cell: &'a Cell) -> Option<ValueRef<'a>>
    ensures some { IsSome result ↔ (cell.now ≢ Cell.Other) }
    ensures value { IfSome result (λ value. IsWrittenAs cell.now (owned value)) }
{
    match cell {
        Cell::Null => Some(ValueRef::Null),
        Cell::Int(number) => Some(ValueRef::Int(*number)),
        Cell::Text(text) => Some(ValueRef::Text(text.as_str().as_bytes())),
        Cell::Blob(blob) => Some(ValueRef::Blob(blob.as_bytes())),
        Cell::Other => None,
    }
}

// A row of a table, from an answer of the database.
pub(crate) fn row_of(alloc: Global, table: TableName, row: &sqlite::Row) -> Result<Row, Failure>
    ensures wide { IfOk result (λ row. length row ≡ width table) }
    ensures cells { IfOk result (IsRowOf table row.now) }
{
    let mut cells = Vec::new(alloc);
    for at in 0..table.width() {
        let value = row.get_ref(at)?;
        cells.push(cell_of(alloc, value)?)?;
    }
    Ok(Row::new(cells))
}

// The size of the cell that a value is read as.
fn value_size(value: ValueRef<'_>) -> u64
    ensures size { result ≡ value_size (owned value.entry) }
    ensures same { (cell : stored.Cell) → IsReadAs (owned value.entry) cell
        → result ≡ cell_size cell }
{
    match value {
        ValueRef::Text(bytes) => match std::str::from_utf8(bytes) {
            Ok(text) => text.len() as u64,
            Err(_) => 8,
        },
        ValueRef::Blob(bytes) => bytes.len() as u64,
        _ => 8,
    }
}

// A size and that of the values of a row of a table, at most the greatest count.
pub(crate) fn with_row(size: u64, table: TableName, row: &sqlite::Row) -> Result<u64, Failure>
    ensures { IfOk result (λ sum. sum ≡ min (size + answer_size table row.now) (2 ^ 64 - 1)) }
{
    let mut sum = size;
    for at in 0..table.width() {
        let value = row.get_ref(at)?;
        sum = sum.saturating_add(value_size(value));
    }
    Ok(sum)
}
