// How much data rows hold.
ghost use Rattle.std.specs.Prelude.{◌≡◌, ◌+◌, ◌-◌, ◌^◌, min, sum_by};
ghost use Rattle.mb_store.specs.Sizes.{cell_size, row_size};
ghost use Rattle.mb_store.specs.TableRows.{rows_in};

use crate::Cell;
use crate::stored_row::StoredRow;
use crate::table_rows::TableRows;

// The bytes of a text or blob, and 8 for another cell.
fn size_of_cell(cell: &Cell) -> u64
    ensures { result ≡ cell_size cell.now }
{
    match cell {
        Cell::Text(text) => text.as_str().len() as u64,
        Cell::Blob(blob) => blob.as_bytes().len() as u64,
        _ => 8,
    }
}

/// A size and that of cells, at most the greatest count: the bytes of each text or blob, and 8 for each other cell.
pub fn size_with_cells(size: u64, cells: &[Cell]) -> u64
    ensures { result ≡ min (size + sum_by cell_size cells.now) (2 ^ 64 - 1) }
{
    let mut sum = size;
    for cell in cells {
        sum = sum.saturating_add(size_of_cell(cell));
    }
    sum
}

// A size and that of a row, at most the greatest count.
fn with_row(size: u64, row: &StoredRow) -> u64
    ensures { result ≡ min (size + row_size row.now.0) (2 ^ 64 - 1) }
{
    let (numbers, cells) = row.parts();
    let numbers_size = if numbers.is_some() { 24 } else { 0 };
    size_with_cells(size.saturating_add(numbers_size), cells)
}

// A size and that of rows, at most the greatest count.
pub(crate) fn with_rows(size: u64, rows: &TableRows) -> u64
    ensures { result ≡ min (size + sum_by row_size (rows_in rows.now)) (2 ^ 64 - 1) }
{
    let mut rest = rows.iter();
    let mut sum = size;
    while let Some(row) = rest.next() {
        sum = with_row(sum, row);
    }
    sum
}
