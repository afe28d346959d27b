// The cells of keys.
ghost use Rattle.std.specs.Prelude.{◌≡◌, IfOk};
ghost use Rattle.mb_store.specs.Common.{key_cells};
ghost use Rattle.mb_store.specs.StoredRow.{own_key};

use crate::{Cell, RowKey};
use base_values::OutOfMemory;
use std::alloc::Global;

// The cells of a key.
pub(crate) fn cells_of(alloc: Global, key: &RowKey) -> Result<Vec<Cell>, OutOfMemory>
    ensures { IfOk result (λ cells. cells.items ≡ key_cells key.now) }
{
    let mut cells = Vec::new(alloc);
    match key {
        RowKey::Tile { zoom, column, row } => {
            cells.push(Cell::Int(i64::from(*zoom)))?;
            cells.push(Cell::Int(i64::from(*column)))?;
            cells.push(Cell::Int(i64::from(*row)))?;
        }
        RowKey::TextId(text) => cells.push(Cell::Text(text.try_clone(alloc)?))?,
        RowKey::IntId(id) => cells.push(Cell::Int(*id))?,
    }
    Ok(cells)
}

// The cells of a row's key, whose number the row's width tells.
pub(crate) fn own_key(row: &[Cell]) -> &[Cell]
    ensures { result.now ≡ own_key row.now }
{
    let width = if row.len() > 2 { 3 } else { 1 };
    &row[..row.len().min(width)]
}

// Copies of cells.
pub(crate) fn clone_cells(alloc: Global, cells: &[Cell]) -> Result<Vec<Cell>, OutOfMemory>
    ensures { IfOk result (λ copies. copies.items ≡ cells.now) }
{
    let mut copies = Vec::with_capacity(alloc, cells.len())?;
    for cell in cells {
        copies.push(cell.try_clone(alloc)?)?;
    }
    Ok(copies)
}
