// The rows that contents are moved into.
ghost use Rattle.std.specs.Prelude.{◌≡◌, ◌++◌, ◌∷◌, [], IfOk, OnOk, option_copied};
ghost use Rattle.mb_loaded.specs.Changing.{front};
ghost use Rattle.mb_loaded.specs.PutRows.{cells_kept, digest_cell, row_of_content};
ghost use Rattle.mb_loaded.specs.Common.{place_of};

use crate::put_rows::{add_times, digest_cell, place_cells};
use base_values::OutOfMemory;
use mb_lists::{Content, Dates, StoredTile};
use mb_store::{Cell, MbtType, Row};
use std::alloc::Global;
use tile_hash::HashAlgorithm;

// Adds bytes or null, and their digest.
fn add_digested(
    alloc: Global,
    algorithm: HashAlgorithm,
    cell: Cell,
    cells: &mut Vec<Cell>,
) -> Result<(), OutOfMemory>
    ensures { OnOk result
        (cells.new.items ≡ cells.old.items ++ (cell ∷ digest_cell algorithm cell ∷ [])) }
{
    let digest = digest_cell(alloc, algorithm, &cell)?;
    cells.push(cell)?;
    cells.push(digest)?;
    Ok(())
}

// Adds the cells after the place.
fn add_moved(
    alloc: Global,
    layout: MbtType,
    algorithm: HashAlgorithm,
    content: Content,
    dates: Option<&Dates>,
    cells: &mut Vec<Cell>,
) -> Result<(), OutOfMemory>
    ensures { OnOk result (cells.new.items
        ≡ cells.old.items ++ cells_kept layout algorithm content (option_copied dates.entry)) }
{
    let Content {
        id,
        cell,
        standing: _,
    } = content;
    match layout {
        MbtType::Flat => cells.push(cell)?,
        MbtType::FlatWithHash => add_digested(alloc, algorithm, cell, cells)?,
        MbtType::Normalized { .. } => cells.push(id)?,
        MbtType::Cache => {
            add_times(alloc, cells, dates)?;
            cells.push(cell)?;
        }
    }
    Ok(())
}

/// The row of a tile with these contents, with the digest of its bytes where the layout has one.
pub(crate) fn moved_row(
    alloc: Global,
    layout: MbtType,
    algorithm: HashAlgorithm,
    content: Content,
    tile: &StoredTile,
) -> Result<Row, OutOfMemory>
    ensures { IfOk result
        (λ row. row
        ≡ front (place_of tile.now) ++ cells_kept layout algorithm content tile.now.dates) }
{
    let mut cells = place_cells(alloc, layout, tile.coord)?;
    let dates = tile.dates.get();
    add_moved(alloc, layout, algorithm, content, dates, &mut cells)?;
    Ok(Row::new(cells))
}

/// The row of contents under their id.
pub(crate) fn moved_content_row(alloc: Global, content: Content) -> Result<Row, OutOfMemory>
    ensures { IfOk result (λ row. row ≡ row_of_content content) }
{
    let mut cells = Vec::with_capacity(alloc, 2)?;
    cells.push(content.id)?;
    cells.push(content.cell)?;
    Ok(Row::new(cells))
}
