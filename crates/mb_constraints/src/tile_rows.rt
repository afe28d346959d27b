// Rows of tiles: the tests of their places and of the contents that they name.
ghost use Rattle.std.specs.Prelude.{◌≡◌, Bool, is_some};
ghost use Rattle.mb_constraints.specs.Common.{AreIndexed, cell_at, first_refused, rows_kept, Tests, tile_of, unless};
ghost use Rattle.mb_constraints.specs.TileRows.{bad_tile};
ghost use Rattle.mb_tables.specs.Tiles.{contents_of};
ghost use Rattle.mb_tables.specs.declared.kind.NormalizedSchema.{NormalizedSchema};

use mb_lists::{ContentList, cell_at, coord_of};
use mb_store::{Cell, MbtError, MbtResult, MbtType, Row};
use std::alloc::Global;

// Whether a cell is bytes or null.
fn are_contents(cell: &Cell) -> bool
    ensures { result ≡ is_some (contents_of cell.now) }
{
    matches!(cell, Cell::Blob(_) | Cell::Null)
}

// Whether a row with these contents is a tile.
#[tactic(auto, using(crate::proofs::TileRowLemmas::tile_parts))]
fn is_tile(row: &Row, contents: &Cell) -> bool
    ensures { result ≡ is_some (tile_of row.now contents.now) }
{
    coord_of(row).is_some() && are_contents(contents)
}

// The test of a row of a tile with these contents.
fn test_place(alloc: Global, row: &Row, contents: &Cell) -> MbtResult<()>
    ensures { Tests (unless (is_some (tile_of row.now contents.now))
        (MbtError.InvalidTileIndex (cell_at 0 row.now) (cell_at 1 row.now) (cell_at 2 row.now)))
        result }
{
    if is_tile(row, contents) {
        return Ok(());
    }
    let null = Cell::Null;
    let zoom_level = cell_at(row, 0, &null).try_clone(alloc)?;
    let tile_column = cell_at(row, 1, &null).try_clone(alloc)?;
    let tile_row = cell_at(row, 2, &null).try_clone(alloc)?;
    Err(MbtError::InvalidTileIndex {
        zoom_level,
        tile_column,
        tile_row,
    })
}

// The test of a row of a tile whose contents have an id, if it has one.
fn test_place_by_id(alloc: Global, contents: &ContentList, row: &Row) -> MbtResult<()>
    requires { AreIndexed contents.now.items.items contents.now.live contents.now.order.items }
    ensures { (view : Bool) (schema : NormalizedSchema)
        → Tests (bad_tile (MbtType.Normalized view schema) (rows_kept contents.now.items.items)
        row.now) result }
{
    let null = Cell::Null;
    let id = cell_at(row, 3, &null);
    if id.is_null() {
        return Ok(());
    }
    test_place(alloc, row, contents.cell_of(id, &null))
}

// The test of a row of a tile that has its own contents in a column.
fn test_place_at(alloc: Global, row: &Row, column: usize) -> MbtResult<()>
    ensures { Tests (unless (is_some (tile_of row.now (cell_at column row.now)))
        (MbtError.InvalidTileIndex (cell_at 0 row.now) (cell_at 1 row.now) (cell_at 2 row.now)))
        result }
{
    let null = Cell::Null;
    test_place(alloc, row, cell_at(row, column, &null))
}

// The test of a row of the tile table.
fn test_tile(alloc: Global, layout: MbtType, contents: &ContentList, row: &Row) -> MbtResult<()>
    requires { AreIndexed contents.now.items.items contents.now.live contents.now.order.items }
    ensures { Tests (bad_tile layout (rows_kept contents.now.items.items) row.now) result }
{
    match layout {
        MbtType::Flat => test_place_at(alloc, row, 3),
        MbtType::FlatWithHash => test_place_at(alloc, row, 3),
        MbtType::Cache => test_place_at(alloc, row, 6),
        MbtType::Normalized { .. } => test_place_by_id(alloc, contents, row),
    }
}

/// The test of all rows of the tile table: the first that is bad.
pub fn test_tiles(
    alloc: Global,
    layout: MbtType,
    contents: &ContentList,
    rows: &[Row],
) -> MbtResult<()>
    requires { AreIndexed contents.now.items.items contents.now.live contents.now.order.items }
    ensures { Tests (first_refused (bad_tile layout (rows_kept contents.now.items.items)) rows.now)
        result }
{
    for row in rows {
        test_tile(alloc, layout, contents, row)?;
    }
    Ok(())
}
