// The kinds of the cells beside places and contents.
ghost use Rattle.std.specs.Prelude.{◌≡◌, slice_get, unwrap_or};
ghost use Rattle.mb_tables.specs.Common.{list_all};
ghost use Rattle.mb_tables.specs.CellKinds.{has_name_kinds, has_tile_kinds, is_id, is_number, is_text};
ghost use Rattle.mb_tables.specs.Tiles.{cell_at};
ghost use Rattle.mb_tables.specs.declared.cell.Cell.TheVariants.{Null};

use crate::{Cell, MbtType, NormalizedSchema, Row};

/// Whether a cell is a text or null.
pub fn is_text(cell: &Cell) -> bool
    ensures { result ≡ is_text cell.now }
{
    matches!(cell, Cell::Text(_) | Cell::Null)
}

// Whether a cell is a whole number or null.
fn is_number(cell: &Cell) -> bool
    ensures { result ≡ is_number cell.now }
{
    matches!(cell, Cell::Int(_) | Cell::Null)
}

/// Whether an id of contents is of its layout's kind, or null.
pub fn is_id(layout: MbtType, id: &Cell) -> bool
    ensures { result ≡ is_id layout id.now }
{
    match layout {
        MbtType::Normalized {
            schema: NormalizedSchema::Hash,
            ..
        } => is_text(id),
        MbtType::Normalized {
            schema: NormalizedSchema::DedupId,
            ..
        } => is_number(id),
        _ => true,
    }
}

// The cell at an index, and the given null past the end.
fn cell_in<'a>(cells: &'a [Cell], index: usize, null: &'a Cell) -> &'a Cell
    requires { null.now ≡ Null }
    ensures { result.now ≡ unwrap_or (slice_get cells.now index) Null }
{
    match cells.get(index) {
        Some(cell) => cell,
        None => null,
    }
}

/// The cell of a row at an index, and the given null past its end.
pub fn cell_at<'a>(row: &'a Row, index: usize, null: &'a Cell) -> &'a Cell
    requires { null.now ≡ Null }
    ensures { result.now ≡ cell_at index row.now }
{
    cell_in(row.cells(), index, null)
}

// Whether a cell of a row is a text or null.
fn is_text_at(row: &Row, index: usize) -> bool
    ensures { result ≡ is_text (cell_at index row.now) }
{
    let null = Cell::Null;
    is_text(cell_at(row, index, &null))
}

// Whether a cell of a row is a whole number or null.
fn is_number_at(row: &Row, index: usize) -> bool
    ensures { result ≡ is_number (cell_at index row.now) }
{
    let null = Cell::Null;
    is_number(cell_at(row, index, &null))
}

// Whether the cells of a tile row beside its place and its contents are of their kinds.
fn has_tile_kinds(layout: MbtType, row: &Row) -> bool
    ensures { result ≡ has_tile_kinds layout row.now }
{
    match layout {
        MbtType::Flat => true,
        MbtType::FlatWithHash => is_text_at(row, 4),
        MbtType::Normalized {
            schema: NormalizedSchema::Hash,
            ..
        } => is_text_at(row, 3),
        MbtType::Normalized {
            schema: NormalizedSchema::DedupId,
            ..
        } => is_number_at(row, 3),
        MbtType::Cache => is_number_at(row, 3) && is_number_at(row, 4) && is_text_at(row, 5),
    }
}

/// Whether all tile rows have cells of their kinds.
pub fn have_tile_kinds(layout: MbtType, rows: &[Row]) -> bool
    ensures { result ≡ list_all (has_tile_kinds layout) rows.now }
{
    rows.iter().all(|row| has_tile_kinds(layout, row))
}

// Whether a row of metadata has a text or null for its name and its value.
fn has_name_kinds(row: &Row) -> bool
    ensures { result ≡ has_name_kinds row.now }
{
    is_text_at(row, 0) && is_text_at(row, 1)
}

/// Whether all rows of metadata have cells of their kinds.
pub fn have_name_kinds(rows: &[Row]) -> bool
    ensures { result ≡ list_all has_name_kinds rows.now }
{
    rows.iter().all(|row| has_name_kinds(row))
}
