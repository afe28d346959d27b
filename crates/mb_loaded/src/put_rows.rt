// The rows that a set puts into its tables, and their keys.
ghost use Rattle.std.specs.Prelude.{◌≡◌, ◌++◌, ◌∷◌, [], false, IfOk, OnOk, option_copied, unwrap_or};
ghost use Rattle.mb_loaded.specs.Changing.{content_table, front, tile_key};
ghost use Rattle.mb_loaded.specs.Edits.{no_dates};
ghost use Rattle.mb_loaded.specs.Common.{is_gone, IsTile, place_at};
ghost use Rattle.mb_loaded.specs.PutRows.{cells_kept, digest_cell, id_key, row_of_content, row_of_name, row_of_tile, times_cells};

use base_values::OutOfMemory;
use mb_lists::{Content, Dates, StoredName, StoredTile};
use mb_store::{Cell, MbtType, Row, RowKey, TableName};
use std::alloc::Global;
use tile_hash::HashAlgorithm;
use tile_ids::{TileCoord, invert_y_value};

/// The table of the contents of a layout by id; one that a layout without ids has no row of.
pub(crate) fn contents_table(layout: MbtType) -> TableName
    ensures { result ≡ content_table layout }
{
    match layout {
        MbtType::Normalized { schema, .. } => schema.contents(),
        _ => TableName::Images,
    }
}

/// The key of a place.
pub(crate) fn place_key(coord: TileCoord) -> RowKey
    ensures { result ≡ tile_key (place_at coord) }
{
    let zoom = coord.z();
    RowKey::Tile {
        zoom,
        column: coord.x(),
        row: invert_y_value(zoom, coord.y()),
    }
}

/// The key of the row of contents with an id: a text or an integer. None for other cells, which are no ids.
pub fn id_key(alloc: Global, id: &Cell) -> Result<Option<RowKey>, OutOfMemory>
    ensures { IfOk result (λ key. key ≡ id_key id.now) }
{
    match id {
        Cell::Text(text) => Ok(Some(RowKey::TextId(text.try_clone(alloc)?))),
        Cell::Int(number) => Ok(Some(RowKey::IntId(*number))),
        _ => Ok(None),
    }
}

/// The digest of contents; null has none.
pub(crate) fn digest_cell(
    alloc: Global,
    algorithm: HashAlgorithm,
    contents: &Cell,
) -> Result<Cell, OutOfMemory>
    ensures { IfOk result (λ cell. cell ≡ digest_cell algorithm contents.now) }
{
    match contents {
        Cell::Blob(bytes) => Ok(Cell::Text(algorithm.hash(alloc, bytes.as_bytes())?)),
        _ => Ok(Cell::Null),
    }
}

// Adds a copy of a cell.
fn push_copy(alloc: Global, cells: &mut Vec<Cell>, cell: &Cell) -> Result<(), OutOfMemory>
    ensures { OnOk result (cells.new.items ≡ cells.old.items ++ cell.now ∷ []) }
{
    cells.push(cell.try_clone(alloc)?)?;
    Ok(())
}

/// The cells of a place, with room for the row of a layout.
pub(crate) fn place_cells(
    alloc: Global,
    layout: MbtType,
    coord: TileCoord,
) -> Result<Vec<Cell>, OutOfMemory>
    ensures { IfOk result (λ cells. cells.items ≡ front (place_at coord)) }
{
    let zoom = coord.z();
    let row = invert_y_value(zoom, coord.y());
    let mut cells = Vec::with_capacity(alloc, layout.tile_table().width())?;
    cells.push(Cell::Int(i64::from(zoom)))?;
    cells.push(Cell::Int(i64::from(coord.x())))?;
    cells.push(Cell::Int(i64::from(row)))?;
    Ok(cells)
}

/// Adds the times of a tile.
pub(crate) fn add_times(
    alloc: Global,
    cells: &mut Vec<Cell>,
    dates: Option<&Dates>,
) -> Result<(), OutOfMemory>
    ensures { OnOk result
        (cells.new.items ≡ cells.old.items ++ times_cells
        (unwrap_or (option_copied dates.entry) no_dates)) }
{
    match dates {
        Some(dates) => {
            push_copy(alloc, cells, &dates.fetched)?;
            push_copy(alloc, cells, &dates.expires)?;
            push_copy(alloc, cells, &dates.etag)
        }
        None => {
            cells.push(Cell::Null)?;
            cells.push(Cell::Null)?;
            cells.push(Cell::Null)?;
            Ok(())
        }
    }
}

// Adds the digest of contents.
fn push_digest(
    alloc: Global,
    algorithm: HashAlgorithm,
    cells: &mut Vec<Cell>,
    contents: &Cell,
) -> Result<(), OutOfMemory>
    ensures { OnOk result (cells.new.items ≡ cells.old.items ++ digest_cell algorithm contents.now ∷
        []) }
{
    cells.push(digest_cell(alloc, algorithm, contents)?)?;
    Ok(())
}

// Adds the cells after the place.
fn add_cells(
    alloc: Global,
    layout: MbtType,
    algorithm: HashAlgorithm,
    content: &Content,
    dates: Option<&Dates>,
    cells: &mut Vec<Cell>,
) -> Result<(), OutOfMemory>
    ensures { OnOk result (cells.new.items ≡ cells.old.items ++ cells_kept layout algorithm
        content.now (option_copied dates.entry)) }
{
    match layout {
        MbtType::Flat => push_copy(alloc, cells, &content.cell),
        MbtType::FlatWithHash => {
            push_copy(alloc, cells, &content.cell)?;
            push_digest(alloc, algorithm, cells, &content.cell)
        }
        MbtType::Normalized { .. } => push_copy(alloc, cells, &content.id),
        MbtType::Cache => {
            add_times(alloc, cells, dates)?;
            push_copy(alloc, cells, &content.cell)
        }
    }
}

/// The row of a tile, with the digest of its bytes where the layout has one.
pub(crate) fn tile_row(
    alloc: Global,
    layout: MbtType,
    algorithm: HashAlgorithm,
    contents: &[Content],
    tile: &StoredTile,
) -> Result<Row, OutOfMemory>
    requires whole { IsTile contents.now tile.now }
    requires live { is_gone tile.now ≡ false }
    ensures { IfOk result (λ row. row ≡ row_of_tile layout algorithm contents.now tile.now) }
{
    let mut cells = place_cells(alloc, layout, tile.coord)?;
    let content = &contents[tile.contents];
    let dates = tile.dates.get();
    add_cells(alloc, layout, algorithm, content, dates, &mut cells)?;
    Ok(Row::new(cells))
}

/// The row of contents under their id.
pub(crate) fn content_row(alloc: Global, content: &Content) -> Result<Row, OutOfMemory>
    ensures { IfOk result (λ row. row ≡ row_of_content content.now) }
{
    let mut cells = Vec::with_capacity(alloc, 2)?;
    push_copy(alloc, &mut cells, &content.id)?;
    push_copy(alloc, &mut cells, &content.cell)?;
    Ok(Row::new(cells))
}

/// The row of a name.
pub(crate) fn name_row(alloc: Global, entry: &StoredName) -> Result<Row, OutOfMemory>
    ensures { IfOk result (λ row. row ≡ row_of_name entry.now) }
{
    let mut cells = Vec::with_capacity(alloc, 2)?;
    cells.push(Cell::Text(entry.name.try_clone(alloc)?))?;
    push_copy(alloc, &mut cells, &entry.value)?;
    Ok(Row::new(cells))
}
