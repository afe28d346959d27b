// The tiles of rows, and their contents.
ghost use Rattle.std.specs.Prelude.{◌≡◌, ◌<◌, ℕ, IfOk, Some, [], filter_map, map, option_map};
ghost use Rattle.mb_lists.specs.FromRows.{AreIndexed, dates_from, own_content, own_tiles, stored_by_id, undated};
ghost use Rattle.mb_lists.specs.Common.{cell_at};

use crate::content_list::ContentList;
use crate::dates::Dates;
use crate::entries::{Content, Standing, StoredTile};
use crate::row_coord::coord_of;
use crate::tile_dates::TileDates;
use base_values::OutOfMemory;
use mb_tables::{Cell, Row, cell_at};
use std::alloc::Global;
use std::mem;
use tile_ids::TileCoord;

/// Contents, and tiles in the order of their rows with the indexes of their contents, in a cache with their times.
#[derive(Debug, Drop)]
pub struct RowTiles {
    pub contents: ContentList,
    pub tiles: Vec<StoredTile>,
}

// What is kept of a tile, if it has a coordinate.
fn stored(coord: Option<TileCoord>, contents: usize, dates: TileDates) -> Option<StoredTile>
    ensures { result ≡ option_map
        (λ c. record { coord = c; contents = contents; dates = dates; standing = Standing.Kept })
        coord }
{
    match coord {
        Some(coord) => Some(StoredTile {
            coord,
            contents,
            dates,
            standing: Standing::Kept,
        }),
        None => None,
    }
}

// Contents without an id.
fn without_id(cell: Cell) -> Content
    ensures { result ≡ record { id = Cell.Null; cell = cell; standing = Standing.Kept } }
{
    Content {
        id: Cell::Null,
        cell,
        standing: Standing::Kept,
    }
}

// Contents of which none has an id.
fn without_ids(alloc: Global, items: Vec<Content>) -> ContentList
    ensures items { result.items.items ≡ items.items }
    ensures order { result.order.items ≡ [] }
    ensures live { result.live ≡ 0 }
{
    let order = Vec::new(alloc);
    ContentList {
        items,
        order,
        live: 0,
    }
}

// Takes the cell at an index out of a row's cells, null past their end; those before it stay.
fn take_at(cells: &mut Vec<Cell>, index: usize) -> Cell
    ensures taken { result ≡ cell_at index cells.old.items }
    ensures left { (k : ℕ) → k < index → cell_at k cells.new.items ≡ cell_at k cells.old.items }
{
    if index < cells.len() {
        mem::replace(&mut cells[index], Cell::Null)
    } else {
        Cell::Null
    }
}

// The contents of a row that has its own in the column of this number.
fn own_content(row: Row, column: usize) -> Content
    ensures { result ≡ own_content column row }
{
    let mut cells = row.into_cells();
    let cell = take_at(&mut cells, column);
    without_id(cell)
}

// The times and the contents of a row of a cache.
fn cached(row: Row) -> (Dates, Content)
    ensures dates { Some result.0 ≡ dates_from row }
    ensures content { result.1 ≡ own_content 6 row }
{
    let mut cells = row.into_cells();
    let cell = take_at(&mut cells, 6);
    let etag = take_at(&mut cells, 5);
    let expires = take_at(&mut cells, 4);
    let fetched = take_at(&mut cells, 3);
    let dates = Dates {
        fetched,
        expires,
        etag,
    };
    (dates, without_id(cell))
}

/// The tiles of rows that have their own contents in their fourth cell.
pub fn flat_tiles(alloc: Global, rows: Vec<Row>) -> Result<RowTiles, OutOfMemory>
    ensures contents { IfOk result (λ r. r.contents.items.items ≡ map (own_content 3) rows.items) }
    ensures order { IfOk result (λ r. r.contents.order.items ≡ []) }
    ensures live { IfOk result (λ r. r.contents.live ≡ 0) }
    ensures tiles { IfOk result (λ r. r.tiles.items ≡ own_tiles undated 0 rows.items) }
{
    let mut contents = Vec::with_capacity(alloc, rows.len())?;
    let mut tiles = Vec::with_capacity(alloc, rows.len())?;
    for row in rows {
        if let Some(tile) = stored(coord_of(&row), contents.len(), TileDates::none()) {
            tiles.push(tile)?;
        }
        contents.push(own_content(row, 3))?;
    }
    let contents = without_ids(alloc, contents);
    Ok(RowTiles { contents, tiles })
}

/// The tiles of rows of a cache.
pub fn cache_tiles(alloc: Global, rows: Vec<Row>) -> Result<RowTiles, OutOfMemory>
    ensures contents { IfOk result (λ r. r.contents.items.items ≡ map (own_content 6) rows.items) }
    ensures order { IfOk result (λ r. r.contents.order.items ≡ []) }
    ensures live { IfOk result (λ r. r.contents.live ≡ 0) }
    ensures tiles { IfOk result (λ r. r.tiles.items ≡ own_tiles dates_from 0 rows.items) }
{
    let mut contents = Vec::with_capacity(alloc, rows.len())?;
    let mut tiles = Vec::with_capacity(alloc, rows.len())?;
    for row in rows {
        let coord = coord_of(&row);
        let (times, content) = cached(row);
        let dates = TileDates::new(alloc, times)?;
        if let Some(tile) = stored(coord, contents.len(), dates) {
            tiles.push(tile)?;
        }
        contents.push(content)?;
    }
    let contents = without_ids(alloc, contents);
    Ok(RowTiles { contents, tiles })
}

// The tile of a row whose contents have an id.
fn tile_by_id(contents: &ContentList, row: &Row) -> Option<StoredTile>
    requires { AreIndexed contents.now.items.items contents.now.live contents.now.order.items }
    ensures { result ≡ stored_by_id contents.now.items.items contents.now.order.items row.now }
{
    let null = Cell::Null;
    let id = cell_at(row, 3, &null);
    if id.is_null() {
        return None;
    }
    let index = contents.index_of(id)?;
    stored(coord_of(row), index, TileDates::none())
}

// The tiles of rows whose contents have ids.
fn tiles_by_id(
    alloc: Global,
    contents: &ContentList,
    rows: Vec<Row>,
) -> Result<Vec<StoredTile>, OutOfMemory>
    requires { AreIndexed contents.now.items.items contents.now.live contents.now.order.items }
    ensures { IfOk result
        (λ tiles. tiles.items ≡ filter_map
        (stored_by_id contents.now.items.items contents.now.order.items) rows.items) }
{
    let mut tiles = Vec::with_capacity(alloc, rows.len())?;
    for row in rows {
        if let Some(tile) = tile_by_id(contents, &row) {
            tiles.push(tile)?;
        }
    }
    Ok(tiles)
}

/// The tiles of rows whose contents have ids, and these contents.
pub fn named_tiles(
    alloc: Global,
    contents: ContentList,
    rows: Vec<Row>,
) -> Result<RowTiles, OutOfMemory>
    requires { AreIndexed contents.items.items contents.live contents.order.items }
    ensures contents { IfOk result (λ r. r.contents.items.items ≡ contents.items.items) }
    ensures order { IfOk result (λ r. r.contents.order.items ≡ contents.order.items) }
    ensures live { IfOk result (λ r. r.contents.live ≡ contents.live) }
    ensures tiles { IfOk result
        (λ r. r.tiles.items ≡ filter_map (stored_by_id contents.items.items contents.order.items)
        rows.items) }
{
    let tiles = tiles_by_id(alloc, &contents, rows)?;
    Ok(RowTiles { contents, tiles })
}
