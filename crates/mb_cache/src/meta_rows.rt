// The rows that a cache puts.
ghost use Rattle.std.specs.Prelude.{◌≡◌, IfOk, length, option_copied};
ghost use Rattle.mb_cache.specs.Setting.{meta_row, moment_cell};
ghost use Rattle.mb_cache.specs.Common.{cell_at, front, place_at, text_cell};

use crate::{CacheEntryMeta, UnixSeconds};
use base_values::{OutOfMemory, TextVal};
use mb_store::{Cell, Row};
use std::alloc::Global;
use tile_ids::{TileCoord, invert_y_value};

// A moment as a cell, null where there is none.
fn moment_cell(moment: Option<UnixSeconds>) -> Cell
    ensures { result ≡ moment_cell moment }
{
    match moment {
        Some(moment) => Cell::Int(moment.0),
        None => Cell::Null,
    }
}

/// The cell of an expiry.
pub(crate) fn expiry_cell(meta: CacheEntryMeta<'_>) -> Cell
    ensures { result ≡ moment_cell meta.entry.expires }
{
    moment_cell(meta.expires)
}

// A tag as a cell, null where there is none.
fn etag_cell(alloc: Global, etag: Option<&str>) -> Result<Cell, OutOfMemory>
    ensures { IfOk result (λ cell. cell ≡ text_cell (option_copied etag.entry)) }
{
    match etag {
        Some(text) => Ok(Cell::Text(TextVal::new(String::from_str(alloc, text)?))),
        None => Ok(Cell::Null),
    }
}

// The cells of a place, with room for a row.
fn place_cells(alloc: Global, coord: TileCoord) -> Result<Vec<Cell>, OutOfMemory>
    ensures { IfOk result (λ cells. cells.items ≡ front (place_at coord)) }
{
    let zoom = coord.z();
    let row = invert_y_value(zoom, coord.y());
    let mut cells = Vec::with_capacity(alloc, 7)?;
    cells.push(Cell::Int(i64::from(zoom)))?;
    cells.push(Cell::Int(i64::from(coord.x())))?;
    cells.push(Cell::Int(i64::from(row)))?;
    Ok(cells)
}

/// The row of a tile: its place, what is kept beside its contents, and these.
pub(crate) fn meta_row(
    alloc: Global,
    coord: TileCoord,
    meta: CacheEntryMeta<'_>,
    contents: Cell,
) -> Result<Row, OutOfMemory>
    ensures { IfOk result (λ row. row ≡ meta_row (place_at coord) meta.entry contents) }
{
    let etag = etag_cell(alloc, meta.etag)?;
    let mut cells = place_cells(alloc, coord)?;
    cells.push(moment_cell(meta.fetched))?;
    cells.push(moment_cell(meta.expires))?;
    cells.push(etag)?;
    cells.push(contents)?;
    Ok(Row::new(cells))
}

/// The contents of a row.
pub(crate) fn contents_of(row: Row) -> Cell
    requires { length row ≡ 7 }
    ensures { result ≡ cell_at 6 row }
{
    let mut cells = row.into_cells();
    let Some(contents) = cells.pop() else {
        unreachable!()
    };
    contents
}
