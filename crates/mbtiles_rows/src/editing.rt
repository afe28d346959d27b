// One edit of a loaded set, of itself or of it opened for many edits.
use base_values::BlobVal;
use mb_loaded::Loaded;
use mb_store::MbtType;
use mb_tables::Cell;
use rows_shared::{Words, number};
use set_words::{cell, owned};
use std::alloc::Global;
use tile_ids::TileCoord;

// A zoom, a column, and a row counted from the top.
fn coord(words: &mut Words) -> Option<TileCoord> {
    let zoom = number(words)?;
    let column = number(words)?;
    TileCoord::new(zoom, column, number(words)?).ok()
}

// A cell that is a number or null.
fn number_cell(alloc: Global, words: &mut Words) -> Option<Cell> {
    match cell(alloc, words.next()?)? {
        Cell::Int(number) => Some(Cell::Int(number)),
        Cell::Null => Some(Cell::Null),
        _ => None,
    }
}

// A cell that is a text or null.
fn text_cell(alloc: Global, words: &mut Words) -> Option<Cell> {
    match cell(alloc, words.next()?)? {
        Cell::Text(text) => Some(Cell::Text(text)),
        Cell::Null => Some(Cell::Null),
        _ => None,
    }
}

// The three times of a tile of a cache.
struct Times {
    fetched: Cell,
    expires: Cell,
    etag: Cell,
}

fn three_times(alloc: Global, words: &mut Words) -> Option<Times> {
    Some(Times {
        fetched: number_cell(alloc, words)?,
        expires: number_cell(alloc, words)?,
        etag: text_cell(alloc, words)?,
    })
}

fn put_tile(set: Loaded, is_open: bool, coord: TileCoord, bytes: BlobVal) -> Option<Loaded> {
    let mut set = set;
    if is_open {
        let mut editing = set.edit();
        editing.set_tile(coord, bytes).ok()?;
        return editing.settle().ok();
    }
    set.set_tile(coord, bytes).ok()?;
    Some(set)
}

fn put_null(set: Loaded, is_open: bool, coord: TileCoord) -> Option<Loaded> {
    let mut set = set;
    if is_open {
        let mut editing = set.edit();
        editing.set_null(coord).ok()?;
        return editing.settle().ok();
    }
    set.set_null(coord).ok()?;
    Some(set)
}

fn clear(set: Loaded, is_open: bool, coord: TileCoord) -> Option<Loaded> {
    let mut set = set;
    if is_open {
        let mut editing = set.edit();
        editing.clear_tile(coord).ok()?;
        return editing.settle().ok();
    }
    set.clear_tile(coord);
    Some(set)
}

fn put_times(set: Loaded, is_open: bool, coord: TileCoord, times: Times) -> Option<Loaded> {
    let Times {
        fetched,
        expires,
        etag,
    } = times;
    let mut set = set;
    if set.mbt_type() != MbtType::Cache || set.tile(coord).is_none() {
        return None;
    }
    if is_open {
        let mut editing = set.edit();
        editing
            .set_cache_fields(coord, fetched, expires, etag)
            .ok()?;
        return editing.settle().ok();
    }
    set.set_cache_fields(coord, fetched, expires, etag);
    Some(set)
}

// Whether null can be put: not in a normalised set, and not above zoom 30.
fn takes_null(set: &Loaded, coord: TileCoord) -> bool {
    !set.mbt_type().is_normalized() && coord.z() <= 30
}

fn set_tile(alloc: Global, set: Loaded, is_open: bool, words: &mut Words) -> Option<Loaded> {
    let coord = coord(words)?;
    match cell(alloc, words.next()?)? {
        Cell::Blob(bytes) => put_tile(set, is_open, coord, bytes),
        _ => None,
    }
}

fn set_null(set: Loaded, is_open: bool, words: &mut Words) -> Option<Loaded> {
    let coord = coord(words)?;
    if takes_null(&set, coord) {
        put_null(set, is_open, coord)
    } else {
        None
    }
}

fn set_times(alloc: Global, set: Loaded, is_open: bool, words: &mut Words) -> Option<Loaded> {
    let coord = coord(words)?;
    put_times(set, is_open, coord, three_times(alloc, words)?)
}

fn put_name(alloc: Global, set: Loaded, words: &mut Words) -> Option<Loaded> {
    let mut set = set;
    let name = owned(alloc, words.next()?)?;
    match text_cell(alloc, words)? {
        Cell::Text(text) => set.set_metadata(name, Cell::Text(text)).ok()?,
        _ => set.set_metadata(name, Cell::Null).ok()?,
    }
    Some(set)
}

/// The set after the edit of the next words.
pub fn edit(alloc: Global, set: Loaded, is_open: bool, words: &mut Words) -> Option<Loaded> {
    match words.next()? {
        "set" => set_tile(alloc, set, is_open, words),
        "null" => set_null(set, is_open, words),
        "clear" => clear(set, is_open, coord(words)?),
        "times" => set_times(alloc, set, is_open, words),
        "put" => put_name(alloc, set, words),
        _ => None,
    }
}
