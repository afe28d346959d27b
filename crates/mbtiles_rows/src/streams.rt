// The tiles of a set in the order of its rows: all of them, or how many there are and the digest
// of what would be printed.
use crate::printed::say_digest;
use base_values::BlobVal;
use mb_access::{Coords, Mbtiles, Tiles};
use mb_store::{MbtResult, TileStore};
use rows_shared::{Words, said, say, say_bytes};
use std::alloc::Global;
use std::fmt::Write;
use tile_ids::TileCoord;

fn say_coord(out: &mut String, coord: TileCoord) -> Option<()> {
    let (zoom, column, row) = (coord.z(), coord.x(), coord.y());
    write!(out, "{zoom}/{column}/{row} ").ok()
}

fn say_contents(alloc: Global, out: &mut String, contents: Option<BlobVal>) -> Option<()> {
    match contents {
        Some(bytes) => say_bytes(alloc, out, bytes.as_bytes()),
        None => write!(out, "n ").ok(),
    }
}

// Appends a coordinate to a text, and answers 1; or an error to what is printed.
fn coord(out: &mut String, text: &mut String, item: MbtResult<TileCoord>) -> Option<u64> {
    match item {
        Ok(coord) => {
            say_coord(text, coord)?;
            Some(1)
        }
        Err(error) => {
            said(out, error)?;
            Some(0)
        }
    }
}

// The same of a tile, its coordinate and its contents.
fn tile(
    alloc: Global,
    out: &mut String,
    text: &mut String,
    item: MbtResult<(TileCoord, Option<BlobVal>)>,
) -> Option<u64> {
    match item {
        Ok((coord, contents)) => {
            say_coord(text, coord)?;
            say_contents(alloc, text, contents)?;
            Some(1)
        }
        Err(error) => {
            said(out, error)?;
            Some(0)
        }
    }
}

// All coordinates as a text, and how many there are. An error is printed.
fn coords_in<S: TileStore>(
    out: &mut String,
    text: &mut String,
    coords: Coords<'_, S>,
) -> Option<u64> {
    let mut count: u64 = 0;
    for item in coords {
        count = count.saturating_add(coord(out, text, item)?);
    }
    Some(count)
}

fn tiles_in<S: TileStore>(
    alloc: Global,
    out: &mut String,
    text: &mut String,
    tiles: Tiles<'_, S>,
) -> Option<u64> {
    let mut count: u64 = 0;
    for item in tiles {
        count = count.saturating_add(tile(alloc, out, text, item)?);
    }
    Some(count)
}

// All coordinates as a text, and how many there are. None where there is no stream, with the error printed.
fn coords<S: TileStore>(
    alloc: Global,
    out: &mut String,
    text: &mut String,
    set: &Mbtiles,
    store: &mut S,
) -> Option<Option<u64>> {
    match set.stream_coords(alloc, store) {
        Ok(coords) => Some(Some(coords_in(out, text, coords)?)),
        Err(error) => {
            said(out, error)?;
            Some(None)
        }
    }
}

fn tiles<S: TileStore>(
    alloc: Global,
    out: &mut String,
    text: &mut String,
    set: &Mbtiles,
    store: &mut S,
) -> Option<Option<u64>> {
    match set.stream_tiles(alloc, store) {
        Ok(tiles) => Some(Some(tiles_in(alloc, out, text, tiles)?)),
        Err(error) => {
            said(out, error)?;
            Some(None)
        }
    }
}

// The text and how it ends, or how many there are and the digest of the text. Nothing where there is no stream.
fn say_stream(out: &mut String, text: &str, count: Option<u64>, is_whole: bool) -> Option<()> {
    match count {
        Some(_) if is_whole => write!(out, "{text}end ").ok(),
        Some(count) => {
            say(out, &count)?;
            say_digest(out, text)
        }
        None => Some(()),
    }
}

pub fn answer<S: TileStore>(
    alloc: Global,
    out: &mut String,
    store: &mut S,
    words: &mut Words,
) -> Option<()> {
    let set = Mbtiles::new(alloc, "").ok()?;
    let mut text = String::new(alloc);
    let word = words.next()?;
    let count = match word {
        "coords" | "coords_digest" => coords(alloc, out, &mut text, &set, store)?,
        "tiles" | "tiles_digest" => tiles(alloc, out, &mut text, &set, store)?,
        _ => return None,
    };
    say_stream(
        out,
        text.as_str(),
        count,
        matches!(word, "coords" | "tiles"),
    )
}
