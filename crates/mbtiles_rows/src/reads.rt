// Reads of single tiles and of the zooms of a set.
use mb_access::{Mbtiles, compute_min_max_zoom};
use mb_store::TileStore;
use rows_shared::{Words, number, said};
use std::alloc::Global;

// The zoom, column and row of the next words.
fn place(words: &mut Words) -> Option<(u8, u32, u32)> {
    let zoom = number(words)?;
    let column = number(words)?;
    Some((zoom, column, number(words)?))
}

/// A read of the tile at the place of the next words.
pub fn tile<S: TileStore>(
    alloc: Global,
    out: &mut String,
    set: &Mbtiles,
    store: &mut S,
    call: &str,
    words: &mut Words,
) -> Option<()> {
    let (zoom, column, row) = place(words)?;
    match call {
        "tile" => said(out, set.get_tile(alloc, store, zoom, column, row)),
        "hash" => said(out, set.get_tile_and_hash(alloc, store, zoom, column, row)),
        "has" => said(out, set.contains(alloc, store, zoom, column, row)),
        _ => None,
    }
}

pub fn answer<S: TileStore>(
    alloc: Global,
    out: &mut String,
    store: &mut S,
    words: &mut Words,
) -> Option<()> {
    match words.next()? {
        "zooms" => said(out, compute_min_max_zoom(alloc, store)),
        call => {
            let set = Mbtiles::new(alloc, "").ok()?;
            tile(alloc, out, &set, store, call, words)
        }
    }
}
