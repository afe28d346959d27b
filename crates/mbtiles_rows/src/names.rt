// A set by the path of its file: its name, and its methods on the store.
use crate::reads::tile;
use mb_access::Mbtiles;
use mb_store::TileStore;
use rows_shared::{Words, said, say, say_text, text};
use std::alloc::Global;

// The path, the name in it, and the path once more as it is displayed.
fn say_named(out: &mut String, set: &Mbtiles) -> Option<()> {
    say(out, &set.filepath())?;
    say(out, &set.filename())?;
    say_text(out, set)
}

fn named(alloc: Global, out: &mut String, words: &mut Words) -> Option<()> {
    let path = text(alloc, words)?;
    let set = Mbtiles::new(alloc, path.as_str()).ok()?;
    say_named(out, &set)
}

// A method of a set of no particular path.
fn method<S: TileStore>(
    alloc: Global,
    out: &mut String,
    set: &Mbtiles,
    store: &mut S,
    call: &str,
    words: &mut Words,
) -> Option<()> {
    match call {
        "type" => said(out, set.detect_type(alloc, store)),
        "index" => said(out, set.missing_tile_index(alloc, store)),
        _ => tile(alloc, out, set, store, call, words),
    }
}

pub fn answer<S: TileStore>(
    alloc: Global,
    out: &mut String,
    store: &mut S,
    words: &mut Words,
) -> Option<()> {
    match words.next()? {
        "of" => named(alloc, out, words),
        call => {
            let set = Mbtiles::new(alloc, "set").ok()?;
            method(alloc, out, &set, store, call, words)
        }
    }
}
