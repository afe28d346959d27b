// Batches of tiles that are put into a set.
use base_values::BlobVal;
use mb_insert::{CopyDuplicateMode, NewTile, insert_tiles};
use mb_store::TileStore;
use rows_shared::{Words, bytes, number, said, say, say_text};
use std::alloc::Global;

// What counts where a tile is there already.
fn mode(word: &str) -> Option<CopyDuplicateMode> {
    match word {
        "override" => Some(CopyDuplicateMode::Override),
        "ignore" => Some(CopyDuplicateMode::Ignore),
        "abort" => Some(CopyDuplicateMode::Abort),
        _ => None,
    }
}

// Three numbers and bytes.
fn new_tile(alloc: Global, words: &mut Words) -> Option<NewTile> {
    Some(NewTile {
        z: number(words)?,
        x: number(words)?,
        y: number(words)?,
        tile_data: BlobVal::new(bytes(alloc, words)?),
    })
}

// As many tiles as the first word says.
fn batch(alloc: Global, words: &mut Words) -> Option<Vec<NewTile>> {
    let mut batch = Vec::new(alloc);
    for _ in 0..number::<u32>(words)? {
        batch.push(new_tile(alloc, words)?).ok()?;
    }
    Some(batch)
}

// The texts of the modes.
fn say_modes(out: &mut String) -> Option<()> {
    say_text(out, &CopyDuplicateMode::Override)?;
    say_text(out, &CopyDuplicateMode::Ignore)?;
    say_text(out, &CopyDuplicateMode::Abort)?;
    say(out, &CopyDuplicateMode::Override)?;
    say(out, &CopyDuplicateMode::Ignore)?;
    say(out, &CopyDuplicateMode::Abort)
}

fn insert<S: TileStore>(
    alloc: Global,
    out: &mut String,
    store: &mut S,
    mode: CopyDuplicateMode,
    words: &mut Words,
) -> Option<()> {
    let batch = batch(alloc, words)?;
    said(out, insert_tiles(alloc, store, mode, batch.as_slice()))
}

pub fn answer<S: TileStore>(
    alloc: Global,
    out: &mut String,
    store: &mut S,
    words: &mut Words,
) -> Option<()> {
    match words.next()? {
        "words" => say_modes(out),
        word => insert(alloc, out, store, mode(word)?, words),
    }
}
