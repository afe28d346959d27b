// Imports of archives.
use crate::archives::backend_of;
use crate::sets::say_all;
use mb_store::{MemStore, TileStore};
use mb_tables::MbtType;
use pm_format::MemMedium;
use rows_shared::{Counted, Mode, Mute, Words, bytes, number, said, say};
use std::alloc::Global;
use tile_import::import;

// From a backend of bytes, whose calls don't fail.
fn of_bytes<S: TileStore>(
    alloc: Global,
    out: &mut String,
    held: &[u8],
    store: &mut S,
    words: &mut Words,
) -> Option<()> {
    let max_tiles = number::<u64>(words)?;
    let mut backend = backend_of(alloc, held)?;
    said(out, import(alloc, &mut backend, store, max_tiles))
}

/// A medium of bytes, of whose calls this one fails, or none where it is 0.
pub fn medium(alloc: Global, held: &[u8], call: u64) -> Option<Counted> {
    let mut medium = MemMedium::from_bytes(held.to_vec(alloc).ok()?);
    let mut calls = Vec::new(alloc);
    calls.push(call).ok()?;
    medium.fail_at(calls);
    Some(Counted::new(medium))
}

// From such a medium, and how often it was read.
fn counted<S: TileStore>(
    alloc: Global,
    out: &mut String,
    backend: &mut Counted,
    store: &mut S,
    max_tiles: u64,
) -> Option<()> {
    said(out, import(alloc, backend, store, max_tiles))?;
    say(out, &backend.calls)
}

fn of_medium<S: TileStore>(
    alloc: Global,
    out: &mut String,
    held: &[u8],
    store: &mut S,
    words: &mut Words,
) -> Option<()> {
    let max_tiles = number::<u64>(words)?;
    let mut backend = medium(alloc, held, number(words)?)?;
    counted(alloc, out, &mut backend, store, max_tiles)
}

// From a backend that tells nothing, one of whose reads is answered by two numbers of bytes.
fn of_mute<S: TileStore>(
    alloc: Global,
    out: &mut String,
    held: &[u8],
    store: &mut S,
    words: &mut Words,
) -> Option<()> {
    let max_tiles = number::<u64>(words)?;
    let read = number::<u64>(words)?;
    let got = number::<u64>(words)?;
    let mode = Mode::Numbers {
        read,
        asked: None,
        got,
    };
    let mut backend = Mute::holding(alloc, held, mode)?;
    said(out, import(alloc, &mut backend, store, max_tiles))
}

/// Into an empty flat set, from the bytes of the last word; how often they were read, and what the set holds.
pub fn fresh(alloc: Global, out: &mut String, words: &mut Words) -> Option<()> {
    let max_tiles = number::<u64>(words)?;
    let held = bytes(alloc, words)?;
    let mut store = MemStore::with_layout(alloc, MbtType::Flat).ok()?;
    let mut backend = medium(alloc, held.as_slice(), 0)?;
    counted(alloc, out, &mut backend, &mut store, max_tiles)?;
    say_all(alloc, out, &mut store)
}

/// Into a store.
pub fn answer<S: TileStore>(
    alloc: Global,
    out: &mut String,
    held: &[u8],
    store: &mut S,
    words: &mut Words,
) -> Option<()> {
    match words.next()? {
        "bytes" => of_bytes(alloc, out, held, store, words),
        "medium" => of_medium(alloc, out, held, store, words),
        "mute" => of_mute(alloc, out, held, store, words),
        _ => None,
    }
}
