// Sets that are made of archives with what these say of themselves, and archives that are made of such sets again.
use crate::archives::backend_of;
use crate::exports::say_archive;
use crate::imports::medium;
use base_values::TextVal;
use mb_store::{MemStore, TileStore};
use pm_format::{Backend, MemMedium};
use rows_shared::{Words, number, said, say};
use set_conversion::OptionsOfSet;
use set_import::{import_as_said, import_status, import_streamed, limit_of};
use std::alloc::Global;
use tile_bridge::convert;
use tile_import::ImportError;

// In one commit, or in several.
fn import_by<B: Backend, S: TileStore>(
    alloc: Global,
    streams: bool,
    backend: &mut B,
    store: &mut S,
    max_tiles: u64,
) -> Result<u64, ImportError> {
    if streams {
        return import_streamed(alloc, backend, store, max_tiles);
    }
    import_as_said(alloc, backend, store, max_tiles)
}

// From a backend of bytes, whose calls don't fail; and the status of the answer.
fn of_bytes<S: TileStore>(
    alloc: Global,
    out: &mut String,
    streams: bool,
    held: &[u8],
    store: &mut S,
    words: &mut Words,
) -> Option<()> {
    let max_tiles = number::<u64>(words)?;
    let mut backend = backend_of(alloc, held)?;
    let answer = import_by(alloc, streams, &mut backend, store, max_tiles);
    let status = import_status(&answer);
    said(out, answer)?;
    say(out, &status)
}

// From a medium one of whose reads fails; the status, and how often it was read.
fn of_medium<S: TileStore>(
    alloc: Global,
    out: &mut String,
    streams: bool,
    held: &[u8],
    store: &mut S,
    words: &mut Words,
) -> Option<()> {
    let max_tiles = number::<u64>(words)?;
    let mut backend = medium(alloc, held, number(words)?)?;
    let answer = import_by(alloc, streams, &mut backend, store, max_tiles);
    let status = import_status(&answer);
    said(out, answer)?;
    say(out, &status)?;
    say(out, &backend.calls)
}

// The archive of the store again, with the options that the set says.
fn back<S: TileStore>(alloc: Global, out: &mut String, store: &mut S) -> Option<()> {
    let mut medium = MemMedium::new(alloc);
    let mut patches: Vec<MemStore> = Vec::new(alloc);
    let options = OptionsOfSet::new(false, false);
    match convert(alloc, store, &mut patches, &[], &options, &mut medium) {
        Ok(_) => say_archive(alloc, out, &medium),
        Err(error) => said(out, error),
    }
}

// How many tiles the words of a command line allow.
fn limit(alloc: Global, out: &mut String, words: &mut Words) -> Option<()> {
    let mut list = Vec::new(alloc);
    for word in words {
        list.push(TextVal::new(String::from_str(alloc, word).ok()?))
            .ok()?;
    }
    said(out, limit_of(list.as_slice()))
}

// A set that is made in one commit, or in several.
fn made<S: TileStore>(
    alloc: Global,
    out: &mut String,
    streams: bool,
    held: &[u8],
    store: &mut S,
    words: &mut Words,
) -> Option<()> {
    match words.next()? {
        "bytes" => of_bytes(alloc, out, streams, held, store, words),
        "medium" => of_medium(alloc, out, streams, held, store, words),
        _ => None,
    }
}

/// A set that is made, its archive, or a limit.
pub fn answer<S: TileStore>(
    alloc: Global,
    out: &mut String,
    held: &[u8],
    store: &mut S,
    words: &mut Words,
) -> Option<()> {
    match words.next()? {
        "whole" => made(alloc, out, false, held, store, words),
        "streamed" => made(alloc, out, true, held, store, words),
        "back" => back(alloc, out, store),
        "limit" => limit(alloc, out, words),
        _ => None,
    }
}
