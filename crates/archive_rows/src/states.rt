// Calls of the state of a reader, beside its backend.
ghost use Rattle.pm_reader.specs.Opening.{IsOpen};

use crate::reading::{id, say_contents, say_directory, sources};
use crate::sweep::say_tile;
use pm_format::Backend;
use pm_reader::ReaderState;
use rows_shared::{Words, number, said, say, say_bytes};
use std::alloc::Global;

fn walk<B: Backend>(
    out: &mut String,
    state: ReaderState,
    backend: &mut B,
    words: &mut Words,
) -> Option<()> {
    let mut walk = state.entries(number(words)?);
    for _ in 0..number::<u32>(words)? {
        said(out, walk.next_item(backend))?;
    }
    Some(())
}

// The directory at a place of the leaf part, twice.
fn parts_of_leaves<B: Backend>(
    out: &mut String,
    state: &ReaderState,
    backend: &mut B,
    words: &mut Words,
) -> Option<()> {
    let offset = number(words)?;
    let length = number(words)?;
    say_directory(out, state.read_directory(backend, offset, length))?;
    say_directory(out, state.read_directory(backend, offset, length))
}

// The contents at a place of the data part, twice.
fn parts_of_data<B: Backend>(
    alloc: Global,
    out: &mut String,
    state: &ReaderState,
    backend: &mut B,
    words: &mut Words,
) -> Option<()> {
    let offset = number(words)?;
    let length = number(words)?;
    say_contents(alloc, out, state.read_contents(backend, offset, length))?;
    say_contents(alloc, out, state.read_contents(backend, offset, length))
}

fn part<B: Backend>(
    alloc: Global,
    out: &mut String,
    state: &ReaderState,
    backend: &mut B,
    words: &mut Words,
) -> Option<()> {
    match words.next()? {
        "header" => say_bytes(alloc, out, state.get_header().write_bytes().as_slice()),
        "root" => say(out, &state.root().entries()),
        "directory" => parts_of_leaves(out, state, backend, words),
        "contents" => parts_of_data(alloc, out, state, backend, words),
        _ => None,
    }
}

fn answer_of<B: Backend>(
    alloc: Global,
    out: &mut String,
    state: ReaderState,
    backend: &mut B,
    words: &mut Words,
) -> Option<()>
    requires { IsOpen (B.told backend.old) state }
{
    match words.next()? {
        "tile" => say_tile(alloc, out, state.get_tile(backend, id(words)?)),
        "plain" => say_tile(alloc, out, state.get_tile_decompressed(backend, id(words)?)),
        "unversioned" => say_tile(alloc, out, state.get_tile_unversioned(backend, id(words)?)),
        "metadata" => said(out, state.get_metadata(backend)),
        "document" => said(out, state.parse_tilejson(backend, sources(alloc, words)?)),
        "part" => part(alloc, out, &state, backend, words),
        "walk" => walk(out, state, backend, words),
        "open" => out.push_str("Ok ").ok(),
        _ => None,
    }
}

pub fn answer<B: Backend>(
    alloc: Global,
    out: &mut String,
    backend: &mut B,
    words: &mut Words,
) -> Option<()> {
    match ReaderState::open(alloc, backend) {
        Ok(state) => answer_of(alloc, out, state, backend, words),
        Err(error) => said(out, error),
    }
}
