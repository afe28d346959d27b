// Sets that are made of nothing, or loaded, then edited, printed and committed to the kept store.
use crate::editing::edit;
use mb_load::load;
use mb_loaded::Loaded;
use mb_store::{MbtType, MemStore, NormalizedSchema};
use mb_tables::Cell;
use rows_shared::{Words, number, say};
use set_words::{commit, layout, say_cell};
use std::alloc::Global;
use std::fmt::Write;
use tile_hash::HashAlgorithm;
use tile_ids::TileCoord;

// A tile: its coordinate, its contents, its id, and in a cache its times.
fn say_tile(
    alloc: Global,
    out: &mut String,
    set: &Loaded,
    coord: TileCoord,
    contents: &Cell,
) -> Option<()> {
    let null = Cell::Null;
    let (zoom, column, row) = (coord.z(), coord.x(), coord.y());
    write!(out, "{zoom}/{column}/{row} ").ok()?;
    say_cell(alloc, out, contents)?;
    write!(out, " ").ok()?;
    say_cell(alloc, out, set.id_of(coord).unwrap_or(&null))?;
    write!(out, " ").ok()?;
    say(out, &set.cache_fields(coord))
}

fn say_tiles(alloc: Global, out: &mut String, set: &Loaded) -> Option<()> {
    for index in 0..set.tile_count() {
        let (coord, contents) = set.tile_at(index);
        say_tile(alloc, out, set, coord, contents)?;
    }
    Some(())
}

fn say_names(alloc: Global, out: &mut String, set: &Loaded) -> Option<()> {
    for index in 0..set.metadata_count() {
        let (name, value) = set.metadata_at(index);
        say(out, &name)?;
        say_cell(alloc, out, value)?;
        write!(out, " ").ok()?;
    }
    Some(())
}

fn say_set(alloc: Global, out: &mut String, set: &Loaded) -> Option<()> {
    say(out, &set.mbt_type())?;
    say(out, &set.algorithm())?;
    say_tiles(alloc, out, set)?;
    say_names(alloc, out, set)
}

// Prints a set and the number of its changes, and commits these.
fn say_and_commit(
    alloc: Global,
    out: &mut String,
    store: &mut MemStore,
    set: &Loaded,
) -> Option<()> {
    say_set(alloc, out, set)?;
    let changes = set.changes(alloc).ok()?;
    say(out, &changes.len())?;
    commit(alloc, out, store, &changes)
}

// A set of nothing, where a layout has no numbers as ids.
fn empty(alloc: Global, layout: MbtType, algorithm: HashAlgorithm) -> Option<Loaded> {
    match layout {
        MbtType::Normalized {
            schema: NormalizedSchema::DedupId,
            ..
        } => None,
        _ => Some(Loaded::empty(alloc, layout, algorithm)),
    }
}

fn empty_of(alloc: Global, words: &mut Words) -> Option<Loaded> {
    let layout = layout(words)?;
    empty(alloc, layout, HashAlgorithm::parse(words.next()?)?)
}

// A set after as many edits as the next word says, each of the set itself, or of it opened for many edits.
fn edited(alloc: Global, set: Loaded, is_open: bool, words: &mut Words) -> Option<Loaded> {
    let mut set = set;
    for _ in 0..number::<u32>(words)? {
        set = edit(alloc, set, is_open, words)?;
    }
    Some(set)
}

// The set that is edited, by the first word.
fn begun(alloc: Global, store: &mut MemStore, word: &str, words: &mut Words) -> Option<Loaded> {
    match word {
        "empty" => empty_of(alloc, words),
        "edit" | "editing" => load(alloc, store).ok(),
        _ => None,
    }
}

pub fn answer(
    alloc: Global,
    out: &mut String,
    store: &mut MemStore,
    words: &mut Words,
) -> Option<()> {
    let word = words.next()?;
    let set = begun(alloc, store, word, words)?;
    let set = edited(alloc, set, word == "editing", words)?;
    say_and_commit(alloc, out, store, &set)
}
