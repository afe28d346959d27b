// Edits of the set that the kept store holds, one at a time, and the commit of their changes.
use crate::loads::say_set;
use mb_load::load;
use mb_loaded::Loaded;
use mb_store::{Changes, MemStore};
use mb_tables::Cell;
use rows_shared::{Words, number, say};
use set_words::{cell, commit, owned};
use std::alloc::Global;
use tile_ids::TileCoord;

// A zoom, a column, and a row counted from the top.
fn coord(words: &mut Words) -> Option<TileCoord> {
    let zoom = number(words)?;
    let column = number(words)?;
    TileCoord::new(zoom, column, number(words)?).ok()
}

fn set_tile(alloc: Global, set: &mut Loaded, words: &mut Words) -> Option<()> {
    let coord = coord(words)?;
    match cell(alloc, words.next()?)? {
        Cell::Blob(bytes) => set.set_tile(coord, bytes).ok(),
        _ => None,
    }
}

fn set_metadata(alloc: Global, set: &mut Loaded, words: &mut Words) -> Option<()> {
    let name = owned(alloc, words.next()?)?;
    match cell(alloc, words.next()?)? {
        Cell::Text(text) => set.set_metadata(name, Cell::Text(text)).ok(),
        Cell::Null => set.set_metadata(name, Cell::Null).ok(),
        _ => None,
    }
}

fn clear_tile(set: &mut Loaded, words: &mut Words) -> Option<()> {
    set.clear_tile(coord(words)?);
    Some(())
}

fn clear_metadata(set: &mut Loaded, words: &mut Words) -> Option<()> {
    set.clear_metadata(words.next()?);
    Some(())
}

// One edit.
fn edit(alloc: Global, set: &mut Loaded, words: &mut Words) -> Option<()> {
    match words.next()? {
        "set" => set_tile(alloc, set, words),
        "clear" => clear_tile(set, words),
        "put" => set_metadata(alloc, set, words),
        "remove" => clear_metadata(set, words),
        "drop" => {
            set.drop_unreferenced();
            Some(())
        }
        _ => None,
    }
}

// The set after as many edits as the first word says.
fn edited(alloc: Global, store: &mut MemStore, words: &mut Words) -> Option<Loaded> {
    let mut set = load(alloc, store).ok()?;
    for _ in 0..number::<u8>(words)? {
        edit(alloc, &mut set, words)?;
    }
    Some(set)
}

// The set, and the changes that it makes.
fn changes_said(alloc: Global, out: &mut String, set: Loaded) -> Option<Changes> {
    say_set(out, &set)?;
    set.changes(alloc).ok()
}

// The set after its edits, how many changes they make, and the commit.
pub fn answer(
    alloc: Global,
    out: &mut String,
    store: &mut MemStore,
    words: &mut Words,
) -> Option<()> {
    let set = edited(alloc, store, words)?;
    let changes = changes_said(alloc, out, set)?;
    say(out, &changes.len())?;
    commit(alloc, out, store, &changes)
}
