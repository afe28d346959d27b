// Calls of the store that is kept.
use crate::changes::changes_of;
use mb_store::{MemStore, TileStore, is_empty_database};
use rows_shared::{Words, number, said};
use set_words::{fail, key, layout, push, row, table};
use std::alloc::Global;

fn pushed(alloc: Global, out: &mut String, store: &mut MemStore, words: &mut Words) -> Option<()> {
    let table = table(words)?;
    let row = row(alloc, words)?;
    said(out, push(alloc, store, table, row)?)
}

// All changes of a line at once. Asks for the descriptions first.
pub fn commit<S: TileStore>(
    alloc: Global,
    out: &mut String,
    store: &mut S,
    words: &mut Words,
) -> Option<()> {
    let tables = store.describe(alloc).ok()?;
    let changes = changes_of(alloc, tables.as_slice(), words)?;
    said(out, store.commit(alloc, &changes))
}

fn rows<S: TileStore>(
    alloc: Global,
    out: &mut String,
    store: &mut S,
    words: &mut Words,
) -> Option<()> {
    said(
        out,
        store.rows(alloc, table(words)?, number(words)?, number(words)?),
    )
}

fn find<S: TileStore>(
    alloc: Global,
    out: &mut String,
    store: &mut S,
    words: &mut Words,
) -> Option<()> {
    let table = table(words)?;
    let key = key(alloc, words)?;
    said(out, store.find(alloc, table, &key))
}

fn new(alloc: Global, store: &mut MemStore, words: &mut Words) -> Option<()> {
    *store = match words.next() {
        None => MemStore::new(alloc),
        Some("layout") => MemStore::with_layout(alloc, layout(words)?).ok()?,
        Some(_) => return None,
    };
    Some(())
}

// What a store tells.
pub fn told<S: TileStore>(
    alloc: Global,
    out: &mut String,
    store: &mut S,
    call: &str,
    words: &mut Words,
) -> Option<()> {
    match call {
        "rows" => rows(alloc, out, store, words),
        "find" => find(alloc, out, store, words),
        "count" => said(out, store.count_rows(table(words)?)),
        "live" => said(out, store.live_size()),
        "describe" => said(out, store.describe(alloc)),
        "empty" => said(out, is_empty_database(alloc, store)),
        _ => None,
    }
}

pub fn answer(
    alloc: Global,
    out: &mut String,
    store: &mut MemStore,
    words: &mut Words,
) -> Option<()> {
    match words.next()? {
        "new" => new(alloc, store, words),
        "push" => pushed(alloc, out, store, words),
        "commit" => commit(alloc, out, store, words),
        "fail" => fail(alloc, store, words),
        call => told(alloc, out, store, call, words),
    }
}
