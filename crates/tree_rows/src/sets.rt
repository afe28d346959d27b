// The store that is kept: how it is made, which of its calls fail, and what it holds.
use mb_store::{MemStore, TileStore};
use rows_shared::Words;
use set_words::{make, say_all};
use std::alloc::Global;
use std::fmt::Write;

// The names of all tables and views.
fn say_tables<S: TileStore>(alloc: Global, out: &mut String, store: &mut S) -> Option<()> {
    for table in &store.describe(alloc).ok()? {
        write!(out, "{} ", table.name.as_str()).ok()?;
    }
    Some(())
}

pub fn answer(
    alloc: Global,
    out: &mut String,
    store: &mut MemStore,
    words: &mut Words,
) -> Option<()> {
    match words.next()? {
        "all" => say_all(alloc, out, store),
        "tables" => say_tables(alloc, out, store),
        call => make(alloc, store, call, words),
    }
}
