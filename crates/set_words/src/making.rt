// How a store in memory is made, and which of its calls fail.
use crate::cells::{row_of, table};
use crate::layouts::layout;
use crate::pushes::push;
use mb_store::MemStore;
use rows_shared::{Words, number};
use std::alloc::Global;

/// Pushes as many rows as the first word says, each the name of its table and its cells.
pub fn push_rows(alloc: Global, store: &mut MemStore, words: &mut Words) -> Option<()> {
    for _ in 0..number::<u32>(words)? {
        let table = table(words)?;
        let row = row_of(alloc, table, words)?;
        push(alloc, store, table, row)?.ok()?;
    }
    Some(())
}

// A new store of a layout, and its rows.
fn new(alloc: Global, store: &mut MemStore, words: &mut Words) -> Option<()> {
    *store = MemStore::with_layout(alloc, layout(words)?).ok()?;
    push_rows(alloc, store, words)
}

fn none(alloc: Global, store: &mut MemStore) -> Option<()> {
    *store = MemStore::new(alloc);
    Some(())
}

/// The calls of these numbers fail, counted from 1 over all calls of the store.
pub fn fail(alloc: Global, store: &mut MemStore, words: &mut Words) -> Option<()> {
    let mut calls = Vec::new(alloc);
    for word in words {
        calls.push(word.parse::<u64>().ok()?).ok()?;
    }
    store.fail_at(calls);
    Some(())
}

/// A store by its word: `new` of a layout, with rows, `none` without tables, or `fail`, the same store whose
/// calls of some numbers fail.
pub fn make(alloc: Global, store: &mut MemStore, call: &str, words: &mut Words) -> Option<()> {
    match call {
        "new" => new(alloc, store, words),
        "none" => none(alloc, store),
        "fail" => fail(alloc, store, words),
        _ => None,
    }
}
