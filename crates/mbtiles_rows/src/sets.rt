// The store that is kept: how it is made, which of its calls fail, and what it holds.
use crate::fills;
use crate::printed::say_digests;
use mb_store::{MemStore, TileStore};
use mb_tables::{IndexDesc, IndexList, MbtType, TableDesc, set_tables};
use rows_shared::Words;
use set_words::{layout, make, push_rows, say_all};
use std::alloc::Global;

// A description without its indexes, or with its indexes as such that aren't unique.
fn weakened(alloc: Global, table: TableDesc, are_kept: bool) -> Option<TableDesc> {
    let TableDesc {
        name,
        kind,
        columns,
        indexes,
    } = table;
    let mut left = Vec::new(alloc);
    if are_kept {
        for index in indexes.as_slice() {
            let IndexDesc { unique: _, columns } = index.try_clone(alloc).ok()?;
            left.push(IndexDesc {
                unique: false,
                columns,
            })
            .ok()?;
        }
    }
    Some(TableDesc {
        name,
        kind,
        columns,
        indexes: IndexList::new(left),
    })
}

// A store of a layout whose tables have no unique index.
fn without_unique(alloc: Global, layout: MbtType, are_kept: bool) -> Option<MemStore> {
    let mut tables = Vec::new(alloc);
    for table in set_tables(alloc, layout).ok()? {
        tables.push(weakened(alloc, table, are_kept)?).ok()?;
    }
    let mut store = MemStore::new(alloc);
    store.create(alloc, tables.as_slice()).ok()?;
    Some(store)
}

fn weak(alloc: Global, store: &mut MemStore, are_kept: bool, words: &mut Words) -> Option<()> {
    *store = without_unique(alloc, layout(words)?, are_kept)?;
    push_rows(alloc, store, words)
}

pub fn answer(
    alloc: Global,
    out: &mut String,
    store: &mut MemStore,
    words: &mut Words,
) -> Option<()> {
    match words.next()? {
        "bare" => weak(alloc, store, false, words),
        "plain" => weak(alloc, store, true, words),
        "fill" => fills::fill(alloc, store, words),
        "all" => say_all(alloc, out, store),
        "digest" => say_digests(alloc, out, store),
        call => make(alloc, store, call, words),
    }
}
