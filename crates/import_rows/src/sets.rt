// The store that is kept: how it is made, which of its calls fail, and what it holds.
use mb_store::{MemStore, TableName, TileStore};
use mb_tables::table_of;
use rows_shared::{Words, number, said};
use set_words::{TABLES, make, push_rows, table};
use std::alloc::Global;
use std::fmt::Write;

// The name of a table and its rows, where it has some.
fn say_table<S: TileStore>(
    alloc: Global,
    out: &mut String,
    store: &mut S,
    table: TableName,
) -> Option<()> {
    let count = store.count_rows(table).ok()?;
    if count == 0 {
        return Some(());
    }
    write!(out, "{table} ").ok()?;
    said(out, store.rows(alloc, table, 0, count).ok()?)
}

/// All rows of all tables.
pub fn say_all<S: TileStore>(alloc: Global, out: &mut String, store: &mut S) -> Option<()> {
    for table in &TABLES {
        say_table(alloc, out, store, *table)?;
    }
    Some(())
}

// The names of all tables and views.
fn say_names<S: TileStore>(alloc: Global, out: &mut String, store: &mut S) -> Option<()> {
    for described in store.describe(alloc).ok()?.iter() {
        write!(out, "{} ", described.name.as_str()).ok()?;
    }
    Some(())
}

// A store of some tables, as many as the first word says, without any view; and its rows.
fn with_tables(alloc: Global, store: &mut MemStore, words: &mut Words) -> Option<()> {
    let mut tables = Vec::new(alloc);
    for _ in 0..number::<u32>(words)? {
        tables.push(table_of(alloc, table(words)?).ok()?).ok()?;
    }
    *store = MemStore::new(alloc);
    store.create(alloc, tables.as_slice()).ok()?;
    push_rows(alloc, store, words)
}

/// Makes the store, or prints what it holds.
pub fn answer(
    alloc: Global,
    out: &mut String,
    store: &mut MemStore,
    words: &mut Words,
) -> Option<()> {
    match words.next()? {
        "all" => say_all(alloc, out, store),
        "names" => say_names(alloc, out, store),
        "tables" => with_tables(alloc, store, words),
        call => make(alloc, store, call, words),
    }
}
