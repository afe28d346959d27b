// A store over a database in memory, which is kept.
use crate::described::say_layout;
use crate::stores::{commit, told};
use mb_sqlite::SqliteStore;
use mb_store::TileStore;
use mb_tables::MbtType;
use rows_shared::{Words, said};
use set_words::{layout, spaced};
use sqlite::{Connection, MemStore};
use std::alloc::Global;

/// The store, where there is one.
pub type Database = Option<SqliteStore<MemStore>>;

// A new database under a layout.
fn new(alloc: Global, database: &mut Database, words: &mut Words) -> Option<()> {
    let layout = layout(words)?;
    let connection = Connection::open_in_memory(alloc).ok()?;
    *database = Some(SqliteStore::adopt(alloc, connection, layout));
    Some(())
}

// Runs statements of a text.
fn ran(alloc: Global, connection: &mut Connection<MemStore>, words: &mut Words) -> Option<bool> {
    let text = spaced(alloc, words.next()?)?;
    Some(connection.execute_batch(text.as_str()).is_ok())
}

// The connection of a store, on which statements run, and a new store of the layout over it.
fn statements(
    alloc: Global,
    store: SqliteStore<MemStore>,
    layout: MbtType,
    words: &mut Words,
) -> Option<(bool, SqliteStore<MemStore>)> {
    let mut connection = store.into_connection();
    let ran = ran(alloc, &mut connection, words)?;
    Some((ran, SqliteStore::adopt(alloc, connection, layout)))
}

fn run(alloc: Global, out: &mut String, database: &mut Database, words: &mut Words) -> Option<()> {
    let layout = layout(words)?;
    let (ran, store) = statements(alloc, database.take()?, layout, words)?;
    *database = Some(store);
    said(out, ran)
}

// The layout that is detected from the descriptions.
fn detected<S: TileStore>(alloc: Global, out: &mut String, store: &mut S) -> Option<()> {
    let tables = store.describe(alloc).ok()?;
    say_layout(out, tables.as_slice())
}

fn call_of<S: TileStore>(
    alloc: Global,
    out: &mut String,
    store: &mut S,
    call: &str,
    words: &mut Words,
) -> Option<()> {
    match call {
        "commit" => commit(alloc, out, store, words),
        "layout" => detected(alloc, out, store),
        call => told(alloc, out, store, call, words),
    }
}

pub fn answer(
    alloc: Global,
    out: &mut String,
    database: &mut Database,
    words: &mut Words,
) -> Option<()> {
    match words.next()? {
        "new" => new(alloc, database, words),
        "run" => run(alloc, out, database, words),
        call => call_of(alloc, out, database.as_mut()?, call, words),
    }
}
