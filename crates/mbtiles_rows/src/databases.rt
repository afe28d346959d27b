// A store over a database in memory, which is kept: it gives its rows by their numbers, in another
// order than that of places.
use crate::{reads, streams};
use mb_sqlite::SqliteStore;
use mb_store::TileStore;
use rows_shared::Words;
use set_words::{layout, spaced};
use sqlite::{Connection, MemStore};
use std::alloc::Global;

/// The store, where there is one.
pub type Database = Option<SqliteStore<MemStore>>;

// A database of a layout, after the statements of a word.
fn made(alloc: Global, words: &mut Words) -> Option<SqliteStore<MemStore>> {
    let layout = layout(words)?;
    let mut connection = Connection::open_in_memory(alloc).ok()?;
    let text = spaced(alloc, words.next()?)?;
    connection.execute_batch(text.as_str()).ok()?;
    Some(SqliteStore::adopt(alloc, connection, layout))
}

// A call of the store.
fn call_of<S: TileStore>(
    alloc: Global,
    out: &mut String,
    store: &mut S,
    call: &str,
    words: &mut Words,
) -> Option<()> {
    match call {
        "read" => reads::answer(alloc, out, store, words),
        "stream" => streams::answer(alloc, out, store, words),
        _ => None,
    }
}

pub fn answer(
    alloc: Global,
    out: &mut String,
    database: &mut Database,
    words: &mut Words,
) -> Option<()> {
    match words.next()? {
        "new" => {
            *database = Some(made(alloc, words)?);
            Some(())
        }
        call => call_of(alloc, out, database.as_mut()?, call, words),
    }
}
