// The stores that are kept: how they are made.
use crate::Kept;
use crate::shelf::Shelf;
use mb_sqlite::SqliteStore;
use mb_store::MemStore;
use mb_tables::MbtType;
use rows_shared::Words;
use set_words::layout;
use sqlite::Connection;
use std::alloc::Global;

fn database(alloc: Global) -> Option<SqliteStore<sqlite::MemStore>> {
    let connection = Connection::open_in_memory(alloc).ok()?;
    Some(SqliteStore::adopt(alloc, connection, MbtType::Cache))
}

/// A new store: in memory with no tables (`memory`), in memory with those of a layout (`layout`), or in a database
/// (`database`). No cache is open then.
pub fn new(alloc: Global, kept: &mut Kept, words: &mut Words) -> Option<()> {
    kept.database = None;
    match words.next()? {
        "memory" => kept.memory = Shelf::of(MemStore::new(alloc)),
        "layout" => {
            kept.memory = Shelf::of(MemStore::with_layout(alloc, layout(words)?).ok()?);
        }
        "database" => kept.database = Some(Shelf::of(database(alloc)?)),
        _ => return None,
    }
    Some(())
}
