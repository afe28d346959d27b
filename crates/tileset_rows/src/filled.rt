// Stores that are filled with tiles made of numbers.
use base_values::BlobVal;
use mb_sqlite::SqliteStore;
use mb_store::{Changes, MemStore, TileStore};
use mb_tables::{Cell, MbtType, Row, RowKey, TableName};
use set_words::push;
use sqlite::Connection;
use std::alloc::Global;

/// A database in memory.
pub type Database = SqliteStore<sqlite::MemStore>;

/// The most tiles that there are places for.
pub const MOST_TILES: u32 = 6 << 20;

// How many rows a commit puts.
const BLOCK: u32 = 256;

// The place of a number: the tiles go round zooms 10 to 15, and in each of them along a row of 1,024.
fn place_of(number: u32) -> (u8, u32, u32) {
    let rest = number / 6;
    (10 + (number % 6) as u8, rest % 1024, rest / 1024 % 1024)
}

// The contents of a number, of so many words of 8 bytes. No two of at least one are equal: the
// first word is the number.
fn contents_of(alloc: Global, number: u32, words: u32) -> Option<Vec<u8>> {
    let mut bytes = Vec::with_capacity(alloc, words as usize * 8).ok()?;
    let mut word = u64::from(number);
    for _ in 0..words {
        bytes.extend_from_slice(&word.to_le_bytes()).ok()?;
        word = word
            .wrapping_mul(6_364_136_223_846_793_005)
            .wrapping_add(1_442_695_040_888_963_407);
    }
    Some(bytes)
}

// The row of a number.
fn row_of(alloc: Global, number: u32, words: u32) -> Option<Row> {
    let (zoom, column, row) = place_of(number);
    let mut cells = Vec::with_capacity(alloc, 4).ok()?;
    cells.push(Cell::Int(i64::from(zoom))).ok()?;
    cells.push(Cell::Int(i64::from(column))).ok()?;
    cells.push(Cell::Int(i64::from(row))).ok()?;
    let contents = contents_of(alloc, number, words)?;
    cells.push(Cell::Blob(BlobVal::new(contents))).ok()?;
    Some(Row::new(cells))
}

fn push_row(alloc: Global, store: &mut MemStore, number: u32, words: u32) -> Option<()> {
    let row = row_of(alloc, number, words)?;
    push(alloc, store, TableName::Tiles, row)?.ok()
}

/// Fills a store in memory. Behind the first row each goes to its place at once, so that nothing is held meanwhile
/// that the store doesn't keep.
pub fn fill_memory(alloc: Global, store: &mut MemStore, count: u32, words: u32) -> Option<()> {
    for number in 0..count {
        push_row(alloc, store, number, words)?;
        if number == 0 {
            store.count_rows(TableName::Tiles).ok()?;
        }
    }
    Some(())
}

// Adds the row of a number to changes.
fn put_row(alloc: Global, changes: &mut Changes, number: u32, words: u32) -> Option<()> {
    let (zoom, column, row) = place_of(number);
    let key = RowKey::Tile { zoom, column, row };
    let row = row_of(alloc, number, words)?;
    if row.cells().len() != TableName::Tiles.width() || !key.is_of(TableName::Tiles, row.cells()) {
        return None;
    }
    changes.put(TableName::Tiles, key, row).ok()
}

// Commits the rows of the numbers from one to another.
fn commit_rows(alloc: Global, store: &mut Database, from: u32, to: u32, words: u32) -> Option<()> {
    let mut changes = Changes::new(alloc);
    for number in from..to {
        put_row(alloc, &mut changes, number, words)?;
    }
    store.commit(alloc, &changes).ok()
}

/// A database of a flat set.
pub fn filled_database(alloc: Global, count: u32, words: u32) -> Option<Database> {
    let connection = Connection::open_in_memory(alloc).ok()?;
    let mut store = SqliteStore::adopt(alloc, connection, MbtType::Flat);
    for block in 0..count.div_ceil(BLOCK) {
        let from = block * BLOCK;
        let to = from.saturating_add(BLOCK).min(count);
        commit_rows(alloc, &mut store, from, to, words)?;
    }
    Some(store)
}
