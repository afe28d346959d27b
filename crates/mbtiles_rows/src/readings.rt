// A set that is read of a database in memory, after the statements of a word. It is the kept store then.
use mb_reading::{LeftOut, PlaceValues, ReadError, read_set};
use mb_store::MemStore;
use mb_tables::TableName;
use rows_shared::Words;
use set_words::spaced;
use sqlite::Connection;
use std::alloc::Global;
use std::fmt::Write;

// The word of a refusal, and the table that it names.
fn words_of(error: ReadError) -> (&'static str, Option<TableName>) {
    match error {
        ReadError::Fault { table, .. } => ("Fault", Some(table)),
        ReadError::Cell { table, .. } => ("Cell", Some(table)),
        ReadError::Twice { table } => ("Twice", Some(table)),
        ReadError::NotASet => ("NotASet", None),
        ReadError::OutsideGrid => ("OutsideGrid", None),
        ReadError::OutOfMemory => ("OutOfMemory", None),
        _ => ("Other", None),
    }
}

fn say_refusal(out: &mut String, error: ReadError) -> Option<()> {
    let (word, table) = words_of(error);
    match table {
        Some(table) => write!(out, "{word} {table} ").ok(),
        None => write!(out, "{word} ").ok(),
    }
}

fn say_first(out: &mut String, first: Option<PlaceValues>) -> Option<()> {
    let Some(at) = first else {
        return write!(out, "none ").ok();
    };
    write!(out, "{},{},{} ", at.zoom_level, at.tile_column, at.tile_row).ok()
}

// What was left out: rows of tiles without a number, of zooms above 30 and outside the grid, rows of the metadata
// without a text and those of a name that stood before, and the first place. Nothing where nothing was.
fn say_left_out(out: &mut String, left: LeftOut) -> Option<()> {
    write!(out, "ok ").ok()?;
    let tiles = (left.without_number, left.too_deep, left.outside_grid);
    let names = (left.without_text, left.repeated_names);
    if tiles == (0, 0, 0) && names == (0, 0) {
        return Some(());
    }
    write!(
        out,
        "left {} {} {} {} {} ",
        tiles.0, tiles.1, tiles.2, names.0, names.1
    )
    .ok()?;
    say_first(out, left.first)
}

pub fn answer(
    alloc: Global,
    out: &mut String,
    store: &mut MemStore,
    words: &mut Words,
) -> Option<()> {
    let mut connection = Connection::open_in_memory(alloc).ok()?;
    let text = spaced(alloc, words.next()?)?;
    connection.execute_batch(text.as_str()).ok()?;
    match read_set(alloc, &mut connection) {
        Ok(read) => {
            *store = read.store;
            say_left_out(out, read.left_out)
        }
        Err(error) => say_refusal(out, error),
    }
}
