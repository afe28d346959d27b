// A set that is read by the pages of a database in memory, after the statements of a word.
use mb_file::{FileError, FileSet};
use mb_store::TileStore;
use mb_tables::{Cell, Row, RowKey, TableName};
use rows_shared::Words;
use set_words::{say_all, spaced};
use sqlite::Connection;
use sqlite_disk::{Files, Memory};
use sqlite_pager::Options;
use std::alloc::Global;
use std::fmt::Write;

// The file and the log that statements make.
fn files_of(alloc: Global, words: &mut Words) -> Option<Files<Memory>> {
    let files = Files {
        log: Memory::new(alloc),
        db: Memory::new(alloc),
    };
    let mut connection = Connection::open_files(alloc, files, Options::new(1)).ok()?;
    let text = spaced(alloc, words.next()?)?;
    connection.execute_batch(text.as_str()).ok()?;
    connection.close_files().ok()
}

/// What is said of a set whose rows can't be read.
pub const FAULT: &str = "fault ";

// The key of a row of tiles.
fn key_of(row: &Row) -> Option<RowKey> {
    match row.cells() {
        [Cell::Int(zoom), Cell::Int(column), Cell::Int(row), ..] => Some(RowKey::Tile {
            zoom: u8::try_from(*zoom).ok()?,
            column: u32::try_from(*column).ok()?,
            row: u32::try_from(*row).ok()?,
        }),
        _ => None,
    }
}

// How many rows of tiles are found by their keys, the last one first.
fn found(alloc: Global, set: &mut FileSet<Memory>, table: TableName) -> Option<u64> {
    let rows = set.rows(alloc, table, 0, u64::MAX).ok()?;
    let mut count: u64 = 0;
    for row in rows.iter().rev() {
        let key = key_of(row)?;
        let other = set.find(alloc, table, &key).ok()??;
        if other.cells() == row.cells() {
            count = count.saturating_add(1);
        }
    }
    Some(count)
}

/// Appends the rows of a set, how many are found, and the counts of those that are left out; a word
/// at a fault.
pub fn say_set(alloc: Global, out: &mut String, set: FileSet<Memory>) -> Option<()> {
    let mut set = set;
    let table = set.layout().tile_table();
    let Some(count) = found(alloc, &mut set, table) else {
        return write!(out, "{FAULT}").ok();
    };
    say_all(alloc, out, &mut set)?;
    let left = set.left_out();
    let tiles = (left.without_number, left.too_deep, left.outside_grid);
    let names = (left.without_text, left.repeated_names);
    write!(
        out,
        "found {count} left {} {} {} {} {} ",
        tiles.0, tiles.1, tiles.2, names.0, names.1
    )
    .ok()
}

// The word of a refusal.
fn word_of(error: FileError) -> &'static str {
    match error {
        FileError::NotASet => "NotASet",
        FileError::View => "View",
        FileError::Table { .. } => "Table",
        FileError::Column { .. } => "Column",
        FileError::Damaged => "Damaged",
        _ => "Other",
    }
}

/// Appends what a set that was opened is read as, or the word of its refusal.
pub fn say_opened(
    alloc: Global,
    out: &mut String,
    opened: Result<FileSet<Memory>, FileError>,
) -> Option<()> {
    match opened {
        Ok(set) => say_set(alloc, out, set),
        Err(error) => {
            let word = word_of(error);
            write!(out, "{word} ").ok()
        }
    }
}

pub fn answer(alloc: Global, out: &mut String, words: &mut Words) -> Option<()> {
    let files = files_of(alloc, words)?;
    say_opened(alloc, out, FileSet::open(alloc, files, 8))
}
