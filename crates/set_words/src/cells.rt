// Tables by their names, rows by their cells, and keys.
use crate::texts::owned;
use base_values::{BlobVal, TextVal};
use mb_tables::{Cell, Row, RowKey, TableName};
use rows_shared::{Words, number};
use std::alloc::Global;
use std::str;

/// A table by its name.
pub fn table(words: &mut Words) -> Option<TableName> {
    match words.next()? {
        "tiles" => Some(TableName::Tiles),
        "tiles_with_hash" => Some(TableName::TilesWithHash),
        "map" => Some(TableName::Map),
        "images" => Some(TableName::Images),
        "tiles_shallow" => Some(TableName::TilesShallow),
        "tiles_data" => Some(TableName::TilesData),
        "tile_cache" => Some(TableName::TileCache),
        "metadata" => Some(TableName::Metadata),
        _ => None,
    }
}

// The text of the bytes of some hexadecimal digits.
fn spelled(alloc: Global, digits: &str) -> Option<TextVal> {
    let bytes = hex::decode(alloc, digits).ok()?;
    let text = str::from_utf8(bytes.as_slice()).ok()?;
    owned(alloc, text)
}

/// A cell: `n`, `o`, `i` and a number, `t` and a text, `u` and the hexadecimal digits of a text, or
/// `x` and hexadecimal digits.
pub fn cell(alloc: Global, word: &str) -> Option<Cell> {
    if let Some(digits) = word.strip_prefix('i') {
        return Some(Cell::Int(digits.parse::<i64>().ok()?));
    }
    if let Some(text) = word.strip_prefix('t') {
        return Some(Cell::Text(owned(alloc, text)?));
    }
    if let Some(digits) = word.strip_prefix('u') {
        return Some(Cell::Text(spelled(alloc, digits)?));
    }
    if let Some(digits) = word.strip_prefix('x') {
        return Some(Cell::Blob(BlobVal::new(hex::decode(alloc, digits).ok()?)));
    }
    match word {
        "n" => Some(Cell::Null),
        "o" => Some(Cell::Other),
        _ => None,
    }
}

/// The row of the next words, as many as the table has columns.
pub fn row_of(alloc: Global, table: TableName, words: &mut Words) -> Option<Row> {
    let mut cells = Vec::new(alloc);
    for _ in 0..table.width() {
        cells.push(cell(alloc, words.next()?)?).ok()?;
    }
    Some(Row::new(cells))
}

/// The row of the words that are left.
pub fn row(alloc: Global, words: &mut Words) -> Option<Row> {
    let mut cells = Vec::new(alloc);
    for word in words {
        cells.push(cell(alloc, word)?).ok()?;
    }
    Some(Row::new(cells))
}

/// A key: `place` and three numbers, `text` and a text, or `number` and a number.
pub fn key(alloc: Global, words: &mut Words) -> Option<RowKey> {
    match words.next()? {
        "place" => Some(RowKey::Tile {
            zoom: number(words)?,
            column: number(words)?,
            row: number(words)?,
        }),
        "text" => Some(RowKey::TextId(owned(alloc, words.next()?)?)),
        "number" => Some(RowKey::IntId(number(words)?)),
        _ => None,
    }
}
