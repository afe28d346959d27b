// What tables hold, by its digest.
use mb_store::{TableName, TileStore};
use rows_shared::say;
use set_words::{TABLES, say_table};
use std::alloc::Global;
use std::fmt::Write;
use std::str;
use tile_hash::md5_text;

/// The MD5 digest of a text.
pub fn say_digest(out: &mut String, text: &str) -> Option<()> {
    let digits = md5_text(text.as_bytes());
    write!(out, "{} ", str::from_utf8(digits.as_slice()).ok()?).ok()
}

// How many rows a table has, and the digest of what is printed of them, where there are any.
fn say_table_digest<S: TileStore>(
    alloc: Global,
    out: &mut String,
    store: &mut S,
    table: TableName,
) -> Option<()> {
    let mut text = String::new(alloc);
    let count = say_table(alloc, &mut text, store, table)?;
    if count == 0 {
        return Some(());
    }
    write!(out, "{table} ").ok()?;
    say(out, &count)?;
    say_digest(out, text.as_str())
}

/// How many rows each table has, and their digest.
pub fn say_digests<S: TileStore>(alloc: Global, out: &mut String, store: &mut S) -> Option<()> {
    for table in &TABLES {
        say_table_digest(alloc, out, store, *table)?;
    }
    Some(())
}
