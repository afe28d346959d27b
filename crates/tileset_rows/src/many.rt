// Scripts of many rows.
use crate::fields::{Fields, bytes_of, words_of};
use crate::in_memory::{run_calm, said_ended};
use std::alloc::Global;
use std::fmt::Write;
use std::str;

// The rows of a column of a zoom, each tile with its column and its row as contents.
fn add_column(script: &mut String, zoom: u8, column: u32, rows: u32) -> Option<()> {
    for row in 0..rows {
        writeln!(
            script,
            "row tiles i{zoom} i{column} i{row} x{column:04x}{row:04x}"
        )
        .ok()?;
    }
    Some(())
}

fn add_rows(script: &mut String, fields: &mut Fields) -> Option<()> {
    let zoom = fields.next().parse::<u8>().ok()?;
    let columns = fields.next().parse::<u32>().ok()?;
    let rows = fields.next().parse::<u32>().ok()?;
    for column in 0..columns {
        add_column(script, zoom, column, rows)?;
    }
    Some(())
}

fn add_text(alloc: Global, script: &mut String, field: &str) -> Option<()> {
    let bytes = bytes_of(alloc, field)?;
    script.push_str(str::from_utf8(bytes.as_slice()).ok()?).ok()
}

fn script_of(alloc: Global, fields: &mut Fields) -> Option<String> {
    let mut script = String::new(alloc);
    add_text(alloc, &mut script, fields.next())?;
    add_rows(&mut script, fields)?;
    add_text(alloc, &mut script, fields.next())?;
    Some(script)
}

/// A case of words, the first lines of a script, a zoom, how many columns and rows of it have
/// tiles, and the last lines.
pub fn answer(alloc: Global, out: &mut String, fields: &mut Fields) -> Option<()> {
    let words = words_of(alloc, fields.next())?;
    let script = script_of(alloc, fields)?.into_bytes();
    said_ended(alloc, out, run_calm(alloc, &words, script))
}
