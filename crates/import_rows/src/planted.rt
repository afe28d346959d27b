// Archives in which faults are planted, by edits of the bytes that are held, and what is said of each.
ghost use Rattle.pm_reader.specs.Tied.{IsTied};

use crate::archives::{backend_of, by_reader, by_view};
use crate::asked::Asked;
use crate::neighbours::{by_check, by_extraction, by_server, say_digest};
use crate::sets::say_all;
use mb_store::MemStore;
use mb_tables::MbtType;
use pm_format::{Backend, DirEntry, PmtResult};
use pm_reader::{ArchiveView, DirectoryCache, PmTilesReader};
use rows_shared::{Words, bytes, number, said, say};
use std::alloc::Global;
use std::fmt::Write;
use tile_import::import;

// One edit: where it is, how many bytes are lost there, and those that come.
fn edit(alloc: Global, held: &[u8], words: &mut Words) -> Option<Vec<u8>> {
    let at = number::<usize>(words)?;
    let behind = at.checked_add(number::<usize>(words)?)?;
    let piece = bytes(alloc, words)?;
    let mut edited = held.get(..at)?.to_vec(alloc).ok()?;
    edited.extend_from_slice(piece.as_slice()).ok()?;
    edited.extend_from_slice(held.get(behind..)?).ok()?;
    Some(edited)
}

// How many edits, and each of them on what those before it made.
fn edits(alloc: Global, held: &[u8], words: &mut Words) -> Option<Vec<u8>> {
    let mut edited = held.to_vec(alloc).ok()?;
    for _ in 0..number::<u32>(words)? {
        edited = edit(alloc, edited.as_slice(), words)?;
    }
    Some(edited)
}

// An entry by its id, offset, length and run, or why there are no more.
fn say_entry(out: &mut String, item: PmtResult<DirEntry>) -> Option<()> {
    match item {
        Ok(entry) => {
            let (id, offset) = (entry.tile_id(), entry.offset());
            write!(
                out,
                "{id}.{offset}.{}.{} ",
                entry.length(),
                entry.run_length()
            )
            .ok()
        }
        Err(error) => said(out, error),
    }
}

// The entries of tiles along the levels.
fn walk<B: Backend, C: DirectoryCache + Drop>(
    out: &mut String,
    reader: PmTilesReader<'_, B, C>,
    leaves: u64,
) -> Option<()>
    requires { IsTied B.told C.held C.idle reader }
{
    for item in reader.entries(leaves) {
        say_entry(out, item)?;
    }
    Some(())
}

// The metadata by a reader.
fn metadata<B: Backend, C: DirectoryCache + Drop>(
    out: &mut String,
    reader: PmTilesReader<'_, B, C>,
) -> Option<()>
    requires { IsTied B.told C.held C.idle reader }
{
    let mut reader = reader;
    match reader.get_metadata() {
        Ok(text) => say(out, &text.as_str()),
        Err(error) => said(out, error),
    }
}

// What a reader says: its entries, the metadata and the tiles, or why it isn't opened.
fn all_by_reader(alloc: Global, out: &mut String, held: &[u8], asked: &Asked) -> Option<()> {
    let mut backend = backend_of(alloc, held)?;
    match PmTilesReader::try_from_source(alloc, &mut backend) {
        Ok(reader) => walk(out, reader, asked.leaves)?,
        Err(error) => return said(out, error),
    }
    match PmTilesReader::try_from_source(alloc, &mut backend) {
        Ok(reader) => metadata(out, reader)?,
        Err(error) => return said(out, error),
    }
    for id in &asked.ids {
        by_reader(alloc, out, held, *id)?;
    }
    Some(())
}

fn said_text(out: &mut String, given: PmtResult<&str>) -> Option<()> {
    match given {
        Ok(text) => say(out, &text),
        Err(error) => said(out, error),
    }
}

// What a view says: the metadata and the tiles, or why it isn't opened.
fn all_by_view(alloc: Global, out: &mut String, held: &[u8], asked: &Asked) -> Option<()> {
    match ArchiveView::open(held) {
        Ok(view) => said_text(out, view.metadata())?,
        Err(error) => return said(out, error),
    }
    for id in &asked.ids {
        by_view(alloc, out, held, *id)?;
    }
    Some(())
}

// What an import into an empty flat set says, and the digest of all rows of the set, where it has some.
fn by_import(alloc: Global, out: &mut String, held: &[u8], max_tiles: u64) -> Option<()> {
    let mut store = MemStore::with_layout(alloc, MbtType::Flat).ok()?;
    let mut backend = backend_of(alloc, held)?;
    said(out, import(alloc, &mut backend, &mut store, max_tiles))?;
    let mut rows = String::new(alloc);
    say_all(alloc, &mut rows, &mut store)?;
    if rows.is_empty() {
        return Some(());
    }
    say_digest(out, rows.as_str().as_bytes())
}

// All that is said of an archive, each with a semicolon behind it.
fn say_archive(alloc: Global, out: &mut String, held: &[u8], asked: &Asked) -> Option<()> {
    all_by_reader(alloc, out, held, asked)?;
    out.push_str("; ").ok()?;
    all_by_view(alloc, out, held, asked)?;
    out.push_str("; ").ok()?;
    by_import(alloc, out, held, asked.max_tiles)?;
    out.push_str("; ").ok()?;
    by_check(alloc, out, held)?;
    out.push_str("; ").ok()?;
    by_extraction(alloc, out, held, asked)?;
    out.push_str("; ").ok()?;
    by_server(alloc, out, held, asked)
}

/// What is said of the bytes that are held, once they are edited: `same` where it is what was said before.
pub fn answer(
    alloc: Global,
    out: &mut String,
    held: &[u8],
    asked: &Asked,
    last: &mut String,
    words: &mut Words,
) -> Option<()> {
    let edited = edits(alloc, held, words)?;
    let mut text = String::new(alloc);
    say_archive(alloc, &mut text, edited.as_slice(), asked)?;
    let shown = if text.as_str() == last.as_str() {
        "same "
    } else {
        text.as_str()
    };
    out.push_str(shown).ok()?;
    *last = text;
    Some(())
}
