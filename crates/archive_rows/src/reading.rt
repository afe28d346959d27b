// Calls of a reader that borrows its backend: how it is made, its cache, and the call.
ghost use Rattle.std.specs.Prelude.{◌≡◌, ℕ, None};
ghost use Rattle.archive_rows.specs.Common.{IsTied};

use crate::sweep::{say_tile, sweep_tiles, tiles};
use base_values::TextVal;
use bytes::Bytes;
use pm_format::{Backend, BytesBackend, Directory, PmtResult};
use pm_reader::{DirectoryCache, HashMapCache, LruDirCache, NoCache, PmTilesReader, ReaderState};
use rows_shared::{Words, number, owned, said, say, say_bytes};
use std::alloc::Global;
use tile_ids::TileId;

pub fn id(words: &mut Words) -> Option<TileId> {
    TileId::new(number(words)?).ok()
}

// One source of tiles.
pub fn sources(alloc: Global, words: &mut Words) -> Option<Vec<TextVal>> {
    let mut sources = Vec::new(alloc);
    sources.push(owned(alloc, words)?).ok()?;
    Some(sources)
}

fn entries<B: Backend, C: DirectoryCache + Drop>(
    out: &mut String,
    reader: PmTilesReader<'_, B, C>,
    words: &mut Words,
) -> Option<()>
    requires { IsTied B.told C.held C.idle reader }
{
    for item in reader.entries(number(words)?) {
        said(out, item)?;
    }
    Some(())
}

// A directory that was read: its entries, or why it is refused.
pub fn say_directory(out: &mut String, given: PmtResult<Directory>) -> Option<()> {
    match given {
        Ok(directory) => say(out, &directory.entries()),
        Err(error) => said(out, error),
    }
}

// Contents that were read: their bytes, or why they are refused.
pub fn say_contents(alloc: Global, out: &mut String, given: PmtResult<Bytes>) -> Option<()> {
    match given {
        Ok(bytes) => say_bytes(alloc, out, bytes.as_slice()),
        Err(error) => said(out, error),
    }
}

fn part<B: Backend, C: DirectoryCache + Drop>(
    alloc: Global,
    out: &mut String,
    reader: &mut PmTilesReader<'_, B, C>,
    words: &mut Words,
) -> Option<()>
    requires { IsTied B.told C.held C.idle reader.old }
{
    match words.next()? {
        "header" => say_bytes(alloc, out, reader.get_header().write_bytes().as_slice()),
        "root" => say(out, &reader.root().entries()),
        "directory" => say_directory(out, reader.read_directory(number(words)?, number(words)?)),
        "contents" => {
            say_contents(
                alloc,
                out,
                reader.read_contents(number(words)?, number(words)?),
            )
        }
        _ => None,
    }
}

fn call_of<B: Backend, C: DirectoryCache + Drop>(
    alloc: Global,
    out: &mut String,
    reader: &mut PmTilesReader<'_, B, C>,
    call: &str,
    words: &mut Words,
) -> Option<()>
    requires { IsTied B.told C.held C.idle reader.old }
{
    match call {
        "tiles" => tiles(alloc, out, reader, words),
        "plain" => say_tile(alloc, out, reader.get_tile_decompressed(id(words)?)),
        "unversioned" => say_tile(alloc, out, reader.get_tile_unversioned(id(words)?)),
        "metadata" => said(out, reader.get_metadata()),
        "document" => said(out, reader.parse_tilejson(sources(alloc, words)?)),
        "part" => part(alloc, out, reader, words),
        "sweep" => sweep_tiles(alloc, out, reader, number(words)?, number(words)?),
        _ => None,
    }
}

fn answer_of<B: Backend, C: DirectoryCache + Drop>(
    alloc: Global,
    out: &mut String,
    reader: PmTilesReader<'_, B, C>,
    words: &mut Words,
) -> Option<()>
    requires { IsTied B.told C.held C.idle reader }
{
    let mut reader = reader;
    match words.next()? {
        "entries" => entries(out, reader, words),
        call => call_of(alloc, out, &mut reader, call, words),
    }
}

fn cached<B: Backend, C: DirectoryCache + Drop>(
    alloc: Global,
    out: &mut String,
    backend: &mut B,
    cache: C,
    words: &mut Words,
) -> Option<()>
    requires { (o : ℕ) → C.held cache o ≡ None }
{
    match PmTilesReader::try_from_cached_source(alloc, backend, cache) {
        Ok(reader) => answer_of(alloc, out, reader, words),
        Err(error) => said(out, error),
    }
}

fn uncached<B: Backend>(
    alloc: Global,
    out: &mut String,
    backend: &mut B,
    words: &mut Words,
) -> Option<()> {
    match PmTilesReader::try_from_source(alloc, backend) {
        Ok(reader) => answer_of(alloc, out, reader, words),
        Err(error) => said(out, error),
    }
}

fn over<B: Backend>(
    alloc: Global,
    out: &mut String,
    backend: &mut B,
    words: &mut Words,
) -> Option<()> {
    match ReaderState::open(alloc, backend) {
        Ok(state) => {
            let reader = PmTilesReader::over(backend, HashMapCache::new(alloc), state);
            answer_of(alloc, out, reader, words)
        }
        Err(error) => said(out, error),
    }
}

fn recent<B: Backend>(
    alloc: Global,
    out: &mut String,
    backend: &mut B,
    words: &mut Words,
) -> Option<()> {
    let capacity = number::<usize>(words)?;
    if capacity == 0 {
        return None;
    }
    let cache = LruDirCache::new(alloc, capacity).ok()?;
    cached(alloc, out, backend, cache, words)
}

// A reader without a cache over a backend of these bytes.
pub fn shared(alloc: Global, out: &mut String, held: &[u8], words: &mut Words) -> Option<()> {
    let mut backend = BytesBackend::new(Bytes::copy_from_slice(alloc, held).ok()?);
    uncached(alloc, out, &mut backend, words)
}

pub fn answer<B: Backend>(
    alloc: Global,
    out: &mut String,
    backend: &mut B,
    words: &mut Words,
) -> Option<()> {
    match words.next()? {
        "none" => uncached(alloc, out, backend, words),
        "map" => cached(alloc, out, backend, HashMapCache::new(alloc), words),
        "idle" => cached(alloc, out, backend, NoCache, words),
        "recent" => recent(alloc, out, backend, words),
        "over" => over(alloc, out, backend, words),
        _ => None,
    }
}
