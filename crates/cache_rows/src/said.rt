// Tiles of a cache, and rows of its table, as they are printed.
ghost use Rattle.std.specs.Prelude.{◌≡◌};

use base_values::BlobVal;
use mb_cache::{CachedTile, Metadata, UnixSeconds};
use mb_store::{MbtResult, Row, TableName, TileStore};
use mb_tables::Cell;
use rows_shared::{said, say, say_bytes};
use std::alloc::Global;
use std::fmt::Write;

fn say_moment(out: &mut String, moment: Option<UnixSeconds>) -> Option<()> {
    match moment {
        Some(moment) => say(out, &moment.0),
        None => write!(out, "- ").ok(),
    }
}

fn say_tile(alloc: Global, out: &mut String, tile: &CachedTile) -> Option<()> {
    say_bytes(alloc, out, tile.tile_data.as_bytes())?;
    say_moment(out, tile.fetched)?;
    say_moment(out, tile.expires)?;
    match &tile.etag {
        Some(etag) => write!(out, "t{} ", etag.as_str()).ok(),
        None => write!(out, "- ").ok(),
    }
}

/// The tile that was answered, its bytes, its times and its tag; or the refusal.
pub fn cached(
    alloc: Global,
    out: &mut String,
    answer: MbtResult<Option<CachedTile>>,
) -> Option<()> {
    match answer {
        Ok(Some(tile)) => say_tile(alloc, out, &tile),
        Ok(None) => write!(out, "none ").ok(),
        Err(error) => said(out, error),
    }
}

/// The bytes that were answered, or the refusal.
pub fn bytes(alloc: Global, out: &mut String, answer: MbtResult<Option<BlobVal>>) -> Option<()> {
    match answer {
        Ok(Some(bytes)) => say_bytes(alloc, out, bytes.as_bytes()),
        Ok(None) => write!(out, "none ").ok(),
        Err(error) => said(out, error),
    }
}

/// The name of the set and its zooms, or the refusal.
pub fn metadata(out: &mut String, answer: MbtResult<Metadata>) -> Option<()> {
    match answer {
        Ok(metadata) => {
            write!(out, "{} ", metadata.id.as_str()).ok()?;
            say(out, &metadata.tilejson.minzoom)?;
            say(out, &metadata.tilejson.maxzoom)
        }
        Err(error) => said(out, error),
    }
}

// A cell as a line spells it.
fn say_cell(alloc: Global, out: &mut String, cell: &Cell) -> Option<()> {
    match cell {
        Cell::Null => write!(out, "n").ok(),
        Cell::Other => write!(out, "o").ok(),
        Cell::Int(number) => write!(out, "i{number}").ok(),
        Cell::Text(text) => write!(out, "t{}", text.as_str()).ok(),
        Cell::Blob(bytes) => {
            let digits = hex::encode(alloc, bytes.as_bytes()).ok()?;
            write!(out, "x{digits}").ok()
        }
    }
}

fn say_row(alloc: Global, out: &mut String, row: &Row) -> Option<()> {
    for cell in row.cells() {
        say_cell(alloc, out, cell)?;
        write!(out, " ").ok()?;
    }
    write!(out, "; ").ok()
}

fn say_rows(alloc: Global, out: &mut String, rows: Vec<Row>) -> Option<()> {
    for row in &rows {
        say_row(alloc, out, row)?;
    }
    Some(())
}

// The rows of the table of the cache.
fn rows_of<S: TileStore>(alloc: Global, store: &mut S) -> Option<Vec<Row>>
    ensures tells { S.tells store.new ≡ S.tells store.old }
    ensures told { S.told store.new ≡ S.told store.old }
{
    let count = store.count_rows(TableName::TileCache).ok()?;
    store.rows(alloc, TableName::TileCache, 0, count).ok()
}

/// All rows of the table of the cache.
pub fn rows<S: TileStore>(alloc: Global, out: &mut String, store: &mut S) -> Option<()>
    ensures tells { S.tells store.new ≡ S.tells store.old }
    ensures told { S.told store.new ≡ S.told store.old }
{
    say_rows(alloc, out, rows_of(alloc, store)?)
}

/// The live size of a store.
pub fn live<S: TileStore>(out: &mut String, store: &mut S) -> Option<()>
    ensures tells { S.tells store.new ≡ S.tells store.old }
    ensures told { S.told store.new ≡ S.told store.old }
{
    said(out, store.live_size())
}

/// How many tables are described.
pub fn tables<S: TileStore>(alloc: Global, out: &mut String, store: &mut S) -> Option<()>
    ensures tells { S.tells store.new ≡ S.tells store.old }
    ensures told { S.told store.new ≡ S.told store.old }
{
    said(out, store.describe(alloc).ok()?.len())
}
