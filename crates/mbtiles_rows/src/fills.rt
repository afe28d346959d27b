// Sets of many rows, made from few words.
use base_values::BlobVal;
use mb_store::MemStore;
use mb_tables::{Cell, MbtType, NormalizedSchema, Row, TableName};
use rows_shared::{Words, number};
use set_words::{layout, push};
use std::alloc::Global;
use std::fmt::Write;
use tile_hash::HashAlgorithm;

// The decimal text of a number as bytes.
fn decimal(alloc: Global, number: u32) -> Option<Vec<u8>> {
    let mut text = String::new(alloc);
    write!(text, "{number}").ok()?;
    Some(text.into_bytes())
}

/// The id of contents in a layout: their digest, or their number.
pub fn id_of(alloc: Global, layout: MbtType, number: u32, bytes: &[u8]) -> Option<Cell> {
    match layout {
        MbtType::Normalized {
            schema: NormalizedSchema::DedupId,
            ..
        } => Some(Cell::Int(i64::from(number))),
        _ => Some(Cell::Text(HashAlgorithm::Md5.hash(alloc, bytes).ok()?)),
    }
}

/// Pushes one row, which has to be new.
pub fn push_cells(
    alloc: Global,
    store: &mut MemStore,
    table: TableName,
    cells: Vec<Cell>,
) -> Option<()> {
    push(alloc, store, table, Row::new(cells))?.ok()
}

/// Pushes the row of a place with one more cell.
pub fn push_place(
    alloc: Global,
    store: &mut MemStore,
    table: TableName,
    place: [u32; 3],
    last: Cell,
) -> Option<()> {
    let mut cells = Vec::new(alloc);
    for number in &place {
        cells.push(Cell::Int(i64::from(*number))).ok()?;
    }
    cells.push(last).ok()?;
    push_cells(alloc, store, table, cells)
}

/// Pushes contents with their id.
pub fn push_contents(
    alloc: Global,
    store: &mut MemStore,
    table: TableName,
    id: Cell,
    bytes: Vec<u8>,
) -> Option<()> {
    let mut cells = Vec::new(alloc);
    cells.push(id).ok()?;
    cells.push(Cell::Blob(BlobVal::new(bytes))).ok()?;
    push_cells(alloc, store, table, cells)
}

// What the tile of a number has behind its place: the id of its contents or these, or null for the last rest.
fn last_cell(alloc: Global, layout: MbtType, rest: u32, contents: u32) -> Option<Cell> {
    if rest == contents {
        return Some(Cell::Null);
    }
    let bytes = decimal(alloc, rest)?;
    match layout {
        MbtType::Normalized { .. } => id_of(alloc, layout, rest, bytes.as_slice()),
        _ => Some(Cell::Blob(BlobVal::new(bytes))),
    }
}

// The contents of a normalised set.
fn fill_contents(
    alloc: Global,
    store: &mut MemStore,
    layout: MbtType,
    contents: u32,
) -> Option<()> {
    let MbtType::Normalized { schema, .. } = layout else {
        return Some(());
    };
    for number in 0..contents {
        let bytes = decimal(alloc, number)?;
        let id = id_of(alloc, layout, number, bytes.as_slice())?;
        push_contents(alloc, store, schema.contents(), id, bytes)?;
    }
    Some(())
}

/// A set of a layout: how many tiles, and how many contents they have by the rest of their number. The places are those
/// of zoom 13 in a mixed order.
pub fn fill(alloc: Global, store: &mut MemStore, words: &mut Words) -> Option<()> {
    let layout = layout(words)?;
    let count = number::<u16>(words)?;
    let contents = number::<u16>(words)?;
    *store = MemStore::with_layout(alloc, layout).ok()?;
    fill_contents(alloc, store, layout, u32::from(contents))?;
    for tile in 0..u32::from(count) {
        let rest = tile % (u32::from(contents) + 1);
        let last = last_cell(alloc, layout, rest, u32::from(contents))?;
        let place = [13, tile * 4999 % 8192, tile * 77 % 8192];
        push_place(alloc, store, layout.tile_table(), place, last)?;
    }
    Some(())
}
