// The contents of a mark, read again from the store.
ghost use Rattle.std.specs.Prelude.{◌≡◌, false, true, IfErr, IfOk, None, OnOk, Some};
ghost use Rattle.mb_tables.specs.declared.cell.Cell.TheVariants.{Null};
ghost use Rattle.tile_streaming.specs.Common.{cell_bytes, FaultsCounted, place_at, ReadsOnly, Rose, tile_key};
ghost use Rattle.tile_streaming.specs.Finding.{bytes_told, fits, has_size, named_told, row_bytes, row_told, tile_told};
ghost use Rattle.tile_streaming.specs.PatchedSet.{bytes_in, held_bytes, stored_in};
ghost use Rattle.tile_streaming.specs.Stands.{BaseStands};
ghost use Rattle.tile_streaming.specs.Written.{FindCauses, IsChanged};

use crate::patched_set::PatchedSet;
use crate::{Mark, StreamError};
use mb_lists::cell_at;
use mb_loaded::id_key;
use mb_store::{Cell, MbtType, Row, RowKey, TableName, TileStore};
use set_options::is_gzip;
use std::alloc::Global;
use tile_hash::xxh3_64;
use tile_ids::{TileCoord, TileId, invert_y_value};

/// The key of the row of a coordinate.
pub(crate) fn key_at(coord: TileCoord) -> RowKey
    ensures { result ≡ tile_key (place_at coord) }
{
    let zoom = coord.z();
    RowKey::Tile {
        zoom,
        column: coord.x(),
        row: invert_y_value(zoom, coord.y()),
    }
}

// The row of a tile that a store has for the id of its place.
fn find_tile<S: TileStore>(
    alloc: Global,
    store: &mut S,
    layout: MbtType,
    id: TileId,
) -> Result<Option<Row>, StreamError>
    ensures answer { S.tells store.old ≡ true
        → IfOk result (λ row. row ≡ tile_told layout (S.told store.old) id) }
    ensures causes { FindCauses ⊥ (S.faults store.old) (S.faults store.new) result }
    ensures kept { ReadsOnly S.told S.tells S.faults S.steady store.old store.new }
    ensures still { OnOk result (S.faults store.new ≡ S.faults store.old) }
{
    let key = key_at(TileCoord::from(id));
    Ok(store.find(alloc, layout.tile_table(), &key)?)
}

// The row of the contents that the row of a tile names.
fn find_named<S: TileStore>(
    alloc: Global,
    store: &mut S,
    table: TableName,
    row: &Row,
) -> Result<Option<Row>, StreamError>
    ensures answer { S.tells store.old ≡ true
        → IfOk result (λ found. found ≡ named_told table (S.told store.old) row.now) }
    ensures causes { FindCauses ⊥ (S.faults store.old) (S.faults store.new) result }
    ensures kept { ReadsOnly S.told S.tells S.faults S.steady store.old store.new }
    ensures still { OnOk result (S.faults store.new ≡ S.faults store.old) }
{
    let null = Cell::Null;
    let Some(key) = id_key(alloc, cell_at(row, 3, &null))? else {
        return Ok(None);
    };
    Ok(store.find(alloc, table, &key)?)
}

// The row that a store has for an id, or none where it has none with contents.
fn find_row<S: TileStore>(
    alloc: Global,
    store: &mut S,
    layout: MbtType,
    id: TileId,
) -> Result<Option<Row>, StreamError>
    ensures answer { S.tells store.old ≡ true
        → IfOk result (λ row. row ≡ row_told layout (S.told store.old) id) }
    ensures causes { FindCauses ⊥ (S.faults store.old) (S.faults store.new) result }
    ensures kept { ReadsOnly S.told S.tells S.faults S.steady store.old store.new }
    ensures still { OnOk result (S.faults store.new ≡ S.faults store.old) }
{
    let found = find_tile(alloc, store, layout, id)?;
    let Some(schema) = layout.normalized_schema() else {
        return Ok(found);
    };
    match found {
        Some(row) => find_named(alloc, store, schema.contents(), &row),
        None => Ok(None),
    }
}

/// The bytes of a cell, none where it has none.
pub(crate) fn bytes_of(cell: &Cell) -> &[u8]
    ensures { result.now ≡ cell_bytes cell.now }
{
    match cell {
        Cell::Blob(blob) => blob.as_bytes(),
        _ => &[],
    }
}

/// The bytes of the contents in a row that has them, none where they are null. `null` stands
/// for a cell that is missing.
pub(crate) fn row_bytes<'a>(layout: MbtType, row: &'a Row, null: &'a Cell) -> &'a [u8]
    requires { null.now ≡ Null }
    ensures { result.now ≡ row_bytes layout row.now }
{
    match layout {
        MbtType::Cache => bytes_of(cell_at(row, 6, null)),
        MbtType::Normalized { .. } => bytes_of(cell_at(row, 1, null)),
        _ => bytes_of(cell_at(row, 3, null)),
    }
}

// Whether a mark is of so many bytes.
fn has_size(mark: &Mark, length: u64) -> bool
    ensures { result ≡ has_size mark.now length }
{
    length % (1 << 32) == mark.length as u64 && (length >= 1 << 32) == mark.is_long
}

// Whether bytes have the length and the digest of a mark, and begin as gzip begins where it says so.
fn is_of(mark: &Mark, bytes: &[u8]) -> bool
    ensures { result ≡ fits mark.now bytes.now }
{
    has_size(mark, bytes.len() as u64)
        && xxh3_64(bytes) == mark.digest
        && is_gzip(bytes) == mark.gzip
}

// Whether a row has the contents of a mark.
fn has_contents(layout: MbtType, mark: &Mark, row: &Row) -> bool
    ensures { result ≡ fits mark.now (row_bytes layout row.now) }
{
    let null = Cell::Null;
    is_of(mark, row_bytes(layout, row, &null))
}

// The row that has the contents that a mark is of: of a tile, or of a normalised set that of its contents.
// `StoreChanged` comes where there is no such row.
fn stored_row<S: TileStore>(
    alloc: Global,
    store: &mut S,
    layout: MbtType,
    mark: &Mark,
) -> Result<Row, StreamError>
    ensures found { IfOk result (λ row. fits mark.now (row_bytes layout row) ≡ true) }
    ensures answer { S.tells store.old ≡ true
        → IfOk result (λ row. row_told layout (S.told store.old) mark.now.id ≡ Some row) }
    ensures causes { FindCauses (IsChanged (S.tells store.old)
        (bytes_told layout (S.told store.old)) mark.now) (S.faults store.old) (S.faults store.new) result }
    ensures kept { ReadsOnly S.told S.tells S.faults S.steady store.old store.new }
    ensures still { BaseStands (S.faults store.old) (S.faults store.new) result }
{
    let Some(row) = find_row(alloc, store, layout, mark.id)? else {
        return Err(StreamError::StoreChanged);
    };
    if !has_contents(layout, mark, &row) {
        return Err(StreamError::StoreChanged);
    }
    Ok(row)
}

// Whether the contents of a mark that a set holds are those that the mark is of.
fn held_row(set: &PatchedSet, mark: &Mark) -> Result<Option<Row>, StreamError>
    ensures held { IfOk result (λ row. row ≡ None) }
    ensures fits { IfOk result (λ row. fits mark.now
        (held_bytes set.now.over.state.tiles mark.now.id) ≡ true) }
    ensures refused { IfErr result (λ e. e ≡ StreamError.StoreChanged) }
    ensures other { IfErr result (λ e. fits mark.now
        (held_bytes set.now.over.state.tiles mark.now.id) ≡ false) }
{
    if !is_of(mark, set.held_bytes(mark.id)) {
        return Err(StreamError::StoreChanged);
    }
    Ok(None)
}

/// The row that has the contents that a mark is of, and none where the set holds them. `StoreChanged` comes where there
/// are no such contents.
pub(crate) fn marked_row<S: TileStore>(
    alloc: Global,
    store: &mut S,
    set: &PatchedSet,
    mark: &Mark,
) -> Result<Option<Row>, StreamError>
    ensures found { IfOk result
        (λ row. fits mark.now (bytes_in set.now mark.now.id row) ≡ true) }
    ensures answer { S.tells store.old ≡ true → IfOk result (λ row.
        stored_in set.now (S.told store.old) mark.now.id
        ≡ Some (bytes_in set.now mark.now.id row)) }
    ensures causes { FindCauses (IsChanged (S.tells store.old)
        (stored_in set.now (S.told store.old)) mark.now)
        (S.faults store.old) (S.faults store.new) result }
    ensures kept { ReadsOnly S.told S.tells S.faults S.steady store.old store.new }
    ensures still { BaseStands (S.faults store.old) (S.faults store.new) result }
{
    if set.holds(mark.id) {
        return held_row(set, mark);
    }
    match stored_row(alloc, store, set.marked.layout, mark) {
        Ok(row) => Ok(Some(row)),
        Err(error) => Err(error),
    }
}
