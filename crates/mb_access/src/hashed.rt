// Reads of single tiles with their stored digests.
ghost use Rattle.std.specs.Prelude.{◌≡◌, ◌≢◌, Err, IfErr, IfOk, option_and_then, option_copied, true};
ghost use Rattle.mb_access.specs.Hashed.{IsHashed, hash_by, hashed_answer, id_at, row_by, text_in};
ghost use Rattle.mb_access.specs.Reads.{coord_in};
ghost use Rattle.mb_access.specs.Common.{Answers, cell_at, FaultsCounted, is_free, place_at, ReadsOnly, tile_key};

use crate::Mbtiles;
use crate::reads::{bytes_in, coord_in};
use base_values::{BlobVal, OutOfMemory, TextVal};
use mb_lists::cell_at;
use mb_load::load;
use mb_loaded::Loaded;
use mb_store::{
    Cell, MbtError, MbtResult, MbtType, NormalizedSchema, Row, RowKey, StoreError, TableName,
    TileStore,
};
use std::alloc::Global;
use tile_ids::{TileCoord, invert_y_value};

// The key of a coordinate.
fn key_at(coord: TileCoord) -> RowKey
    ensures { result ≡ tile_key (place_at coord) }
{
    let zoom = coord.z();
    RowKey::Tile {
        zoom,
        column: coord.x(),
        row: invert_y_value(zoom, coord.y()),
    }
}

// The row of a set of flat tiles with their digests at a coordinate, and none in the other layouts.
fn row_by<S: TileStore>(
    alloc: Global,
    store: &mut S,
    layout: MbtType,
    coord: Option<TileCoord>,
) -> MbtResult<Option<Row>>
    ensures answer { S.tells store.old ≡ true
        → IfOk result (λ row. row ≡ row_by layout (S.told store.old) coord) }
    ensures free { IfErr result (λ e. is_free e ≡ true) }
    ensures kept { ReadsOnly S.told S.tells S.faults S.steady store.old store.new }
    ensures fault { FaultsCounted S.faults store.old store.new result MbtError.StoreFault }
{
    match (layout, coord) {
        (MbtType::FlatWithHash, Some(coord)) => {
            Ok(store.find(alloc, TableName::TilesWithHash, &key_at(coord))?)
        }
        _ => Ok(None),
    }
}

// A copy of a text, and none of another cell.
fn text_in(alloc: Global, cell: &Cell) -> Result<Option<TextVal>, OutOfMemory>
    ensures { IfOk result (λ text. text ≡ text_in cell.now) }
{
    match cell {
        Cell::Text(text) => Ok(Some(text.try_clone(alloc)?)),
        _ => Ok(None),
    }
}

// A copy of the digest in a row.
fn text_of_row(alloc: Global, row: Option<Row>) -> Result<Option<TextVal>, OutOfMemory>
    ensures { IfOk result (λ text. text ≡ option_and_then (λ row. text_in (cell_at 4 row)) row) }
{
    let null = Cell::Null;
    match row {
        Some(row) => text_in(alloc, cell_at(&row, 4, &null)),
        None => Ok(None),
    }
}

// The id of a loaded set at a coordinate.
fn id_at(set: &Loaded, coord: Option<TileCoord>) -> Option<&Cell>
    ensures { option_copied result ≡ id_at set.now.state.ids coord }
{
    match coord {
        Some(coord) => set.id_of(coord),
        None => None,
    }
}

// A copy of the text of an id.
fn text_of_id(
    alloc: Global,
    set: &Loaded,
    coord: Option<TileCoord>,
) -> Result<Option<TextVal>, OutOfMemory>
    ensures { IfOk result (λ text. text ≡ option_and_then text_in (id_at set.now.state.ids coord)) }
{
    match id_at(set, coord) {
        Some(id) => text_in(alloc, id),
        None => Ok(None),
    }
}

// The stored digest of a tile of a loaded set.
fn hash_by(
    alloc: Global,
    set: &Loaded,
    coord: Option<TileCoord>,
    row: Option<Row>,
) -> Result<Option<TextVal>, OutOfMemory>
    ensures { IfOk result
        (λ hash. hash ≡ hash_by set.now.state.layout row (id_at set.now.state.ids coord)) }
{
    match set.mbt_type() {
        MbtType::FlatWithHash => text_of_row(alloc, row),
        MbtType::Normalized {
            schema: NormalizedSchema::Hash,
            ..
        } => text_of_id(alloc, set, coord),
        _ => Ok(None),
    }
}

// The bytes of a tile of a loaded set with its stored digest.
fn hashed(
    alloc: Global,
    set: &Loaded,
    z: u8,
    x: u32,
    y: u32,
    row: Option<Row>,
) -> MbtResult<Option<(BlobVal, Option<TextVal>)>>
    ensures answer { Answers (hashed_answer z x y row set.now.state) result }
    ensures fault { result ≢ Err MbtError.StoreFault }
{
    match bytes_in(alloc, set, z, x, y)? {
        Some(bytes) => {
            let hash = hash_by(alloc, set, coord_in(z, x, y), row)?;
            Ok(Some((bytes, hash)))
        }
        None => Ok(None),
    }
}

impl Mbtiles {
    /// The bytes of the tile at a zoom, a column from the left and a row from the top, as `get_tile` answers them, with
    /// the digest that the store has for them: the hash of the row in a flat set with hashes, the id of the contents in
    /// a normalised set by hash. There is no digest where that cell is null, and in the other layouts.
    ///
    /// It answers the refusals of `load`. The store holds what it held, whatever the answer.
    pub fn get_tile_and_hash<S: TileStore>(
        &self,
        alloc: Global,
        store: &mut S,
        z: u8,
        x: u32,
        y: u32,
    ) -> MbtResult<Option<(BlobVal, Option<TextVal>)>>
        ensures answer { IsHashed z x y (S.tells store.old) (S.told store.old) result }
        ensures kept { ReadsOnly S.told S.tells S.faults S.steady store.old store.new }
        ensures fault { FaultsCounted S.faults store.old store.new result MbtError.StoreFault }
    {
        let set = load(alloc, store)?;
        let row = row_by(alloc, store, set.mbt_type(), coord_in(z, x, y))?;
        hashed(alloc, &set, z, x, y, row)
    }
}
