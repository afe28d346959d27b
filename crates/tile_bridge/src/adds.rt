// The adds of a set: its tiles of at least one byte by their ids.
ghost use Rattle.std.specs.Prelude.{◌≡◌, ◌+◌, ◌<◌, ◌^◌, IfOk, OnOk, false, length};
ghost use Rattle.tile_bridge.specs.Common.{AreFew, id_of, IsCoord, len, Options};
ghost use Rattle.std.specs.List.Sorted.{IsNonDecreasingBy, IsPermutation};
ghost use Rattle.tile_bridge.specs.Adds.{AreAddsOf, AreFilled, AreWithin, bytes_at, cell_bytes, shown};
ghost use Rattle.tile_bridge.specs.Outcome.{overflows};

use base_values::OutOfMemory;
use mb_loaded::Loaded;
use mb_store::Cell;
use std::alloc::Global;
use tile_ids::{TileCoord, TileId};

/// A tile of a set by its id: its index in the set.
#[derive(Clone, Copy, Debug)]
pub(crate) struct Add {
    pub(crate) id: TileId,
    pub(crate) index: usize,
}

// The bytes of a cell, none where it has none.
fn bytes_of(cell: &Cell) -> &[u8]
    ensures { result.now ≡ cell_bytes cell.now }
{
    match cell {
        Cell::Blob(blob) => blob.as_bytes(),
        _ => &[],
    }
}

/// The bytes of the tile at an index of a set, none where its contents are null.
pub(crate) fn tile_bytes(set: &Loaded, index: usize) -> &[u8]
    requires { index < len set.now.state.tiles }
    ensures { result.now ≡ bytes_at set.now.state.tiles index }
{
    bytes_of(set.tile_at(index).1)
}

/// Whether a set has a tile of 2^32 bytes, 2^32 tiles, or 2^60 bytes in all.
pub(crate) fn is_overflow(set: &Loaded) -> bool
    ensures { result ≡ overflows set.now.state.tiles }
{
    if set.tile_count() as u64 >= 1 << 32 {
        return true;
    }
    let mut total: u64 = 0;
    for index in 0..set.tile_count() {
        let length = tile_bytes(set, index).len() as u64;
        total += length;
        if length >= 1 << 32 || total >= 1 << 60 {
            return true;
        }
    }
    false
}

// The id of a coordinate, which is in range.
fn id_of(coord: TileCoord) -> TileId
    ensures id { result ≡ id_of coord }
    ensures within { IsCoord coord }
{
    let _zoom = coord.z();
    TileId::from(coord)
}

// Adds the tile at an index, where it has a byte.
fn take_tile(adds: &mut Vec<Add>, set: &Loaded, index: usize) -> Result<(), OutOfMemory>
    requires { index < len set.now.state.tiles }
    ensures { AreFilled set.now.state.tiles adds.old.items index
        → OnOk result (AreFilled set.now.state.tiles adds.new.items (index + 1)) }
{
    let (coord, cell) = set.tile_at(index);
    let id = id_of(coord);
    if bytes_of(cell).is_empty() {
        return Ok(());
    }
    adds.push(Add { id, index })?;
    Ok(())
}

// The tiles of at least one byte, in the order of the set.
fn filled_tiles(alloc: Global, set: &Loaded) -> Result<Vec<Add>, OutOfMemory>
    ensures { IfOk result (λ adds. AreFilled set.now.state.tiles adds.items
        (len set.now.state.tiles)) }
{
    let mut adds = Vec::with_capacity(alloc, set.tile_count())?;
    for index in 0..set.tile_count() {
        take_tile(&mut adds, set, index)?;
    }
    Ok(adds)
}

fn sort_by_id(adds: &mut Vec<Add>)
    ensures same { IsPermutation adds.old.items adds.new.items }
    ensures rising { IsNonDecreasingBy (λ a. a.id) adds.new.items }
{
    adds.sort_unstable_by_key(|add| add.id);
}

/// The tiles of at least one byte of a set, by rising id.
pub(crate) fn make_adds(alloc: Global, set: &Loaded) -> Result<Vec<Add>, OutOfMemory>
    ensures are { IfOk result (λ adds. AreAddsOf (shown set.now.state.tiles adds.items)
        set.now.state.tiles) }
    ensures within { IfOk result (λ adds. AreWithin set.now.state.tiles adds.items) }
    ensures few { IfOk result (λ adds. (o : Options) → length o.metadata < 2 ^ 63
        → overflows set.now.state.tiles ≡ false → AreFew o (shown set.now.state.tiles adds.items)) }
{
    let mut adds = filled_tiles(alloc, set)?;
    sort_by_id(&mut adds);
    Ok(adds)
}
