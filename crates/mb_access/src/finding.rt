// Where a tile stands among those of a loaded set.
ghost use Rattle.std.specs.Prelude.{◌≡◌, ◌+◌, ◌<◌, IfOk, IsTrue, Some, cond, slice_get, true};
ghost use Rattle.mb_access.specs.Common.{contains_key, contents_of, entries, get, len, option_flatten, place_at, place_cmp};
ghost use Rattle.mb_access.specs.Finding.{IsIndexOf};
ghost use Rattle.mb_access.specs.StreamSteps.{tile_at};

use base_values::{BlobVal, OutOfMemory};
use mb_loaded::Loaded;
use mb_store::Cell;
use std::alloc::Global;
use std::cmp::Ordering;
use tile_ids::{TileCoord, invert_y_value};

// Indexes from one on up to another.
#[derive(Clone, Copy, Debug)]
struct Span {
    low: usize,
    high: usize,
}

// The order of two coordinates by zoom, column and row counted from the bottom.
fn place_order(a: TileCoord, b: TileCoord) -> Ordering
    ensures { result ≡ place_cmp (place_at a) (place_at b) }
{
    let (zoom, other_zoom) = (a.z(), b.z());
    let row = invert_y_value(zoom, a.y());
    let other_row = invert_y_value(other_zoom, b.y());
    zoom.cmp(&other_zoom)
        .then(a.x().cmp(&b.x()))
        .then(row.cmp(&other_row))
}

// The indexes behind a middle one, where the tile there is below what is sought, and else those before it.
fn half(span: Span, middle: usize, is_below: bool) -> Span
    requires { middle < span.high }
    ensures low { result.low ≡ cond is_below (middle + 1) span.low }
    ensures high { result.high ≡ cond is_below span.high middle }
{
    if is_below {
        Span {
            low: middle + 1,
            high: span.high,
        }
    } else {
        Span {
            low: span.low,
            high: middle,
        }
    }
}

// The index of the tile at a coordinate, by halving.
fn sought_index(set: &Loaded, coord: TileCoord) -> Option<usize>
    ensures { IsIndexOf set.now.state.tiles (place_at coord) result }
{
    let mut span = Span {
        low: 0,
        high: set.tile_count(),
    };
    while span.low < span.high {
        let middle = span.low + (span.high - span.low) / 2;
        let (place, _) = set.tile_at(middle);
        let order = place_order(place, coord);
        if order.is_eq() {
            return Some(middle);
        }
        span = half(span, middle, order.is_lt());
    }
    None
}

// Whether the tile at a coordinate has an index.
fn is_index(set: &Loaded, index: usize, coord: TileCoord) -> bool
    ensures { IsTrue result → IsIndexOf set.now.state.tiles (place_at coord) (Some index) }
{
    if index >= set.tile_count() {
        return false;
    }
    let (place, _) = set.tile_at(index);
    place_order(place, coord).is_eq()
}

/// The index of the tile at a coordinate, among those of a loaded set. The one at which it is tried first is `likely`.
pub(crate) fn index_of(set: &Loaded, likely: usize, coord: TileCoord) -> Option<usize>
    ensures { IsIndexOf set.now.state.tiles (place_at coord) result }
{
    if is_index(set, likely, coord) {
        Some(likely)
    } else {
        sought_index(set, coord)
    }
}

/// The coordinate of the tile at an index.
pub(crate) fn coord_at(set: &Loaded, index: usize) -> TileCoord
    requires { index < len set.now.state.tiles }
    ensures entry { slice_get (entries set.now.state.tiles) index
        ≡ Some (tile_at set.now.state.tiles result) }
    ensures own { contains_key set.now.state.tiles (place_at result) ≡ true }
{
    set.tile_at(index).0
}

// A copy of the bytes of a cell; None where it has none.
fn contents_in(alloc: Global, cell: &Cell) -> Result<Option<BlobVal>, OutOfMemory>
    ensures { IfOk result (λ contents. contents ≡ option_flatten (contents_of cell.now)) }
{
    match cell {
        Cell::Blob(bytes) => Ok(Some(bytes.try_clone(alloc)?)),
        _ => Ok(None),
    }
}

/// The coordinate of the tile at an index, with a copy of its bytes; None for null.
pub(crate) fn tile_copy(
    alloc: Global,
    set: &Loaded,
    index: usize,
) -> Result<(TileCoord, Option<BlobVal>), OutOfMemory>
    requires { index < len set.now.state.tiles }
    ensures entry { IfOk result
        (λ e. slice_get (entries set.now.state.tiles) index ≡ Some (place_at e.0, e.1)) }
    ensures own { IfOk result (λ e. get set.now.state.tiles (place_at e.0) ≡ Some e.1) }
{
    let (coord, cell) = set.tile_at(index);
    let contents = contents_in(alloc, cell)?;
    Ok((coord, contents))
}
