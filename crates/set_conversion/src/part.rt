// The part of a set that a conversion takes.
ghost use Rattle.std.specs.Prelude.{◌≡◌, IfOk};
ghost use Rattle.pm_walk.specs.Intervals.{AreApart};
ghost use Rattle.set_conversion.specs.Part.{coord_at, ids_below, ids_between, part_intervals};

use base_values::OutOfMemory;
use std::alloc::Global;
use tile_extract::{IdIntervals, subtree_intervals};
use tile_ids::{MAX_ZOOM, TileCoord};

/// Which tiles of a set are converted.
#[derive(Clone, Copy, Debug, PartialEq, Eq)]
pub enum SetPart {
    /// All of them.
    Whole,
    /// A tile and its descendants, down to zoom 31.
    Below {
        /// The tile's zoom.
        zoom: u8,
        /// Its column, from the left.
        column: u32,
        /// Its row, from the top.
        row: u32,
    },
    /// Those whose ids lie from the first one to the last one, both of which belong to them.
    Ids {
        /// The first id.
        first: u64,
        /// The last id.
        last: u64,
    },
}

// Intervals that are known to be apart.
fn of_apart(items: Vec<(u64, u64)>) -> IdIntervals
    requires { AreApart 0 items.items }
    ensures { result ≡ items.items }
{
    let Some(found) = IdIntervals::new(items) else {
        unreachable!();
    };
    found
}

// The ids from one to another; none where the first one is above the last one.
fn ids_between(alloc: Global, first: u64, last: u64) -> Result<IdIntervals, OutOfMemory>
    ensures { IfOk result (λ found. found ≡ ids_between first last) }
{
    let mut items = Vec::new(alloc);
    if first <= last {
        items.push((first, last))?;
    }
    Ok(of_apart(items))
}

/// The tile of a zoom from 0 to 31, a column and a row below two to the zoom, if there is one.
pub(crate) fn coord_at(zoom: u8, column: u32, row: u32) -> Option<TileCoord>
    ensures { result ≡ coord_at zoom column row }
{
    match TileCoord::new(zoom, column, row) {
        Ok(coord) => Some(coord),
        Err(_) => None,
    }
}

// The ids of a tile and of all tiles below it; none where there is no such tile.
fn ids_below(alloc: Global, zoom: u8, column: u32, row: u32) -> Result<IdIntervals, OutOfMemory>
    ensures { IfOk result (λ found. found ≡ ids_below zoom column row) }
{
    match coord_at(zoom, column, row) {
        Some(root) => subtree_intervals(alloc, root, MAX_ZOOM),
        None => Ok(of_apart(Vec::new(alloc))),
    }
}

/// The ids of a part, as `tile_streaming::convert_part` takes them; none where it is the whole set.
pub fn part_intervals(alloc: Global, part: SetPart) -> Result<Option<IdIntervals>, OutOfMemory>
    ensures { IfOk result (λ found. found ≡ part_intervals part) }
{
    match part {
        SetPart::Whole => Ok(None),
        SetPart::Below { zoom, column, row } => Ok(Some(ids_below(alloc, zoom, column, row)?)),
        SetPart::Ids { first, last } => Ok(Some(ids_between(alloc, first, last)?)),
    }
}
