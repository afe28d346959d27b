// The ids of what lies below a tile, zoom by zoom, and the part of an archive that they are.
ghost use Rattle.std.specs.Prelude.{◌≡◌, ◌≤◌, IfOk};
ghost use Rattle.tile_extract.specs.Common.{IsCoord};
ghost use Rattle.tile_extract.specs.Cut.{interval, intervals, subtree};

use crate::{IdIntervals, TilePart};
use base_values::OutOfMemory;
use std::alloc::Global;
use tile_ids::{TileCoord, subtree_interval};

// The first and the last id of a tile's descendants at a zoom.
fn interval_of(root: TileCoord, zoom: u8) -> (u64, u64)
    requires coord { IsCoord root }
    requires least { root.z ≤ zoom }
    requires most { zoom ≤ 31 }
    ensures { result ≡ interval root zoom }
{
    let Some((first, last)) = subtree_interval(root, zoom) else {
        unreachable!();
    };
    (first.value(), last.value())
}

/// The first and the last id of a tile's descendants at each zoom from its own to another, up to 31.
pub fn subtree_intervals(
    alloc: Global,
    root: TileCoord,
    max_zoom: u8,
) -> Result<IdIntervals, OutOfMemory>
    requires least { root.z ≤ max_zoom }
    requires most { max_zoom ≤ 31 }
    ensures { IfOk result (λ found. found ≡ intervals root max_zoom) }
{
    let mut found = Vec::new(alloc);
    for zoom in root.z()..max_zoom + 1 {
        found.push(interval_of(root, zoom))?;
    }
    Ok(IdIntervals::of_apart(found))
}

/// The part that a tile and its descendants down to a zoom are, whose archive says these zooms.
pub(crate) fn part_below(
    alloc: Global,
    root: TileCoord,
    max_zoom: u8,
) -> Result<TilePart, OutOfMemory>
    requires least { root.z ≤ max_zoom }
    requires most { max_zoom ≤ 31 }
    ensures { IfOk result (λ part. part ≡ subtree root max_zoom) }
{
    Ok(TilePart {
        intervals: subtree_intervals(alloc, root, max_zoom)?,
        min_zoom: root.z(),
        max_zoom,
    })
}
