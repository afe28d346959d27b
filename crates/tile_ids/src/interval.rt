// The ids of what lies below a tile.
ghost use Rattle.std.specs.Prelude.{◌≡◌, ◌+◌, ◌-◌, ◌*◌, ◌^◌, ◌≤◌, ◌↔◌, IsSome, IfSome};
ghost use Rattle.tile_ids.specs.Hilbert.{pyramid, number_of};
ghost use Rattle.tile_ids.specs.Interval.{IsInterval, HoldsDescendants};

use crate::hilbert::{hilbert_number, pyramid_size};
use crate::{MAX_ZOOM, TileCoord, TileId};

// The id of a tile's first descendant at a zoom, and how many descendants there are.
fn block(coord: TileCoord, zoom: u8) -> (u64, u64)
    requires below { coord.z ≤ zoom }
    requires zoom { zoom ≤ 31 }
    ensures first { result.0 ≡ pyramid zoom + number_of coord * 4 ^ (zoom - coord.z) }
    ensures count { result.1 ≡ 4 ^ (zoom - coord.z) }
{
    let top = coord.z();
    let number = hilbert_number(top, coord.x(), coord.y());
    let count = 1u64 << (2 * (zoom - top));
    (pyramid_size(zoom) + number * count, count)
}

/// The first and last id of a tile's descendants at a zoom, the tile itself being its descendant at its own zoom.
///
/// None exactly where the zoom is below the tile's or above 31. Each id between the two is that of a descendant too.
pub fn subtree_interval(coord: TileCoord, zoom: u8) -> Option<(TileId, TileId)>
    ensures given { IsSome result ↔ ((coord.z ≤ zoom) × (zoom ≤ 31)) }
    ensures ends { IfSome result (IsInterval coord zoom) }
    ensures between { IfSome result (HoldsDescendants coord zoom) }
{
    if zoom < coord.z() || zoom > MAX_ZOOM {
        return None;
    }
    let (first, count) = block(coord, zoom);
    Some((
        TileId::from_value(first),
        TileId::from_value(first + (count - 1)),
    ))
}
