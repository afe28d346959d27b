// A box of tiles of one zoom.
ghost use Rattle.std.specs.Prelude.{◌≡◌, ◌≤◌};
ghost use Rattle.tile_extract.specs.Boxes.{area_of, box_covers, box_meets};
ghost use Rattle.tile_extract.specs.Common.{list_any};

use tile_ids::TileCoord;

/// The tiles of a zoom in some columns and rows, both ends included. Rows are counted from the top. Where a least
/// number is above the greatest one, or no tile has the zoom, it has none.
#[derive(Clone, Copy, Debug, PartialEq, Eq)]
pub struct ZoomBox {
    /// The zoom.
    pub zoom: u8,
    /// The least column.
    pub min_x: u32,
    /// The least row.
    pub min_y: u32,
    /// The greatest column.
    pub max_x: u32,
    /// The greatest row.
    pub max_y: u32,
}

/// The columns and rows of a tile's descendants at a zoom.
pub(crate) fn area_of(root: TileCoord, zoom: u8) -> ZoomBox
    requires least { root.z ≤ zoom }
    requires most { zoom ≤ 31 }
    ensures { result ≡ area_of root zoom }
{
    let levels = zoom - root.z();
    let (min_x, min_y) = (root.x() << levels, root.y() << levels);
    let rest = (1u32 << levels) - 1;
    ZoomBox {
        zoom,
        min_x,
        min_y,
        max_x: min_x + rest,
        max_y: min_y + rest,
    }
}

// Whether a box has a tile of an area, unless one of them has none.
fn meets(tile_box: &ZoomBox, area: &ZoomBox) -> bool
    ensures { result ≡ box_meets area.now tile_box.now }
{
    tile_box.zoom == area.zoom
        && tile_box.min_x <= area.max_x
        && area.min_x <= tile_box.max_x
        && tile_box.min_y <= area.max_y
        && area.min_y <= tile_box.max_y
}

// Whether a box has all tiles of an area.
fn covers(tile_box: &ZoomBox, area: &ZoomBox) -> bool
    ensures { result ≡ box_covers area.now tile_box.now }
{
    tile_box.zoom == area.zoom
        && tile_box.min_x <= area.min_x
        && area.max_x <= tile_box.max_x
        && tile_box.min_y <= area.min_y
        && area.max_y <= tile_box.max_y
}

/// Whether one of some boxes meets an area.
pub(crate) fn any_meets(boxes: &[ZoomBox], area: &ZoomBox) -> bool
    ensures { result ≡ list_any (box_meets area.now) boxes.now }
{
    boxes.iter().any(|tile_box| meets(tile_box, area))
}

/// Whether one of some boxes covers an area.
pub(crate) fn any_covers(boxes: &[ZoomBox], area: &ZoomBox) -> bool
    ensures { result ≡ list_any (box_covers area.now) boxes.now }
{
    boxes.iter().any(|tile_box| covers(tile_box, area))
}
