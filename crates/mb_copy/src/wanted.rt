// Which tiles a copier takes.
ghost use Rattle.std.specs.Prelude.{◌≡◌, ◌==◌, ◌^◌, ◌<◌};
ghost use Rattle.mb_copy.specs.Common.{list_any, place_at};
ghost use Rattle.mb_copy.specs.Wanted.{box_holds, is_chosen, is_from, is_on_grid, is_up_to, is_within, place_passes, scaled, turned, zoom_passes};

use crate::{MbtilesCopier, TileBox};
use tile_ids::{TileCoord, invert_y_value};

// One more than the greatest column and row of zoom 30.
const SIDE: u32 = 1_073_741_824;

// Whether a zoom is at least a bound, if there is one.
fn is_from(least: Option<u8>, zoom: u8) -> bool
    ensures { result ≡ is_from least zoom }
{
    match least {
        Some(least) => least <= zoom,
        None => true,
    }
}

// Whether a zoom is at most a bound, if there is one.
fn is_up_to(greatest: Option<u8>, zoom: u8) -> bool
    ensures { result ≡ is_up_to greatest zoom }
{
    match greatest {
        Some(greatest) => zoom <= greatest,
        None => true,
    }
}

// Whether a zoom is one of a list.
fn is_listed(levels: &[u8], zoom: u8) -> bool
    ensures { result ≡ list_any (λ level. level == zoom) levels.now }
{
    levels.iter().any(|level| *level == zoom)
}

// Whether a zoom is one of a list, or lies within two bounds where that is empty.
fn zoom_passes(levels: &[u8], least: Option<u8>, greatest: Option<u8>, zoom: u8) -> bool
    ensures { result ≡ zoom_passes levels.now least greatest zoom }
{
    if levels.is_empty() {
        return is_from(least, zoom) && is_up_to(greatest, zoom);
    }
    is_listed(levels, zoom)
}

// A column or row of a zoom as the first one of zoom 30 that lies in it.
fn scaled(zoom: u8, number: u32) -> u64
    ensures { result ≡ scaled zoom number }
{
    u64::from(number) * (1u64 << 30u8.saturating_sub(zoom))
}

// Whether all four numbers of a box are of zoom 30.
fn is_on_grid(tile_box: &TileBox) -> bool
    ensures { result ≡ is_on_grid tile_box.now }
{
    tile_box.min_x < SIDE && tile_box.max_x < SIDE && tile_box.min_y < SIDE && tile_box.max_y < SIDE
}

// A row of zoom 30 counted from the other side.
fn turned(row: u32) -> u64
    requires { row < 2 ^ 30 }
    ensures { result ≡ turned row }
{
    u64::from(SIDE - 1 - row)
}

fn is_within(least: u64, greatest: u64, number: u64) -> bool
    ensures { result ≡ is_within least greatest number }
{
    least <= number && number <= greatest
}

// Whether a box holds a place of a zoom, whose row is counted from the bottom.
fn box_holds(zoom: u8, column: u32, row: u32, tile_box: &TileBox) -> bool
    ensures { result ≡ box_holds (record { zoom = zoom; column = column; row = row }) tile_box.now }
{
    if !is_on_grid(tile_box) {
        return false;
    }
    let (x, y) = (scaled(zoom, column), scaled(zoom, row));
    is_within(u64::from(tile_box.min_x), u64::from(tile_box.max_x), x)
        && is_within(turned(tile_box.max_y), turned(tile_box.min_y), y)
}

// Whether one of the boxes holds a place.
fn is_held(boxes: &[TileBox], zoom: u8, column: u32, row: u32) -> bool
    ensures { result ≡ list_any (box_holds (record { zoom = zoom; column = column; row = row }))
        boxes.now }
{
    boxes
        .iter()
        .any(|tile_box| box_holds(zoom, column, row, tile_box))
}

// Whether one of the boxes holds a place, or there is none.
fn place_passes(boxes: &[TileBox], zoom: u8, column: u32, row: u32) -> bool
    ensures { result ≡ place_passes boxes.now (record { zoom = zoom; column = column; row = row }) }
{
    if boxes.is_empty() {
        return true;
    }
    is_held(boxes, zoom, column, row)
}

/// Whether a tile at a coordinate is copied, where the set has one.
pub(crate) fn is_chosen(copier: &MbtilesCopier, coord: TileCoord) -> bool
    ensures { result ≡ is_chosen copier.now (place_at coord) }
{
    if !copier.copy.copy_tiles() {
        return false;
    }
    let zoom = coord.z();
    let levels = copier.zoom_levels.as_slice();
    if !zoom_passes(levels, copier.min_zoom, copier.max_zoom, zoom) {
        return false;
    }
    let row = invert_y_value(zoom, coord.y());
    place_passes(copier.bbox.as_slice(), zoom, coord.x(), row)
}
