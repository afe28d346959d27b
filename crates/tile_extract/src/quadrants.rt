// The ids of boxes at one zoom, by the quadrants of the zoom along the Hilbert curve.
ghost use Rattle.std.specs.Prelude.{◌≡◌, ◌≢◌, ◌⊎◌, true, false, ◌+◌, ◌*◌, ◌^◌, ◌<◌, ◌≤◌, ◌↔◌, ℕ, Bool, IsTrue, OnOk};
ghost use Rattle.tile_extract.specs.Boxes.{box_covers};
ghost use Rattle.tile_extract.specs.Common.{IsCoord, list_any, number_of};
ghost use Rattle.tile_extract.specs.Gathering.{AllWanted, Gathered, Wants, block_start};

use crate::ZoomBox;
use crate::zoom_box::{any_covers, any_meets, area_of};
use base_values::OutOfMemory;
use tile_ids::{PYRAMID_SIZE_BY_ZOOM, TileCoord, TileId};

// Whether an interval that begins with this id begins right behind another one.
fn touches(to: u64, first: u64) -> bool
    ensures { IsTrue result ↔ (to + 1 ≡ first) }
{
    first != 0 && to == first - 1
}

// Adds an interval behind others; it is joined to the last one where it begins right behind that.
fn add_interval(found: &mut Vec<(u64, u64)>, first: u64, last: u64) -> Result<(), OutOfMemory>
    requires { first ≤ last }
    ensures { (wanted : ℕ → Bool) → Gathered wanted first found.old.items
        → AllWanted wanted first (last + 1)
        → OnOk result (Gathered wanted (last + 1) found.new.items) }
{
    let Some((from, to)) = found.pop() else {
        found.push((first, last))?;
        return Ok(());
    };
    if touches(to, first) {
        found.push((from, last))?;
        return Ok(());
    }
    found.push((from, to))?;
    found.push((first, last))?;
    Ok(())
}

// The tile of a zoom that has this number along the curve.
fn tile_of(zoom: u8, number: u64) -> TileCoord
    requires zoom { zoom ≤ 31 }
    requires number { number < 4 ^ zoom }
    ensures coord { IsCoord result }
    ensures zoom { result.z ≡ zoom }
    ensures number { number_of result ≡ number }
{
    let Ok(id) = TileId::new(PYRAMID_SIZE_BY_ZOOM[zoom as usize] + number) else {
        unreachable!();
    };
    TileCoord::from(id)
}

// The first and the last id at a zoom of the descendants of the tile of a level that has this number.
fn block_of(zoom: u8, level: u8, number: u64) -> (u64, u64)
    requires level { level ≤ zoom }
    requires zoom { zoom ≤ 31 }
    requires number { number < 4 ^ level }
    ensures first { result.0 ≡ block_start zoom level number }
    ensures last { result.1 + 1 ≡ block_start zoom level (number + 1) }
    ensures some { result.0 ≤ result.1 }
{
    let count = 1u64 << (2 * (zoom - level));
    let first = PYRAMID_SIZE_BY_ZOOM[zoom as usize] + number * count;
    (first, first + (count - 1))
}

// Whether all ids of a quadrant that boxes meet are theirs, as it is one tile, or a box covers it.
fn is_taken(boxes: &[ZoomBox], area: &ZoomBox, zoom: u8, level: u8) -> bool
    ensures taken { IsTrue result
        → (level ≡ zoom) ⊎ (list_any (box_covers area.now) boxes.now ≡ true) }
    ensures left { result ≡ false → level ≢ zoom }
{
    level == zoom || any_covers(boxes, area)
}

/// Adds the ids that boxes have among the descendants at a zoom of the tile of a level that has this number: none
/// where no box meets them, all where a box covers them, and else those of its four children, in the order of the
/// curve. All boxes are of the zoom.
pub(crate) fn add_quadrant(
    found: &mut Vec<(u64, u64)>,
    boxes: &[ZoomBox],
    zoom: u8,
    level: u8,
    number: u64,
) -> Result<(), OutOfMemory>
    requires level { level ≤ zoom }
    requires zoom { zoom ≤ 31 }
    requires number { number < 4 ^ level }
    ensures { (wanted : ℕ → Bool) → Wants boxes.now zoom wanted
        → Gathered wanted (block_start zoom level number) found.old.items
        → OnOk result
        (Gathered wanted (block_start zoom level (number + 1)) found.new.items) }
{
    let area = area_of(tile_of(level, number), zoom);
    if !any_meets(boxes, &area) {
        return Ok(());
    }
    if is_taken(boxes, &area, zoom, level) {
        let (first, last) = block_of(zoom, level, number);
        return add_interval(found, first, last);
    }
    let children = 4 * number;
    for child in children..children + 4 {
        add_quadrant(found, boxes, zoom, level + 1, child)?;
    }
    Ok(())
}
