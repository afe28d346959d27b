// The ids of the tiles of boxes.
ghost use Rattle.std.specs.Prelude.{◌≡◌, ◌+◌, ◌≤◌, ◌==◌, ℕ, IfOk, OnOk};
ghost use Rattle.tile_extract.specs.Boxes.{AreParted, boxes_hold, is_said, widened, zooms_of};
ghost use Rattle.tile_extract.specs.Common.{filter, in_intervals, pyramid};
ghost use Rattle.tile_extract.specs.Gathering.{Gathered};

use crate::quadrants::add_quadrant;
use crate::{IdIntervals, TilePart, ZoomBox};
use base_values::OutOfMemory;
use pm_format::Header;
use std::alloc::{AllocError, Global};
use tile_ids::MAX_ZOOM;

// Those of some boxes that are of a zoom.
fn boxes_of(alloc: Global, boxes: &[ZoomBox], zoom: u8) -> Result<Vec<ZoomBox>, AllocError>
    ensures { IfOk result (λ near. near.items ≡ filter (λ b. b.zoom == zoom) boxes.now) }
{
    boxes
        .iter()
        .filter(|tile_box| tile_box.zoom == zoom)
        .copied()
        .collect(alloc)
}

// Adds the ids of boxes at one zoom, behind those of all zooms before it.
fn add_zoom(
    alloc: Global,
    found: &mut Vec<(u64, u64)>,
    boxes: &[ZoomBox],
    zoom: u8,
) -> Result<(), OutOfMemory>
    requires { zoom ≤ 31 }
    ensures { Gathered (boxes_hold boxes.now) (pyramid zoom) found.old.items
        → OnOk result (Gathered (boxes_hold boxes.now) (pyramid (zoom + 1)) found.new.items) }
{
    let near = boxes_of(alloc, boxes, zoom)?;
    add_quadrant(found, near.as_slice(), zoom, 0, 0)
}

/// The ids of the tiles of boxes, as intervals with an id between each two that is of no such tile. Boxes may be of
/// several zooms, in any order, and may overlap.
///
/// The quadrants of each zoom are gone through along the Hilbert curve: one that no box meets is left, and one that a
/// box covers is taken, as a whole. So time grows with the number of tiles along the sides of the boxes.
pub fn box_intervals(alloc: Global, boxes: &[ZoomBox]) -> Result<IdIntervals, OutOfMemory>
    ensures are { IfOk result (λ found. (id : ℕ) → in_intervals id found ≡ boxes_hold boxes.now id) }
    ensures parted { IfOk result (λ found. AreParted 0 found) }
{
    let mut found = Vec::new(alloc);
    for zoom in 0..MAX_ZOOM + 1 {
        add_zoom(alloc, &mut found, boxes, zoom)?;
    }
    Ok(IdIntervals::of_apart(found))
}

// The least and the greatest zoom of boxes and of those two.
fn widened(least: u8, greatest: u8, boxes: &[ZoomBox]) -> (u8, u8)
    ensures { result ≡ widened (least, greatest) boxes.now }
{
    let mut rest = boxes;
    let (mut low, mut high) = (least, greatest);
    while let Some((tile_box, others)) = rest.split_first() {
        low = low.min(tile_box.zoom);
        high = high.max(tile_box.zoom);
        rest = others;
    }
    (low, high)
}

fn zooms_of(boxes: &[ZoomBox]) -> (u8, u8)
    ensures { result ≡ zooms_of boxes.now }
{
    match boxes {
        [first, rest @ ..] => widened(first.zoom, first.zoom, rest),
        [] => (0, 0),
    }
}

/// The part of an archive that the tiles of boxes are, by the ids as `box_intervals` gives them. Its zooms are the
/// least and the greatest of the boxes', 0 where there is no box.
pub fn box_part(alloc: Global, boxes: &[ZoomBox]) -> Result<TilePart, OutOfMemory>
    ensures are { IfOk result
        (λ part. (id : ℕ) → in_intervals id part.intervals ≡ boxes_hold boxes.now id) }
    ensures parted { IfOk result (λ part. AreParted 0 part.intervals) }
    ensures zooms { IfOk result (λ part. (part.min_zoom, part.max_zoom) ≡ zooms_of boxes.now) }
{
    let intervals = box_intervals(alloc, boxes)?;
    let (min_zoom, max_zoom) = zooms_of(boxes);
    Ok(TilePart {
        intervals,
        min_zoom,
        max_zoom,
    })
}

/// Those of some boxes that are of one of the zooms that the header of an archive says, in their order.
pub fn said_boxes(
    alloc: Global,
    boxes: &[ZoomBox],
    header: &Header,
) -> Result<Vec<ZoomBox>, AllocError>
    ensures { IfOk result (λ said. said.items ≡ filter (is_said header.now) boxes.now) }
{
    let (least, greatest) = (header.min_zoom, header.max_zoom);
    boxes
        .iter()
        .filter(|tile_box| least <= tile_box.zoom && tile_box.zoom <= greatest)
        .copied()
        .collect(alloc)
}
