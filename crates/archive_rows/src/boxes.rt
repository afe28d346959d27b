// Boxes of tiles, intervals of ids, and the parts of archives that they are.
use pm_format::{Backend, MemMedium};
use pm_reader::ReaderState;
use rows_shared::{Words, number, said, say};
use std::alloc::Global;
use tile_extract::{
    IdIntervals, TilePart, ZoomBox, box_intervals, box_part, extract_intervals, said_boxes,
};

// The words that are left, as numbers.
fn numbers(alloc: Global, words: &mut Words) -> Option<Vec<u64>> {
    let mut numbers = Vec::new(alloc);
    for word in words {
        numbers.push(word.parse::<u64>().ok()?).ok()?;
    }
    Some(numbers)
}

// Five numbers as a box: its zoom, its least column and row, and its greatest ones.
fn box_of(numbers: &[u64]) -> Option<ZoomBox> {
    let [zoom, min_x, min_y, max_x, max_y] = numbers else {
        return None;
    };
    Some(ZoomBox {
        zoom: u8::try_from(*zoom).ok()?,
        min_x: u32::try_from(*min_x).ok()?,
        min_y: u32::try_from(*min_y).ok()?,
        max_x: u32::try_from(*max_x).ok()?,
        max_y: u32::try_from(*max_y).ok()?,
    })
}

fn boxes_of(alloc: Global, words: &mut Words) -> Option<Vec<ZoomBox>> {
    let numbers = numbers(alloc, words)?;
    let mut boxes = Vec::new(alloc);
    for five in numbers.as_slice().chunks(5) {
        boxes.push(box_of(five)?).ok()?;
    }
    Some(boxes)
}

fn interval_of(numbers: &[u64]) -> Option<(u64, u64)> {
    let [first, last] = numbers else {
        return None;
    };
    Some((*first, *last))
}

fn pairs_of(alloc: Global, words: &mut Words) -> Option<Vec<(u64, u64)>> {
    let numbers = numbers(alloc, words)?;
    let mut pairs = Vec::new(alloc);
    for two in numbers.as_slice().chunks(2) {
        pairs.push(interval_of(two)?).ok()?;
    }
    Some(pairs)
}

fn say_intervals(out: &mut String, intervals: &IdIntervals) -> Option<()> {
    for interval in intervals.as_slice() {
        say(out, &interval.0)?;
        say(out, &interval.1)?;
    }
    Some(())
}

/// The zooms of the part that boxes are, and the first and the last id of each of its intervals.
pub fn answer(alloc: Global, out: &mut String, words: &mut Words) -> Option<()> {
    let boxes = boxes_of(alloc, words)?;
    let part = box_part(alloc, boxes.as_slice()).ok()?;
    let intervals = box_intervals(alloc, boxes.as_slice()).ok()?;
    say(out, &part.min_zoom)?;
    say(out, &part.max_zoom)?;
    say(out, &(part.intervals.as_slice() == intervals.as_slice()))?;
    say_intervals(out, &intervals)
}

/// The boxes of the zooms that the header of an archive says, five numbers each.
pub fn of_header<B: Backend>(
    alloc: Global,
    out: &mut String,
    source: &mut B,
    words: &mut Words,
) -> Option<()> {
    let boxes = boxes_of(alloc, words)?;
    let state = ReaderState::open(alloc, source).ok()?;
    let near = said_boxes(alloc, boxes.as_slice(), state.get_header()).ok()?;
    for tile_box in near.as_slice() {
        say(out, &tile_box.zoom)?;
        say(out, &tile_box.min_x)?;
        say(out, &tile_box.min_y)?;
        say(out, &tile_box.max_x)?;
        say(out, &tile_box.max_y)?;
    }
    Some(())
}

/// Extracts the part that boxes are, of at most so many tiles: the places or the error.
pub fn extract_boxes<B: Backend>(
    alloc: Global,
    out: &mut String,
    source: &mut B,
    medium: &mut MemMedium,
    words: &mut Words,
) -> Option<()> {
    let max_tiles = number::<u64>(words)?;
    let boxes = boxes_of(alloc, words)?;
    let part = box_part(alloc, boxes.as_slice()).ok()?;
    said(
        out,
        extract_intervals(alloc, source, &part, max_tiles, medium),
    )
}

/// Extracts intervals of ids with two zooms, where these are in order and apart.
pub fn extract_ids<B: Backend>(
    alloc: Global,
    out: &mut String,
    source: &mut B,
    medium: &mut MemMedium,
    words: &mut Words,
) -> Option<()> {
    let max_tiles = number::<u64>(words)?;
    let min_zoom = number::<u8>(words)?;
    let max_zoom = number::<u8>(words)?;
    let Some(intervals) = IdIntervals::new(pairs_of(alloc, words)?) else {
        return said(out, "not apart");
    };
    let part = TilePart {
        intervals,
        min_zoom,
        max_zoom,
    };
    said(
        out,
        extract_intervals(alloc, source, &part, max_tiles, medium),
    )
}
