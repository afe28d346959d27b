// Boxes of columns and rows of a zoom, by the words that say them.
ghost use Rattle.std.specs.Prelude.{◌≡◌, ◌∷◌, ◌≤◌, ◌<◌, ◌^◌, [], None, Some, IfOk, MatchOption, nat_le};
ghost use Rattle.tile_command.specs.Boxes.{box_at, box_of, boxes_after, boxes_of, outline, outline_of, place_box_by, place_box_of, sides, span_of};

use base_values::{OutOfMemory, TextVal};
use line_words::{first_word, four_words, parse_number};
use mb_copy::TileBox;
use std::alloc::Global;
use tile_extract::ZoomBox;

// The least and the greatest number that words spell, up to a last one.
fn span_of(last: u64, least: &[u8], greatest: &[u8]) -> Option<(u32, u32)>
    requires { last < 2 ^ 32 }
    ensures { result ≡ span_of last least.now greatest.now }
{
    let greatest = parse_number(greatest, last)?;
    let least = parse_number(least, greatest)?;
    Some((least as u32, greatest as u32))
}

// The box of a zoom whose least column and row, and greatest ones, words spell.
fn box_at(zoom: u8, left: &[u8], top: &[u8], right: &[u8], bottom: &[u8]) -> Option<ZoomBox>
    requires { zoom ≤ 30 }
    ensures { result ≡ box_at zoom left.now top.now right.now bottom.now }
{
    let last = (1u64 << zoom) - 1;
    let (min_x, max_x) = span_of(last, left, right)?;
    let (min_y, max_y) = span_of(last, top, bottom)?;
    Some(ZoomBox {
        zoom,
        min_x,
        min_y,
        max_x,
        max_y,
    })
}

// The box that a word says: five numbers that are parted by spaces.
fn box_of(word: &[u8]) -> Option<ZoomBox>
    ensures { result ≡ box_of word.now }
{
    let (zoom, Some(rest)) = first_word(word) else {
        return None;
    };
    let (left, top, right, bottom) = four_words(rest)?;
    let zoom = parse_number(zoom, 30)?;
    box_at(zoom as u8, left, top, right, bottom)
}

// The places at zoom 30 whose least column and row, and greatest ones, words spell.
fn place_box_at(left: &[u8], top: &[u8], right: &[u8], bottom: &[u8]) -> Option<TileBox>
    ensures { result
        ≡ place_box_by (left.now ∷ top.now ∷ right.now ∷ bottom.now ∷ []) }
{
    let last = (1 << 30) - 1;
    let (min_x, max_x) = span_of(last, left, right)?;
    let (min_y, max_y) = span_of(last, top, bottom)?;
    Some(TileBox {
        min_x,
        min_y,
        max_x,
        max_y,
    })
}

/// The box of places at zoom 30 that a word says: four numbers that are parted by spaces, `XMIN YMIN XMAX YMAX`.
pub(crate) fn place_box_of(word: &[u8]) -> Option<TileBox>
    ensures { result ≡ place_box_of word.now }
{
    let (left, top, right, bottom) = four_words(word)?;
    place_box_at(left, top, right, bottom)
}

// Boxes behind others, by their words.
fn boxes_after(
    alloc: Global,
    before: Vec<ZoomBox>,
    words: &[TextVal],
) -> Result<Option<Vec<ZoomBox>>, OutOfMemory>
    ensures { IfOk result (λ r. MatchOption r (boxes_after before.items words.now ≡ None)
        (λ boxes. boxes_after before.items words.now ≡ Some boxes.items)) }
{
    let [word, rest @ ..] = words else {
        return Ok(Some(before));
    };
    let Some(tile_box) = box_of(word.as_str().as_bytes()) else {
        return Ok(None);
    };
    let mut boxes = before;
    boxes.push(tile_box)?;
    boxes_after(alloc, boxes, rest)
}

/// The boxes that words say, each `Z XMIN YMIN XMAX YMAX`: a zoom from 0 to 30, the least column and row and the
/// greatest ones, both from 0 on and below two to the zoom, in decimal digits without a leading zero, parted by one
/// space. Rows are counted from the top. None where a word says no box.
pub fn boxes_of(alloc: Global, words: &[TextVal]) -> Result<Option<Vec<ZoomBox>>, OutOfMemory>
    ensures { IfOk result (λ r. MatchOption r (boxes_of words.now ≡ None)
        (λ boxes. boxes_of words.now ≡ Some boxes.items)) }
{
    boxes_after(alloc, Vec::new(alloc), words)
}

// How many tiles lie along two sides that are opposite each other.
fn sides(last: u64, least: u32, greatest: u32, length: u32) -> u64
    ensures { result ≡ sides last least greatest length }
{
    if least == 0 && u64::from(greatest) == last {
        0
    } else {
        u64::from(length) + 1
    }
}

// How many tiles lie along the sides of a box.
fn outline_of(tile_box: &ZoomBox) -> u64
    ensures { result ≡ outline_of tile_box.now }
{
    let last = (1u64 << tile_box.zoom.min(31)) - 1;
    let width = tile_box.max_x.saturating_sub(tile_box.min_x);
    let height = tile_box.max_y.saturating_sub(tile_box.min_y);
    sides(last, tile_box.min_x, tile_box.max_x, height)
        + sides(last, tile_box.min_y, tile_box.max_y, width)
}

/// Whether no more tiles than a limit lie along the sides of boxes, where sides at the edges of the grid don't count.
/// Finding the ids of boxes takes time and memory that grow with these tiles.
pub fn is_outlined_within(boxes: &[ZoomBox], limit: u64) -> bool
    ensures { result ≡ nat_le (outline boxes.now) limit }
{
    let [first, rest @ ..] = boxes else {
        return true;
    };
    match limit.checked_sub(outline_of(first)) {
        Some(left) => is_outlined_within(rest, left),
        None => false,
    }
}
