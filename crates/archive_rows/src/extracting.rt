// Extractions from a source to a new medium.
use crate::boxes::{extract_boxes, extract_ids};
use crate::kept::Kept;
use crate::media::{digest, holding, part};
use pm_format::{Backend, MemMedium};
use rows_shared::{Counted, Words, bytes, number, said, say, texts};
use std::alloc::Global;
use tile_extract::{ExtractOutcome, extract, extract_status, run_extract};
use tile_ids::TileCoord;

fn said_outcome(out: &mut String, outcome: ExtractOutcome) -> Option<()> {
    say(out, &extract_status(&outcome))?;
    said(out, outcome)
}

// By words: the status and the outcome.
fn run<B: Backend>(
    alloc: Global,
    out: &mut String,
    source: &mut B,
    medium: &mut MemMedium,
    words: &mut Words,
) -> Option<()> {
    let words = texts(alloc, words)?;
    said_outcome(out, run_extract(alloc, words.as_slice(), source, medium))
}

// The next three words as a tile.
fn tile_of(words: &mut Words) -> Option<TileCoord> {
    let z = number::<u8>(words)?;
    let x = number::<u32>(words)?;
    TileCoord::new(z, x, number::<u32>(words)?).ok()
}

// By a tile and two numbers: the places or the error.
fn of_tile<B: Backend>(
    alloc: Global,
    out: &mut String,
    source: &mut B,
    medium: &mut MemMedium,
    words: &mut Words,
) -> Option<()> {
    let root = tile_of(words)?;
    let max_zoom = number::<u8>(words)?;
    let max_tiles = number::<u64>(words)?;
    said(
        out,
        extract(alloc, source, root, max_zoom, max_tiles, medium),
    )
}

// The call, and which call of the medium fails, 0 for none. After its answer, byte 97 of the
// medium, where there is one.
pub fn over<B: Backend>(
    alloc: Global,
    out: &mut String,
    kept: &mut Kept,
    source: &mut B,
    words: &mut Words,
) -> Option<()> {
    let call = words.next()?;
    kept.extracted = holding(alloc, kept.begun.as_slice(), number(words)?)?;
    match call {
        "run" => run(alloc, out, source, &mut kept.extracted, words),
        "tile" => of_tile(alloc, out, source, &mut kept.extracted, words),
        "boxes" => extract_boxes(alloc, out, source, &mut kept.extracted, words),
        "ids" => extract_ids(alloc, out, source, &mut kept.extracted, words),
        _ => None,
    }?;
    say(out, &kept.extracted.as_bytes().get(97))
}

// From the bytes that are held, of whose reads one fails, 0 for none. Last, how often was read.
fn counted(alloc: Global, out: &mut String, kept: &mut Kept, words: &mut Words) -> Option<()> {
    let held = kept.backend.medium.as_bytes();
    let mut source = Counted::new(holding(alloc, held, number(words)?)?);
    over(alloc, out, kept, &mut source, words)?;
    say(out, &source.calls)
}

pub fn answer(alloc: Global, out: &mut String, kept: &mut Kept, words: &mut Words) -> Option<()> {
    match words.next()? {
        "begin" => {
            kept.begun = bytes(alloc, words)?;
            Some(())
        }
        "from" => counted(alloc, out, kept, words),
        "digest" => digest(alloc, out, &kept.extracted),
        "part" => part(alloc, out, &kept.extracted, words),
        _ => None,
    }
}
