// Calls of a view of the bytes that are held. Each slice that is printed has outlived its view.
use pm_format::PmtResult;
use pm_reader::ArchiveView;
use rows_shared::{Words, said, say, say_bytes};
use std::alloc::Global;
use tile_ids::TileId;

fn tile<'b>(bytes: &'b [u8], tile_id: TileId) -> PmtResult<Option<&'b [u8]>> {
    let view = ArchiveView::open(bytes)?;
    view.get_tile(tile_id)
}

fn metadata<'b>(bytes: &'b [u8]) -> PmtResult<&'b str> {
    let view = ArchiveView::open(bytes)?;
    view.metadata()
}

fn say_tile(alloc: Global, out: &mut String, given: PmtResult<Option<&[u8]>>) -> Option<()> {
    match given {
        Ok(Some(bytes)) => say_bytes(alloc, out, bytes),
        Ok(None) => out.push_str("none ").ok(),
        Err(error) => said(out, error),
    }
}

// The tiles of the ids that are left.
fn tiles(alloc: Global, out: &mut String, bytes: &[u8], words: &mut Words) -> Option<()> {
    for word in words {
        let tile_id = TileId::new(word.parse::<u64>().ok()?).ok()?;
        say_tile(alloc, out, tile(bytes, tile_id))?;
    }
    Some(())
}

fn header(alloc: Global, out: &mut String, bytes: &[u8]) -> Option<()> {
    match ArchiveView::open(bytes) {
        Ok(view) => say_bytes(alloc, out, view.header().write_bytes().as_slice()),
        Err(error) => said(out, error),
    }
}

fn said_text(out: &mut String, given: PmtResult<&str>) -> Option<()> {
    match given {
        Ok(text) => say(out, &text),
        Err(error) => said(out, error),
    }
}

pub fn answer(alloc: Global, out: &mut String, bytes: &[u8], words: &mut Words) -> Option<()> {
    match words.next()? {
        "tiles" => tiles(alloc, out, bytes, words),
        "header" => header(alloc, out, bytes),
        "metadata" => said_text(out, metadata(bytes)),
        _ => None,
    }
}
