// What a reader and a view of the bytes that are held answer.
use bytes::Bytes;
use pm_format::{BytesBackend, PmtResult};
use pm_reader::{ArchiveView, PmTilesReader};
use rows_shared::{Words, number, said, say_bytes};
use std::alloc::Global;
use tile_ids::TileId;

fn say_tile(alloc: Global, out: &mut String, given: PmtResult<Option<&[u8]>>) -> Option<()> {
    match given {
        Ok(Some(bytes)) => say_bytes(alloc, out, bytes),
        Ok(None) => out.push_str("none ").ok(),
        Err(error) => said(out, error),
    }
}

fn say_read(alloc: Global, out: &mut String, given: PmtResult<Option<Bytes>>) -> Option<()> {
    match given {
        Ok(Some(bytes)) => say_bytes(alloc, out, bytes.as_slice()),
        Ok(None) => out.push_str("none ").ok(),
        Err(error) => said(out, error),
    }
}

/// A backend of these bytes, whose calls don't fail.
pub fn backend_of(alloc: Global, held: &[u8]) -> Option<BytesBackend> {
    Some(BytesBackend::new(Bytes::copy_from_slice(alloc, held).ok()?))
}

/// Whether a reader opens, and its tile at an id.
pub fn by_reader(alloc: Global, out: &mut String, held: &[u8], id: TileId) -> Option<()> {
    let mut backend = backend_of(alloc, held)?;
    match PmTilesReader::try_from_source(alloc, &mut backend) {
        Ok(reader) => {
            let mut reader = reader;
            say_read(alloc, out, reader.get_tile(id))
        }
        Err(error) => said(out, error),
    }
}

/// The same of a view.
pub fn by_view(alloc: Global, out: &mut String, held: &[u8], id: TileId) -> Option<()> {
    match ArchiveView::open(held) {
        Ok(view) => say_tile(alloc, out, view.get_tile(id)),
        Err(error) => said(out, error),
    }
}

/// The tile at an id, by both.
pub fn answer(alloc: Global, out: &mut String, held: &[u8], words: &mut Words) -> Option<()> {
    let id = TileId::new(number(words)?).ok()?;
    by_reader(alloc, out, held, id)?;
    by_view(alloc, out, held, id)
}
