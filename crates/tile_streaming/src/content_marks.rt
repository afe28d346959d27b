// The marks of contents.
ghost use Rattle.std.specs.Prelude.{◌≡◌};
ghost use Rattle.tile_streaming.specs.Contents.{content_mark, mark_of_cell};

use crate::mark::ContentMark;
use mb_store::Cell;
use set_options::is_gzip;
use tile_hash::xxh3_64;

/// The mark of bytes.
pub(crate) fn content_mark(bytes: &[u8]) -> ContentMark
    ensures { result ≡ content_mark bytes.now }
{
    let length = bytes.len() as u64;
    ContentMark {
        digest: xxh3_64(bytes),
        length: (length % (1 << 32)) as u32,
        is_long: length >= 1 << 32,
        gzip: is_gzip(bytes),
    }
}

/// The mark of a cell of contents, where null has no bytes; none of a cell that is neither bytes nor null.
pub(crate) fn mark_of_cell(cell: &Cell) -> Option<ContentMark>
    ensures { result ≡ mark_of_cell cell.now }
{
    match cell {
        Cell::Blob(blob) => Some(content_mark(blob.as_bytes())),
        Cell::Null => Some(content_mark(&[])),
        _ => None,
    }
}
