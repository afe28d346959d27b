// Ranges of an archive's bytes, and the way through leaves to a tile.
ghost use Rattle.std.specs.Prelude.{◌≡◌, ◌+◌, IfErr, option_copied};
ghost use Rattle.pm_reader.specs.Common.{data_of, dir_of, range_of};
ghost use Rattle.pm_reader.specs.View.{IsTileRefusal, tile_behind, tile_in};

use super::scan::find_in;
use pm_format::{DirEntry, Header, PmtError, PmtResult, ReadCause};

/// The range of the bytes whose place is counted from a base; none where it passes the end of the bytes or u64.
pub(crate) fn range<'b>(bytes: &'b [u8], base: u64, offset: u64, length: u64) -> Option<&'b [u8]>
    ensures { option_copied result ≡ range_of bytes.now (base + offset) length }
{
    let at = base.checked_add(offset)?;
    let end = at.checked_add(length)?;
    if end > bytes.len() as u64 {
        return None;
    }
    Some(&bytes[at as usize..end as usize])
}

/// The contents of the tile at an id, from the bytes of a directory and through at most so many leaves.
pub(crate) fn follow<'b>(
    bytes: &'b [u8],
    header: &Header,
    directory: &'b [u8],
    id: u64,
    left: u32,
) -> PmtResult<Option<&'b [u8]>>
    ensures answer { tile_behind result ≡ tile_in left header.now bytes.now id
        (dir_of directory.now) }
    ensures refusal { IfErr result IsTileRefusal }
{
    let Some(entry) = find_in(directory, id)? else {
        return Ok(None);
    };
    if !entry.is_leaf() {
        return contents(bytes, header, entry);
    }
    if left == 0 {
        return Ok(None);
    }
    let length = u64::from(entry.length());
    let Some(leaf) = range(bytes, header.leaf_offset, entry.offset(), length) else {
        return Err(PmtError::Reading(ReadCause::PastEnd));
    };
    follow(bytes, header, leaf, id, left - 1)
}

// The contents that a tile entry leads to.
fn contents<'b>(bytes: &'b [u8], header: &Header, entry: DirEntry) -> PmtResult<Option<&'b [u8]>>
    ensures answer { tile_behind result ≡ data_of header.now bytes.now entry }
    ensures refusal { IfErr result IsTileRefusal }
{
    let length = u64::from(entry.length());
    match range(bytes, header.data_offset, entry.offset(), length) {
        Some(tile) => Ok(Some(tile)),
        None => Err(PmtError::Reading(ReadCause::PastEnd)),
    }
}
