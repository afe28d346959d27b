// What a directory has for an id, found in its bytes.
ghost use Rattle.std.specs.Prelude.{◌≡◌, ◌≤◌, ◌^◌, Some, None, length, drop, IfOk, IfErr, IfSome, OnErr};
ghost use Rattle.pm_reader.specs.Common.{column, dir_of};
ghost use Rattle.pm_reader.specs.Rows.{AreWithin, after, covered, found_in, rows_at};

use super::cursors::{Cursors, next_entry};
use pm_format::{DirEntry, PmtError, PmtResult, read_varint_u32, read_varint_u64};

/// What the directory that a front of the bytes spells has for an id: the last entry that begins at it or before it,
/// where that leads to a leaf or its run has the id. Bytes after the directory are ignored. `InvalidEntry` where none
/// is there. No memory is taken.
pub(crate) fn find_in(bytes: &[u8], id: u64) -> PmtResult<Option<DirEntry>>
    ensures answer { result ≡ found_in id (dir_of bytes.now) }
    ensures refusal { IfErr result (λ e. e ≡ PmtError.InvalidEntry) }
{
    let (count, ids) = read_varint_u64(bytes, 0)?;
    if count > ((bytes.len() - ids) / 4) as u64 {
        return Err(PmtError::InvalidEntry);
    }
    let count = count as usize;
    let runs = skip_u64s(bytes, ids, count)?;
    let lengths = skip_u32s(bytes, runs, count)?;
    let offsets = skip_u32s(bytes, lengths, count)?;
    let first = Cursors {
        ids,
        runs,
        lengths,
        offsets,
        last: 0,
        end: None,
    };
    walk(bytes, first, count, id)
}

// The place after a column of u64.
fn skip_u64s(bytes: &[u8], start: usize, count: usize) -> PmtResult<usize>
    requires { start ≤ length bytes.now }
    ensures found { IfOk result
        (λ at. after (column 10 (2 ^ 64) count (drop start bytes.now)) ≡ Some (drop at bytes.now)) }
    ensures place { IfOk result (λ at. at ≤ length bytes.now) }
    ensures none { OnErr result (after (column 10 (2 ^ 64) count (drop start bytes.now)) ≡ None) }
    ensures error { IfErr result (λ e. e ≡ PmtError.InvalidEntry) }
{
    let mut at = start;
    for _i in 0..count {
        let (_number, next) = read_varint_u64(bytes, at)?;
        at = next;
    }
    Ok(at)
}

// The place after a column of u32.
fn skip_u32s(bytes: &[u8], start: usize, count: usize) -> PmtResult<usize>
    requires { start ≤ length bytes.now }
    ensures found { IfOk result
        (λ at. after (column 5 (2 ^ 32) count (drop start bytes.now)) ≡ Some (drop at bytes.now)) }
    ensures place { IfOk result (λ at. at ≤ length bytes.now) }
    ensures none { OnErr result (after (column 5 (2 ^ 32) count (drop start bytes.now)) ≡ None) }
    ensures error { IfErr result (λ e. e ≡ PmtError.InvalidEntry) }
{
    let mut at = start;
    for _i in 0..count {
        let (_number, next) = read_varint_u32(bytes, at)?;
        at = next;
    }
    Ok(at)
}

// What so many rows have for an id.
fn walk(bytes: &[u8], first: Cursors, count: usize, id: u64) -> PmtResult<Option<DirEntry>>
    requires { AreWithin bytes.now first }
    ensures answer { result ≡ found_in id (rows_at count bytes.now first) }
    ensures refusal { IfErr result (λ e. e ≡ PmtError.InvalidEntry) }
{
    let mut found = None;
    let mut at = first;
    for _i in 0..count {
        let (entry, next) = next_entry(bytes, at)?;
        if entry.tile_id() <= id {
            found = Some(entry);
        }
        at = next;
    }
    Ok(covering(found, id))
}

// The entry, where it covers an id from its own on.
fn covering(found: Option<DirEntry>, id: u64) -> Option<DirEntry>
    requires { IfSome found (λ e. e.tile_id ≤ id) }
    ensures { result ≡ covered id found }
{
    let entry = found?;
    pm_format::covering(&entry, id).copied()
}
