// Directories from bytes.
ghost use Rattle.std.specs.Prelude.{◌≡◌, ◌≤◌, ◌<◌, ◌+◌, ◌*◌, ◌^◌, ◌⊎◌, Some, None, length, drop, IfOk, IfErr, IsErrOf};
ghost use Rattle.pm_format.specs.Columns.{columns_at, entries_at, ids_at};
ghost use Rattle.pm_format.specs.Directory.{IdsDontFall, column, dir_of, offset_of};

use super::Directory;
use crate::{DirEntry, PmtError, read_varint_u32, read_varint_u64};
use std::alloc::Global;

impl Directory {
    /// The directory that a front of the bytes spells; bytes after it are ignored. `InvalidEntry` where none is there,
    /// which is tested before memory is taken where four times the count is more than the bytes left after it.
    pub fn decode(alloc: Global, bytes: &[u8]) -> Result<Directory, PmtError>
        ensures found { IfOk result (λ d. dir_of bytes.now ≡ Some d) }
        ensures none { IsErrOf result PmtError.InvalidEntry → dir_of bytes.now ≡ None }
        ensures error { IfErr result
            (λ e. (e ≡ PmtError.InvalidEntry) ⊎ (e ≡ PmtError.OutOfMemory)) }
    {
        let (count, start) = read_varint_u64(bytes, 0)?;
        if count > ((bytes.len() - start) / 4) as u64 {
            return Err(PmtError::InvalidEntry);
        }
        let entries = read_columns(alloc, bytes, start, count as usize)?;
        Ok(Directory::from_entries(entries))
    }
}

// The entries of four columns of so many numbers each.
fn read_columns(
    alloc: Global,
    bytes: &[u8],
    start: usize,
    count: usize,
) -> Result<Vec<DirEntry>, PmtError>
    requires { start ≤ length bytes.now }
    ensures found { IfOk result (λ v. columns_at count (drop start bytes.now) ≡ Some v.items) }
    ensures ordered { IfOk result (λ v. IdsDontFall v.items) }
    ensures none { IsErrOf result PmtError.InvalidEntry
        → columns_at count (drop start bytes.now) ≡ None }
    ensures error { IfErr result (λ e. (e ≡ PmtError.InvalidEntry) ⊎ (e ≡ PmtError.OutOfMemory)) }
{
    let (ids, runs_start) = read_ids(alloc, bytes, start, count)?;
    let (runs, lengths_start) = read_column(alloc, bytes, runs_start, count)?;
    let (lengths, offsets_start) = read_column(alloc, bytes, lengths_start, count)?;
    read_entries(alloc, bytes, offsets_start, &ids, &runs, &lengths)
}

// The ids by a column of differences, and the place after it.
fn read_ids(
    alloc: Global,
    bytes: &[u8],
    start: usize,
    count: usize,
) -> Result<(Vec<u64>, usize), PmtError>
    requires { start ≤ length bytes.now }
    ensures found { IfOk result
        (λ r. ids_at 0 count (drop start bytes.now) ≡ Some (r.0.items, drop r.1 bytes.now)) }
    ensures place { IfOk result (λ r. r.1 ≤ length bytes.now) }
    ensures count { IfOk result (λ r. length r.0.items ≡ count) }
    ensures none { IsErrOf result PmtError.InvalidEntry
        → ids_at 0 count (drop start bytes.now) ≡ None }
    ensures error { IfErr result (λ e. (e ≡ PmtError.InvalidEntry) ⊎ (e ≡ PmtError.OutOfMemory)) }
{
    let mut ids = Vec::with_capacity(alloc, count)?;
    let mut last: u64 = 0;
    let mut at = start;
    for _i in 0..count {
        let (step, next) = read_varint_u64(bytes, at)?;
        let Some(id) = last.checked_add(step) else {
            return Err(PmtError::InvalidEntry);
        };
        ids.push(id)?;
        last = id;
        at = next;
    }
    Ok((ids, at))
}

// A column of u32, and the place after it.
fn read_column(
    alloc: Global,
    bytes: &[u8],
    start: usize,
    count: usize,
) -> Result<(Vec<u32>, usize), PmtError>
    requires { start ≤ length bytes.now }
    ensures found { IfOk result
        (λ r. column 5 (2 ^ 32) count (drop start bytes.now)
        ≡ Some (r.0.items, drop r.1 bytes.now)) }
    ensures place { IfOk result (λ r. r.1 ≤ length bytes.now) }
    ensures count { IfOk result (λ r. length r.0.items ≡ count) }
    ensures none { IsErrOf result PmtError.InvalidEntry
        → column 5 (2 ^ 32) count (drop start bytes.now) ≡ None }
    ensures error { IfErr result (λ e. (e ≡ PmtError.InvalidEntry) ⊎ (e ≡ PmtError.OutOfMemory)) }
{
    let mut numbers = Vec::with_capacity(alloc, count)?;
    let mut at = start;
    for _i in 0..count {
        let (number, next) = read_varint_u32(bytes, at)?;
        numbers.push(number)?;
        at = next;
    }
    Ok((numbers, at))
}

// The entries of three columns and the offsets that are spelled at a place.
fn read_entries(
    alloc: Global,
    bytes: &[u8],
    start: usize,
    ids: &[u64],
    runs: &[u32],
    lengths: &[u32],
) -> Result<Vec<DirEntry>, PmtError>
    requires place { start ≤ length bytes.now }
    requires runs { length runs.now ≡ length ids.now }
    requires lengths { length lengths.now ≡ length ids.now }
    ensures found { IfOk result
        (λ v. entries_at None (length ids.now) ids.now runs.now lengths.now (drop start bytes.now)
        ≡ Some v.items) }
    ensures none { IsErrOf result PmtError.InvalidEntry
        → entries_at None (length ids.now) ids.now runs.now lengths.now (drop start bytes.now)
        ≡ None }
    ensures error { IfErr result (λ e. (e ≡ PmtError.InvalidEntry) ⊎ (e ≡ PmtError.OutOfMemory)) }
{
    let mut entries = Vec::with_capacity(alloc, ids.len())?;
    let mut end = None;
    let mut at = start;
    for i in 0..ids.len() {
        let (number, next) = read_varint_u64(bytes, at)?;
        let Some(offset) = offset_by(end, number) else {
            return Err(PmtError::InvalidEntry);
        };
        let length = lengths[i];
        entries.push(DirEntry::new(ids[i], offset, length, runs[i]))?;
        end = offset.checked_add(u64::from(length));
        at = next;
    }
    Ok(entries)
}

/// The offset that a number of a directory's last column stands for, after an entry with this end; none for 0 where no
/// entry is before it, or that one's end passes u64.
pub fn offset_by(end: Option<u64>, number: u64) -> Option<u64>
    ensures { result ≡ offset_of end number }
{
    if number == 0 {
        return end;
    }
    Some(number - 1)
}
