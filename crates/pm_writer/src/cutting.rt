// The directories of an archive as bytes: one flat root, or a root that names leaves or upper directories of them.
ghost use Rattle.std.specs.Prelude.{◌≡◌, ◌≤◌, ◌<◌, ◌^◌, length, map, true, false, IfOk, MatchOption};
ghost use Rattle.pm_writer.specs.Common.{dir_bytes, DirFits, IsWritable, wide_as};
ghost use Rattle.pm_writer.specs.Bounds.{AllShort};
ghost use Rattle.pm_writer.specs.Causes.{SizeCauses};
ghost use Rattle.pm_writer.specs.Cutting.{AreDirectories, IsLaid, IsRooted};
ghost use Rattle.pm_writer.specs.Leaves.{Layout, below_layout, fits_root, found_uppers, laid, stands_in_root};

use crate::level::{Level, cut_level};
use base_values::OutOfMemory;
use pm_format::{AsWide, DirEntry, MAX_ROOT, PmtError, PmtResult, WideEntry, encode_entries};
use std::alloc::Global;

/// The bytes of the root, those of the directories below it one behind another, and how many of these have tile
/// entries and how many don't.
#[derive(Drop)]
pub(crate) struct Directories {
    pub(crate) root: Vec<u8>,
    pub(crate) below: Vec<u8>,
    pub(crate) leaves: u64,
    pub(crate) uppers: u64,
}

// The bytes of a root of these entries, where they fit it.
fn root_bytes<E: AsWide>(alloc: Global, entries: &[E]) -> Result<Option<Vec<u8>>, OutOfMemory>
    requires { IsWritable 0 (map E.entry entries.now) }
    ensures { IfOk result
        (λ r. MatchOption r (fits_root (map E.entry entries.now) ≡ false)
        (λ v. (fits_root (map E.entry entries.now) ≡ true)
        × (v.items ≡ dir_bytes (map E.entry entries.now)))) }
{
    let bytes = encode_entries(alloc, entries)?;
    if bytes.len() > MAX_ROOT {
        return Ok(None);
    }
    Ok(Some(bytes))
}

// The bytes of a root of all entries, where they can stand in it themselves.
fn flat_root(alloc: Global, entries: &[DirEntry]) -> Result<Option<Vec<u8>>, OutOfMemory>
    requires { DirFits 0 entries.now }
    ensures { IfOk result
        (λ r. MatchOption r (stands_in_root entries.now ≡ false)
        (λ v. (stands_in_root entries.now ≡ true) × (v.items ≡ dir_bytes entries.now))) }
{
    if entries.len() >= 16_384 {
        return Ok(None);
    }
    root_bytes(alloc, entries)
}

// Upper directories of these entries, from a place of the leaf part on, of the first size whose root fits, and the
// bytes of this root. Each size is the one before and its fifth.
fn best_uppers(
    alloc: Global,
    names: &[WideEntry],
    first: usize,
    place: u64,
) -> Result<(Level, Vec<u8>), OutOfMemory>
    requires fits { IsWritable 0 (map wide_as names.now) }
    requires room { length names.now < 2 ^ 62 }
    requires place { place < 2 ^ 63 }
    requires some { 5 ≤ first }
    ensures { IfOk result
        (λ r. IsRooted r.0 r.1.items place (found_uppers place first (map wide_as names.now))) }
{
    let mut size = first;
    loop {
        let uppers = cut_level(alloc, names, size, place)?;
        let root = root_bytes(alloc, &uppers.names)?;
        match root {
            Some(root) => return Ok((uppers, root)),
            None => size += size / 5,
        }
    }
}

impl Directories {
    // The bytes of the root with those of two levels. `IndexEntryOverflow` exactly where a
    // directory has 2^32 bytes or more.
    fn join(root: Vec<u8>, leaves: Level, uppers: Level) -> PmtResult<Directories>
        ensures are { (l : Layout) → IsLaid root.items leaves uppers l
            → IfOk result (λ d. AreDirectories d l) }
        ensures causes { (l : Layout) → IsLaid root.items leaves uppers l
            → SizeCauses (AllShort (below_layout l)) result }
    {
        if !leaves.is_short() {
            return Err(PmtError::IndexEntryOverflow);
        }
        if !uppers.is_short() {
            return Err(PmtError::IndexEntryOverflow);
        }
        let Level {
            bytes: mut below,
            names,
        } = leaves;
        below.extend_from_slice(&uppers.bytes)?;
        Ok(Directories {
            root,
            below,
            leaves: names.len() as u64,
            uppers: uppers.names.len() as u64,
        })
    }

    // Those of entries that don't stand in the root, at most so many in a leaf.
    fn build_below(alloc: Global, entries: &[DirEntry], most: u32) -> PmtResult<Directories>
        requires fits { DirFits 0 entries.now }
        requires some { 5 ≤ most }
        ensures are { stands_in_root entries.now ≡ false
            → IfOk result (λ d. AreDirectories d (laid most entries.now)) }
        ensures causes { stands_in_root entries.now ≡ false
            → SizeCauses (AllShort (below_layout (laid most entries.now))) result }
    {
        let leaves = cut_level(alloc, entries, most as usize, 0)?;
        let root = root_bytes(alloc, &leaves.names)?;
        match root {
            Some(root) => Directories::join(root, leaves, Level::new(alloc)),
            None => {
                let place = leaves.bytes.len() as u64;
                let (uppers, root) = best_uppers(alloc, &leaves.names, most as usize, place)?;
                Directories::join(root, leaves, uppers)
            }
        }
    }

    /// Those of sorted entries, at most so many in a leaf. `IndexEntryOverflow` exactly where a
    /// directory has 2^32 bytes or more.
    pub(crate) fn build(alloc: Global, entries: Vec<DirEntry>, most: u32) -> PmtResult<Directories>
        requires fits { DirFits 0 entries.items }
        requires some { 5 ≤ most }
        ensures are { IfOk result (λ d. AreDirectories d (laid most entries.items)) }
        ensures causes { SizeCauses (AllShort (below_layout (laid most entries.items))) result }
    {
        let flat = flat_root(alloc, &entries)?;
        match flat {
            Some(root) => Directories::join(root, Level::new(alloc), Level::new(alloc)),
            None => Directories::build_below(alloc, &entries, most),
        }
    }
}
