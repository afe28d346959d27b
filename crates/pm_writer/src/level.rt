// Directories one behind another, and an entry for each.
ghost use Rattle.std.specs.Prelude.{ℕ, List, [], ◌≤◌, ◌<◌, ◌+◌, ◌^◌, ◌↔◌, All, IsTrue, length, map, IfOk, OnOk};
ghost use Rattle.pm_writer.specs.Common.{Entry, IsWritable};
ghost use Rattle.pm_writer.specs.Bounds.{AllShort};
ghost use Rattle.pm_writer.specs.Cutting.{HasMore, IsCut, IsShort, named};
ghost use Rattle.pm_writer.specs.Leaves.{pieces};

use base_values::OutOfMemory;
use pm_format::{AsWide, WideEntry, encode_entries};
use std::alloc::Global;

/// Directories of a level: their bytes one behind another, and the entries that name them, whose
/// sizes may still be too long.
#[derive(Drop)]
pub(crate) struct Level {
    pub(crate) bytes: Vec<u8>,
    pub(crate) names: Vec<WideEntry>,
}

impl Level {
    /// No directory.
    pub(crate) fn new(alloc: Global) -> Level
        ensures { (place : ℕ) → IsCut result place [] }
    {
        Level {
            bytes: Vec::new(alloc),
            names: Vec::new(alloc),
        }
    }

    /// Whether each directory's size fits an entry.
    pub(crate) fn is_short(&self) -> bool
        ensures { (place : ℕ) (ls : List (List Entry)) → IsCut self.now place ls
            → (IsTrue result ↔ AllShort ls) }
    {
        are_short(&self.names)
    }
}

// Puts one directory behind the others, which begin at a place of the leaf part.
fn put_directory<E: AsWide>(
    alloc: Global,
    level: &mut Level,
    place: u64,
    entries: &[E],
) -> Result<(), OutOfMemory>
    requires place { place < 2 ^ 63 }
    requires fits { IsWritable 0 (map E.entry entries.now) }
    requires some { 0 < length entries.now }
    ensures { OnOk result (HasMore level.old level.new place (map E.entry entries.now)) }
{
    let offset = place + level.bytes.len() as u64;
    let bytes = encode_entries(alloc, entries)?;
    level.bytes.extend_from_slice(&bytes)?;
    let name = WideEntry {
        tile_id: entries[0].wide().tile_id,
        offset,
        length: bytes.len() as u64,
        run_length: 0,
    };
    level.names.push(name)?;
    Ok(())
}

/// Directories of a size, the last one shorter, from a place of the leaf part on.
pub(crate) fn cut_level<E: AsWide>(
    alloc: Global,
    entries: &[E],
    size: usize,
    place: u64,
) -> Result<Level, OutOfMemory>
    requires place { place < 2 ^ 63 }
    requires fits { IsWritable 0 (map E.entry entries.now) }
    requires some { 1 ≤ size }
    ensures is { IfOk result (λ l. IsCut l place (pieces size (map E.entry entries.now))) }
    ensures fits { IfOk result (λ l. IsWritable 0 (named l)) }
{
    let mut level = Level::new(alloc);
    let mut rest = entries;
    while !rest.is_empty() {
        let (first, tail) = rest.split_at(size.min(rest.len()));
        put_directory(alloc, &mut level, place, first)?;
        rest = tail;
    }
    Ok(level)
}

// Whether a directory's size fits an entry.
fn is_short(name: &WideEntry) -> bool
    ensures { IsTrue result ↔ IsShort name.now }
{
    name.length <= u64::from(u32::MAX)
}

fn are_short(names: &[WideEntry]) -> bool
    ensures { IsTrue result ↔ All IsShort names.now }
{
    names.iter().all(|name| is_short(name))
}
