// Entries of directories.
ghost use Rattle.std.specs.Prelude.{◌≡◌, ◌≤◌, ◌+◌, ◌↔◌, IsTrue};
ghost use Rattle.pm_format.specs.Common.{range_with_len};

use crate::DirEntryCoordsIter;
use tile_ids::MAX_TILE_ID;

/// An entry of a directory: tiles of one content at ids in a row, or a leaf directory where the run length is 0.
#[derive(Clone, Copy, Debug, Default, PartialEq, Eq)]
pub struct DirEntry {
    pub(crate) tile_id: u64,
    pub(crate) offset: u64,
    pub(crate) length: u32,
    pub(crate) run_length: u32,
}

impl DirEntry {
    /// The entry of an id, the offset and length of its bytes, and the length of its run.
    pub fn new(tile_id: u64, offset: u64, length: u32, run_length: u32) -> DirEntry
        ensures { result ≡ record { tile_id = tile_id; offset = offset; length = length; run_length = run_length } }
    {
        DirEntry {
            tile_id,
            offset,
            length,
            run_length,
        }
    }

    /// The first id of the run, or the least id that the leaf directory may hold.
    pub fn tile_id(&self) -> u64
        ensures { result ≡ self.now.tile_id }
    {
        self.tile_id
    }

    /// Where the bytes begin, counted from the archive's tile data, or from its leaf directories at a leaf entry.
    pub fn offset(&self) -> u64
        ensures { result ≡ self.now.offset }
    {
        self.offset
    }

    /// How many bytes the content or the leaf directory has.
    pub fn length(&self) -> u32
        ensures { result ≡ self.now.length }
    {
        self.length
    }

    /// How many ids in a row have the content, or 0 at a leaf entry.
    pub fn run_length(&self) -> u32
        ensures { result ≡ self.now.run_length }
    {
        self.run_length
    }

    /// Whether the entry leads to a leaf directory.
    pub fn is_leaf(&self) -> bool
        ensures { IsTrue result ↔ (self.now.run_length ≡ 0) }
    {
        self.run_length == 0
    }

    /// Whether each id of the run is that of a tile.
    pub fn run_in_range(&self) -> bool
        ensures { IsTrue result ↔ (self.now.tile_id + self.now.run_length ≤ MAX_TILE_ID + 1) }
    {
        self.tile_id <= MAX_TILE_ID + 1 - u64::from(self.run_length)
    }

    /// The ids of the run, in order: none at a leaf entry. The run is to be in range, as `run_in_range` tells.
    pub fn iter_coords(&self) -> DirEntryCoordsIter<'_>
        requires { self.now.tile_id + self.now.run_length ≤ MAX_TILE_ID + 1 }
        ensures { result ≡ range_with_len self.now.tile_id self.now.run_length }
    {
        DirEntryCoordsIter::new(self)
    }
}
