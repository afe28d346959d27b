// The cache that gives up the directories that were used longest ago.
ghost use Rattle.std.specs.Prelude.{◌≡◌, ◌≤◌, ℕ, [], Ok, None, Some, IfOk, IsTrue, length};
ghost use Rattle.pm_reader.specs.Common.{bounded, Entry, IsWithin, Puts};
ghost use Rattle.pm_reader.specs.Caches.{AddsOnly, AnswersFetched, AnswersHeld, CacheLimits, answer_of};
ghost use Rattle.pm_reader.specs.MapCaches.{FetchLeaves, HoldsSame, IsLimited, IsUsed, PutsRecent, held_by_use, uses_of};

use crate::cache::kept::KeptDirectory;
use crate::{DirCacheResult, DirectoryCache};
use base_values::OutOfMemory;
use bounded_lru::BoundedLru;
use pm_format::{DirEntry, Directory, PmtResult};
use std::alloc::Global;
use tile_ids::TileId;

/// Keeps the directories that were used last: as many as its capacity, and, where it has a limit of entries, of no more
/// entries together than this. Each call makes the directory that it was asked for the last used.
#[derive(Drop)]
pub struct LruDirCache {
    directories: BoundedLru<KeptDirectory>,
}

impl LruDirCache {
    /// A cache that holds nothing yet, and will hold at most so many directories. The capacity is to be at least 1.
    /// Room is made only as directories come.
    pub fn new(alloc: Global, capacity: usize) -> Result<LruDirCache, OutOfMemory>
        requires { 1 ≤ capacity }
        ensures { IfOk result (λ c. uses_of c ≡ bounded [] capacity None) }
    {
        Ok(LruDirCache {
            directories: BoundedLru::new(alloc, capacity, None)?,
        })
    }

    /// The same, where the directories that are held have at most so many entries together. A longer
    /// directory is never held.
    pub fn with_entry_limit(
        alloc: Global,
        capacity: usize,
        max_entries: usize,
    ) -> Result<LruDirCache, OutOfMemory>
        requires { 1 ≤ capacity }
        ensures { IfOk result (λ c. uses_of c ≡ bounded [] capacity (Some max_entries)) }
    {
        Ok(LruDirCache {
            directories: BoundedLru::new(alloc, capacity, Some(max_entries as u64))?,
        })
    }

    // What is known of an id. A directory that is held becomes the most recently used.
    fn find(&mut self, offset: u64, tile_id: TileId) -> DirCacheResult
        ensures answer { result ≡ answer_of (held_by_use self.old offset) tile_id }
        ensures uses { IsUsed (uses_of self.old) (uses_of self.new) offset }
        ensures within { IsWithin length (uses_of self.new) }
    {
        if !self.directories.promote(offset) {
            return DirCacheResult::NotCached;
        }
        match self.directories.latest() {
            Some(kept) => DirCacheResult::from(kept.directory().find_tile_id(tile_id)),
            None => DirCacheResult::NotCached,
        }
    }
}

impl DirectoryCache for LruDirCache {
    ghost use Rattle.pm_reader.specs.MapCaches.{IsLimited, held_by_use};

    ghost held = { held_by_use };

    ghost idle = { λ _. ⊥ };

    ghost keeps_to = { IsLimited };

    ghost idle_is_empty = { λ s o i. absurd i };

    fn get_dir_entry(&mut self, offset: u64, tile_id: TileId) -> DirCacheResult
        ensures answer { result ≡ answer_of (held_by_use self.old offset) tile_id }
        ensures uses { IsUsed (uses_of self.old) (uses_of self.new) offset }
        ensures same { HoldsSame (held_by_use self.old) (held_by_use self.new) }
        ensures within { IsWithin length (uses_of self.new) }
        ensures limits { (l : CacheLimits) → IsLimited self.old l → IsLimited self.new l }
    {
        self.find(offset, tile_id)
    }

    fn insert_dir(&mut self, offset: u64, directory: Directory) -> Result<bool, OutOfMemory>
        ensures puts { Puts length (uses_of self.old) (uses_of self.new) offset directory result }
        ensures within { IsWithin length (uses_of self.new) }
        ensures limits { (l : CacheLimits) → IsLimited self.old l → IsLimited self.new l }
        ensures kept { IfOk result
            (λ kept. IsTrue kept → held_by_use self.new offset ≡ Some directory) }
        ensures adds { AddsOnly (held_by_use self.old) (held_by_use self.new) offset
            (λ d. d ≡ directory) }
    {
        self.directories
            .insert(offset, KeptDirectory::new(directory))
    }

    fn get_dir_entry_or_insert<F: FnOnce() -> PmtResult<Directory>>(
        &mut self,
        offset: u64,
        tile_id: TileId,
        fetcher: F,
    ) -> PmtResult<Option<DirEntry>>
        requires callable { held_by_use self.old offset ≡ None → F.pre fetcher }
        ensures held { AnswersHeld (held_by_use self.old offset) tile_id result }
        ensures fetched { AnswersFetched (held_by_use self.old offset) (F.post fetcher) tile_id
            result }
        ensures adds { AddsOnly (held_by_use self.old) (held_by_use self.new) offset
            (λ d. F.post fetcher (Ok d)) }
        ensures leaves { FetchLeaves (held_by_use self.old offset) (F.post fetcher) tile_id
            (IsUsed (uses_of self.old) (uses_of self.new) offset)
            (PutsRecent (uses_of self.old) (uses_of self.new) offset) result }
        ensures within { IsWithin length (uses_of self.new) }
        ensures limits { (l : CacheLimits) → IsLimited self.old l → IsLimited self.new l }
    {
        match self.get_dir_entry(offset, tile_id) {
            DirCacheResult::Found(entry) => Ok(Some(entry)),
            DirCacheResult::NotFound => Ok(None),
            DirCacheResult::NotCached => {
                let directory = fetcher()?;
                let found = directory.find_tile_id(tile_id).copied();
                let _ = self.insert_dir(offset, directory);
                Ok(found)
            }
        }
    }
}
