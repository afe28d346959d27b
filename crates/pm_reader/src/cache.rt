// Caches of directories, by the places where they lie.
ghost use Rattle.std.specs.Prelude.{◌≡◌, ℕ, List, Option, None, Ok, Some, IfOk, IsTrue, option_copied};
ghost use Rattle.pm_reader.specs.Common.{Entry};
ghost use Rattle.pm_reader.specs.Caches.{AddsNone, AddsOnly, AnswersFetched, AnswersHeld, CacheLimits, answer_of, from_found};

mod kept;
mod map;
mod none;
mod recent;

use base_values::OutOfMemory;
pub use map::HashMapCache;
pub use none::NoCache;
use pm_format::{DirEntry, Directory, PmtResult};
pub use recent::LruDirCache;
use tile_ids::TileId;

/// What a cache knows of an id.
#[derive(Clone, Copy, Debug, PartialEq, Eq)]
pub enum DirCacheResult {
    /// No directory is held at the offset.
    NotCached,
    /// The held directory has no entry for the id.
    NotFound,
    /// The entry that the held directory has for the id.
    Found(DirEntry),
}

impl From<Option<&DirEntry>> for DirCacheResult {
    ghost use Rattle.std.specs.Prelude.{◌≡◌, option_copied};
    ghost use Rattle.pm_reader.specs.Caches.{from_found};

    ghost from_gives = { λ found r. r ≡ from_found (option_copied found) };

    fn from(found: Option<&DirEntry>) -> Self {
        match found {
            Some(entry) => DirCacheResult::Found(*entry),
            None => DirCacheResult::NotFound,
        }
    }
}

/// Directories that are held by the places where they lie, counted from the front of the archive.
pub trait DirectoryCache {
    /// What is held at each offset.
    ghost held: { Self → ℕ → Option (List Entry) };

    /// Nothing is held, and nothing will be.
    ghost idle: { Self → Type 0 };

    /// No more is held than these limits allow, and no more will be.
    ghost keeps_to: { Self → CacheLimits → Type 0 };

    /// What is known of an id: `NotCached` exactly where nothing is held at the offset, else what the
    /// held directory has for it.
    fn get_dir_entry(&mut self, offset: u64, tile_id: TileId) -> DirCacheResult
        ensures answer { result ≡ answer_of (held self.old offset) tile_id }
        ensures adds { AddsNone (held self.old) (held self.new) }
        ensures idle { idle self.old → idle self.new }
        ensures limits { (l : CacheLimits) → keeps_to self.old l → keeps_to self.new l };

    /// Puts a directory at an offset. After `Ok(true)` it is held there; else it is given up.
    fn insert_dir(&mut self, offset: u64, directory: Directory) -> Result<bool, OutOfMemory>
        ensures adds { AddsOnly (held self.old) (held self.new) offset (λ d. d ≡ directory) }
        ensures kept { IfOk result (λ kept. IsTrue kept → held self.new offset ≡ Some directory) }
        ensures idle { idle self.old → idle self.new }
        ensures limits { (l : CacheLimits) → keeps_to self.old l → keeps_to self.new l };

    /// What the held directory has for an id. Where nothing is held at the offset, the fetcher is called, and its
    /// directory answers; the only refusal is the fetcher's.
    fn get_dir_entry_or_insert<F: FnOnce() -> PmtResult<Directory>>(
        &mut self,
        offset: u64,
        tile_id: TileId,
        fetcher: F,
    ) -> PmtResult<Option<DirEntry>>
        requires callable { held self.old offset ≡ None → F.pre fetcher }
        ensures held { AnswersHeld (held self.old offset) tile_id result }
        ensures fetched { AnswersFetched (held self.old offset) (F.post fetcher) tile_id result }
        ensures adds { AddsOnly (held self.old) (held self.new) offset
            (λ d. F.post fetcher (Ok d)) }
        ensures idle { idle self.old → idle self.new }
        ensures limits { (l : CacheLimits) → keeps_to self.old l → keeps_to self.new l };

    /// What is idle holds nothing.
    ghost idle_is_empty: { (s : Self) (o : ℕ) → idle s → held s o ≡ None };
}
