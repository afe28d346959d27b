// The cache that keeps what it is given.
ghost use Rattle.std.specs.Prelude.{◌≡◌, ℕ, None, true, IfOk, OnOk, OnErr};
ghost use Rattle.pm_reader.specs.Caches.{AnswersFetched, AnswersHeld, answer_of};
ghost use Rattle.pm_reader.specs.MapCaches.{FetchLeaves, HoldsAlso, HoldsSame, held_in_map};

use crate::{DirCacheResult, DirectoryCache};
use base_values::OutOfMemory;
use pm_format::{DirEntry, Directory, PmtResult};
use std::alloc::Global;
use std::collections::HashMap;
use tile_ids::TileId;

/// Keeps each directory that it is given, while there is memory.
#[derive(Drop)]
pub struct HashMapCache {
    directories: HashMap<u64, Directory>,
}

impl HashMapCache {
    /// A cache that holds nothing yet.
    pub fn new(alloc: Global) -> HashMapCache
        ensures { (o : ℕ) → held_in_map result o ≡ None }
    {
        HashMapCache {
            directories: HashMap::new(alloc),
        }
    }
}

impl DirectoryCache for HashMapCache {
    ghost use Rattle.pm_reader.specs.MapCaches.{held_in_map};

    ghost held = { held_in_map };

    ghost idle = { λ _. ⊥ };

    ghost keeps_to = { λ _ _. ⊥ };

    ghost idle_is_empty = { λ s o i. absurd i };

    fn get_dir_entry(&mut self, offset: u64, tile_id: TileId) -> DirCacheResult
        ensures answer { result ≡ answer_of (held_in_map self.old offset) tile_id }
        ensures same { HoldsSame (held_in_map self.old) (held_in_map self.new) }
    {
        match self.directories.get(&offset) {
            Some(directory) => DirCacheResult::from(directory.find_tile_id(tile_id)),
            None => DirCacheResult::NotCached,
        }
    }

    fn insert_dir(&mut self, offset: u64, directory: Directory) -> Result<bool, OutOfMemory>
        ensures kept { IfOk result (λ kept. kept ≡ true) }
        ensures also { OnOk result (HoldsAlso (held_in_map self.old) (held_in_map self.new) offset
            directory) }
        ensures err { OnErr result (HoldsSame (held_in_map self.old) (held_in_map self.new)) }
    {
        match self.directories.insert(offset, directory) {
            Ok(_) => Ok(true),
            Err(_) => Err(OutOfMemory),
        }
    }

    fn get_dir_entry_or_insert<F: FnOnce() -> PmtResult<Directory>>(
        &mut self,
        offset: u64,
        tile_id: TileId,
        fetcher: F,
    ) -> PmtResult<Option<DirEntry>>
        requires callable { held_in_map self.old offset ≡ None → F.pre fetcher }
        ensures held { AnswersHeld (held_in_map self.old offset) tile_id result }
        ensures fetched { AnswersFetched (held_in_map self.old offset) (F.post fetcher) tile_id
            result }
        ensures leaves { FetchLeaves (held_in_map self.old offset) (F.post fetcher) tile_id
            (HoldsSame (held_in_map self.old) (held_in_map self.new))
            (HoldsAlso (held_in_map self.old) (held_in_map self.new) offset) result }
    {
        match self.get_dir_entry(offset, tile_id) {
            DirCacheResult::Found(entry) => Ok(Some(entry)),
            DirCacheResult::NotFound => Ok(None),
            DirCacheResult::NotCached => {
                let directory = fetcher()?;
                let found = directory.find_tile_id(tile_id).copied();
                let _ = self.insert_dir(offset, directory);
                Ok(found)
            }
        }
    }
}
