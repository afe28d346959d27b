// The cache that holds nothing.
ghost use Rattle.std.specs.Prelude.{◌≡◌, Ok, false};

use crate::{DirCacheResult, DirectoryCache};
use base_values::OutOfMemory;
use pm_format::{DirEntry, Directory, PmtResult};
use tile_ids::TileId;

/// Holds no directory: each is read again where it is needed.
#[derive(Drop)]
pub struct NoCache;

impl DirectoryCache for NoCache {
    ghost use Rattle.std.specs.Prelude.{None, refl};

    ghost held = { λ _ _. None };

    ghost idle = { λ _. Unit {0} };

    ghost keeps_to = { λ _ _. Unit {0} };

    ghost idle_is_empty = { λ s o i. refl };

    fn get_dir_entry(&mut self, offset: u64, tile_id: TileId) -> DirCacheResult {
        let _ = (offset, tile_id);
        DirCacheResult::NotCached
    }

    fn insert_dir(&mut self, offset: u64, directory: Directory) -> Result<bool, OutOfMemory>
        ensures never { result ≡ Ok false }
    {
        let _ = (offset, directory);
        Ok(false)
    }

    fn get_dir_entry_or_insert<F: FnOnce() -> PmtResult<Directory>>(
        &mut self,
        offset: u64,
        tile_id: TileId,
        fetcher: F,
    ) -> PmtResult<Option<DirEntry>> {
        let _ = offset;
        let directory = fetcher()?;
        Ok(directory.find_tile_id(tile_id).copied())
    }
}
