// Leaves: read, or found in a cache, and followed to the entry of a tile.
ghost use Rattle.std.specs.Prelude.{◌≡◌, ◌≤◌, ◌-◌, IfSome};
ghost use Rattle.pm_reader.specs.Common.{leaf_of, FaultsStand};
ghost use Rattle.pm_reader.specs.Answers.{Gives, IsWhole, LookUpCauses};
ghost use Rattle.pm_reader.specs.Caches.{CacheLimits};
ghost use Rattle.pm_reader.specs.Levels.{IsAtLevel, IsLeafEntry, IsTrusted};
ghost use Rattle.pm_reader.specs.Path.{entry_in_leaf};
ghost use Rattle.pm_reader.specs.Way.{Follows};
ghost use Rattle.pm_reader.specs.Reads.{GrewBetween, ReadsOnly, reads_done};

use crate::parts::read_directory_at;
use crate::{DirCacheResult, DirectoryCache, ReaderState};
use pm_format::{Backend, DirEntry, Directory, Header, PmtError, PmtResult, ReadCause};
use std::alloc::Global;
use tile_ids::TileId;

/// The leaf that an entry leads to. `Reading(PastEnd)` comes where it passes the end of the bytes or u64, and
/// `InvalidEntry` where it doesn't decode.
pub(crate) fn read_leaf<B: Backend>(
    alloc: Global,
    backend: &mut B,
    header: &Header,
    leaf: DirEntry,
) -> PmtResult<Directory>
    ensures answer { IfSome (B.told backend.old) (λ b. Gives (leaf_of header.now b leaf) result) }
    ensures causes { LookUpCauses (B.faults backend.old) (B.faults backend.new) result }
    ensures still { FaultsStand (B.faults backend.old) (B.faults backend.new) result }
    ensures whole { IfSome (B.told backend.old) (λ _. IsWhole result) }
    ensures kept { ReadsOnly B.told B.versions B.faults B.steady backend.old backend.new }
    ensures reads { GrewBetween (B.reads backend.old) (B.reads backend.new) (reads_done result) 1 }
{
    read_directory_at(alloc, backend, header, leaf.offset(), leaf.length())
}

impl ReaderState {
    // What the leaf of an entry has for an id, from the cache where the leaf is held there.
    fn find_in_leaf<B: Backend, C: DirectoryCache>(
        &self,
        backend: &mut B,
        cache: &mut C,
        leaf: DirEntry,
        tile_id: TileId,
    ) -> PmtResult<Option<DirEntry>>
        ensures answer { IfSome (B.told backend.old)
            (λ b. IsTrusted self.now.header b self.now.root (C.held cache.old) (C.idle cache.old)
            → IsLeafEntry self.now.header b self.now.root leaf
            → Gives (entry_in_leaf self.now.header b tile_id leaf) result) }
        ensures trusted { IfSome (B.told backend.old)
            (λ b. IsTrusted self.now.header b self.now.root (C.held cache.old) (C.idle cache.old)
            → IsLeafEntry self.now.header b self.now.root leaf
            → IsTrusted self.now.header b self.now.root (C.held cache.new) (C.idle cache.new)) }
        ensures idle { C.idle cache.old → C.idle cache.new }
        ensures limits { (l : CacheLimits) → C.keeps_to cache.old l → C.keeps_to cache.new l }
        ensures causes { LookUpCauses (B.faults backend.old) (B.faults backend.new) result }
        ensures still { FaultsStand (B.faults backend.old) (B.faults backend.new) result }
        ensures whole { IfSome (B.told backend.old) (λ _. IsWhole result) }
        ensures kept { ReadsOnly B.told B.versions B.faults B.steady backend.old backend.new }
        ensures reads { GrewBetween (B.reads backend.old) (B.reads backend.new) 0 1 }
    {
        let Some(at) = self.header.leaf_offset.checked_add(leaf.offset()) else {
            return Err(PmtError::Reading(ReadCause::PastEnd));
        };
        match cache.get_dir_entry(at, tile_id) {
            DirCacheResult::Found(entry) => Ok(Some(entry)),
            DirCacheResult::NotFound => Ok(None),
            DirCacheResult::NotCached => {
                let directory = read_leaf(self.alloc, backend, &self.header, leaf)?;
                let found = directory.find_tile_id(tile_id).copied();
                let _ = cache.insert_dir(at, directory);
                Ok(found)
            }
        }
    }

    /// The tile entry that is reached from what a directory has for an id, through at most so many leaves; none where
    /// there is none, or a leaf entry is left.
    pub(crate) fn follow<B: Backend, C: DirectoryCache>(
        &self,
        backend: &mut B,
        cache: &mut C,
        found: Option<DirEntry>,
        tile_id: TileId,
        left: u32,
    ) -> PmtResult<Option<DirEntry>>
        requires few { left ≤ 6 }
        ensures way { IfSome (B.told backend.old)
            (λ b. IsTrusted self.now.header b self.now.root (C.held cache.old) (C.idle cache.old)
            → IsAtLevel self.now.header b self.now.root (6 - left) found
            → Follows self.now.header b self.now.root tile_id left found
            (B.reads backend.old) (B.reads backend.new) (C.held cache.new) (C.idle cache.new)
            result) }
        ensures idle { C.idle cache.old → C.idle cache.new }
        ensures limits { (l : CacheLimits) → C.keeps_to cache.old l → C.keeps_to cache.new l }
        ensures causes { LookUpCauses (B.faults backend.old) (B.faults backend.new) result }
        ensures still { FaultsStand (B.faults backend.old) (B.faults backend.new) result }
        ensures whole { IfSome (B.told backend.old) (λ _. IsWhole result) }
        ensures kept { ReadsOnly B.told B.versions B.faults B.steady backend.old backend.new }
        ensures reads { GrewBetween (B.reads backend.old) (B.reads backend.new) 0 left }
    {
        let Some(entry) = found else {
            return Ok(None);
        };
        if !entry.is_leaf() {
            return Ok(Some(entry));
        }
        if left == 0 {
            return Ok(None);
        }
        let next = self.find_in_leaf(backend, cache, entry, tile_id)?;
        self.follow(backend, cache, next, tile_id, left - 1)
    }
}
