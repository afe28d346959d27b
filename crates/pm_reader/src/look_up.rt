// Look-ups of tiles.
ghost use Rattle.std.specs.Prelude.{◌≡◌, IfSome};
ghost use Rattle.pm_reader.specs.Common.{archive_tile, FaultsStand};
ghost use Rattle.pm_reader.specs.Answers.{FoundTextAt, Gives, IsWhole, LookUpCauses, contents_of, tile_of};
ghost use Rattle.pm_reader.specs.Archives.{IsCacheable, ReadsByHops};
ghost use Rattle.pm_reader.specs.Caches.{CacheLimits};
ghost use Rattle.pm_reader.specs.Levels.{IsTrusted};
ghost use Rattle.pm_reader.specs.Opening.{IsOpen};
ghost use Rattle.pm_reader.specs.Reads.{GrewBetween, ReadsOnly, reads_for};
ghost use Rattle.pm_reader.specs.ReadsFrom.{ReadsFrom};
ghost use Rattle.pm_reader.specs.Way.{Finds};

use crate::ranges::read_range;
use crate::{DirectoryCache, NoCache, ReaderState};
use bytes::Bytes;
use pm_format::{Backend, BackendResponse, PmtResult};
use tile_ids::TileId;

/// How many leaves may lead to a tile: through so many it is looked for, and walks go so deep.
pub const MAX_LEAVES: u32 = 6;

impl ReaderState {
    /// The contents of a tile, with the version text of their read; none where there is no tile.
    pub(crate) fn find_tile<B: Backend, C: DirectoryCache>(
        &self,
        backend: &mut B,
        cache: &mut C,
        tile_id: TileId,
    ) -> PmtResult<Option<BackendResponse>>
        ensures found { IfSome (B.told backend.old)
            (λ b. IsTrusted self.now.header b self.now.root (C.held cache.old) (C.idle cache.old)
            → Finds self.now.header b self.now.root tile_id
            (B.reads backend.old) (B.reads backend.new) (C.held cache.new) (C.idle cache.new)
            (tile_of result)) }
        ensures text { FoundTextAt (B.versions backend.new) (B.reads backend.new) result }
        ensures idle { C.idle cache.old → C.idle cache.new }
        ensures limits { (l : CacheLimits) → C.keeps_to cache.old l → C.keeps_to cache.new l }
        ensures causes { LookUpCauses (B.faults backend.old) (B.faults backend.new) result }
        ensures still { FaultsStand (B.faults backend.old) (B.faults backend.new) result }
        ensures whole { IfSome (B.told backend.old) (λ _. IsWhole result) }
        ensures kept { ReadsOnly B.told B.versions B.faults B.steady backend.old backend.new }
        ensures reads { GrewBetween (B.reads backend.old) (B.reads backend.new)
            (reads_for (tile_of result)) 7 }
    {
        let found = self.root.find_tile_id(tile_id).copied();
        let reached = self.follow(backend, cache, found, tile_id, MAX_LEAVES)?;
        let Some(entry) = reached else {
            return Ok(None);
        };
        let length = u64::from(entry.length());
        let response = read_range(
            self.alloc,
            backend,
            self.header.data_offset,
            entry.offset(),
            length,
        )?;
        Ok(Some(response))
    }
}

impl ReaderState {
    /// The contents of a tile, cut from what was read; none where there is no tile. A leaf that doesn't decode is
    /// `InvalidEntry`. A range past the end of the bytes or u64 is `Reading(PastEnd)`.
    /// `UnexpectedNumberOfBytesReturned` comes only over a backend that tells no bytes, and `Reading(Fault)` only where
    /// the backend's count of faults rose. Version texts aren't compared. The backend is to be the one that was opened.
    pub fn get_tile_unversioned<B: Backend>(
        &self,
        backend: &mut B,
        tile_id: TileId,
    ) -> PmtResult<Option<Bytes>>
        requires open { IsOpen (B.told backend.old) self.now }
        ensures open { IsOpen (B.told backend.new) self.now }
        ensures answer { IfSome (B.told backend.old) (λ b. Gives (archive_tile b tile_id) result) }
        ensures causes { LookUpCauses (B.faults backend.old) (B.faults backend.new) result }
        ensures still { FaultsStand (B.faults backend.old) (B.faults backend.new) result }
        ensures whole { IfSome (B.told backend.old) (λ _. IsWhole result) }
        ensures hops { IfSome (B.told backend.old)
            (λ b. ReadsByHops b tile_id (B.reads backend.old) (B.reads backend.new)) }
        ensures reads { GrewBetween (B.reads backend.old) (B.reads backend.new) (reads_for result)
            7 }
        ensures kept { ReadsOnly B.told B.versions B.faults B.steady backend.old backend.new }
    {
        let mut cache = NoCache;
        match self.find_tile(backend, &mut cache, tile_id) {
            Ok(found) => Ok(contents(found)),
            Err(error) => Err(error),
        }
    }

    /// The same, with a cache, which holds leaves of this archive alone. It changes no answer where it is idle, or each
    /// leaf offset of the archive is used with one length.
    pub fn get_cached_tile<B: Backend, C: DirectoryCache>(
        &self,
        backend: &mut B,
        cache: &mut C,
        tile_id: TileId,
    ) -> PmtResult<Option<Bytes>>
        requires from { IfSome (B.told backend.old)
            (λ b. ReadsFrom b self.now (C.held cache.old) (C.idle cache.old)) }
        ensures from { IfSome (B.told backend.new)
            (λ b. ReadsFrom b self.now (C.held cache.new) (C.idle cache.new)) }
        ensures answer { IfSome (B.told backend.old)
            (λ b. IsCacheable b (C.idle cache.old) → Gives (archive_tile b tile_id) result) }
        ensures hops { IfSome (B.told backend.old)
            (λ b. IsCacheable b (C.idle cache.old)
            → ReadsByHops b tile_id (B.reads backend.old) (B.reads backend.new)) }
        ensures idle { C.idle cache.old → C.idle cache.new }
        ensures limits { (l : CacheLimits) → C.keeps_to cache.old l → C.keeps_to cache.new l }
        ensures causes { LookUpCauses (B.faults backend.old) (B.faults backend.new) result }
        ensures still { FaultsStand (B.faults backend.old) (B.faults backend.new) result }
        ensures whole { IfSome (B.told backend.old) (λ _. IsWhole result) }
        ensures reads { GrewBetween (B.reads backend.old) (B.reads backend.new) (reads_for result)
            7 }
        ensures kept { ReadsOnly B.told B.versions B.faults B.steady backend.old backend.new }
    {
        match self.find_tile(backend, cache, tile_id) {
            Ok(found) => Ok(contents(found)),
            Err(error) => Err(error),
        }
    }
}

// The bytes of a tile that was found.
fn contents(found: Option<BackendResponse>) -> Option<Bytes>
    ensures { result ≡ contents_of found }
{
    match found {
        Some(response) => Some(response.bytes),
        None => None,
    }
}
