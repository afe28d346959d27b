// Tiles by the state of a reader, over a backend that isn't borrowed any longer than the call.
ghost use Rattle.std.specs.Prelude.{◌≡◌, IfSome};
ghost use Rattle.pm_reader.specs.Common.{archive_tile, FaultsStand};
ghost use Rattle.pm_reader.specs.Answers.{IsWhole};
ghost use Rattle.pm_reader.specs.Archives.{IsCacheable, ReadsByHops};
ghost use Rattle.pm_reader.specs.Caches.{CacheLimits};
ghost use Rattle.pm_reader.specs.Opening.{IsOpen, header_of, version_of};
ghost use Rattle.pm_reader.specs.Reads.{GrewBetween, ReadsOnly, reads_for};
ghost use Rattle.pm_reader.specs.ReadsFrom.{ReadsFrom};
ghost use Rattle.pm_reader.specs.Versions.{ComparesTexts, GivesUnmodified, PlainCauses, UnmodifiedCauses, plain};

use crate::{DirectoryCache, NoCache, ReaderState};
use bytes::Bytes;
use pm_format::{Backend, Compression, PmtError, PmtResult};
use tile_ids::TileId;

impl ReaderState {
    /// The contents of a tile, as `get_tile_unversioned` gives them, and `SourceModified` in place of a tile with the
    /// version text of the opening and that of this read. Where the backend tells its texts, this refusal comes for a
    /// tile exactly where both were given and differ.
    pub fn get_tile<B: Backend>(&self, backend: &mut B, tile_id: TileId) -> PmtResult<Option<Bytes>>
        requires open { IsOpen (B.told backend.old) self.now }
        ensures open { IsOpen (B.told backend.new) self.now }
        ensures answer { IfSome (B.told backend.old)
            (λ b. GivesUnmodified (archive_tile b tile_id) (archive_tile b tile_id) result) }
        ensures text { ComparesTexts (version_of self.now) (B.versions backend.new)
            (B.reads backend.new) result }
        ensures causes { UnmodifiedCauses (B.faults backend.old) (B.faults backend.new) result }
        ensures still { FaultsStand (B.faults backend.old) (B.faults backend.new) result }
        ensures whole { IfSome (B.told backend.old) (λ _. IsWhole result) }
        ensures hops { IfSome (B.told backend.old)
            (λ b. ReadsByHops b tile_id (B.reads backend.old) (B.reads backend.new)) }
        ensures reads { GrewBetween (B.reads backend.old) (B.reads backend.new) (reads_for result)
            7 }
        ensures kept { ReadsOnly B.told B.versions B.faults B.steady backend.old backend.new }
    {
        let mut cache = NoCache;
        self.find_unmodified(backend, &mut cache, tile_id)
    }

    /// The same, with a cache, which holds leaves of this archive alone. It changes no answer where it is idle, or each
    /// leaf offset of the archive is used with one length.
    pub fn get_unmodified_tile<B: Backend, C: DirectoryCache>(
        &self,
        backend: &mut B,
        cache: &mut C,
        tile_id: TileId,
    ) -> PmtResult<Option<Bytes>>
        requires from { IfSome (B.told backend.old)
            (λ b. ReadsFrom b self.now (C.held cache.old) (C.idle cache.old)) }
        ensures from { IfSome (B.told backend.new)
            (λ b. ReadsFrom b self.now (C.held cache.new) (C.idle cache.new)) }
        ensures answer { IfSome (B.told backend.old)
            (λ b. IsCacheable b (C.idle cache.old)
            → GivesUnmodified (archive_tile b tile_id) (archive_tile b tile_id) result) }
        ensures text { ComparesTexts (version_of self.now) (B.versions backend.new)
            (B.reads backend.new) result }
        ensures causes { UnmodifiedCauses (B.faults backend.old) (B.faults backend.new) result }
        ensures still { FaultsStand (B.faults backend.old) (B.faults backend.new) result }
        ensures whole { IfSome (B.told backend.old) (λ _. IsWhole result) }
        ensures hops { IfSome (B.told backend.old)
            (λ b. IsCacheable b (C.idle cache.old)
            → ReadsByHops b tile_id (B.reads backend.old) (B.reads backend.new)) }
        ensures idle { C.idle cache.old → C.idle cache.new }
        ensures limits { (l : CacheLimits) → C.keeps_to cache.old l → C.keeps_to cache.new l }
        ensures reads { GrewBetween (B.reads backend.old) (B.reads backend.new) (reads_for result)
            7 }
        ensures kept { ReadsOnly B.told B.versions B.faults B.steady backend.old backend.new }
    {
        self.find_unmodified(backend, cache, tile_id)
    }

    /// A tile as `get_tile` gives it, and `UnsupportedCompression` for one that is found exactly where
    /// tiles aren't labelled `None`.
    pub fn get_tile_decompressed<B: Backend>(
        &self,
        backend: &mut B,
        tile_id: TileId,
    ) -> PmtResult<Option<Bytes>>
        requires open { IsOpen (B.told backend.old) self.now }
        ensures open { IsOpen (B.told backend.new) self.now }
        ensures answer { IfSome (B.told backend.old)
            (λ b. GivesUnmodified (archive_tile b tile_id)
            (plain (header_of self.now).tile_compression (archive_tile b tile_id)) result) }
        ensures text { ComparesTexts (version_of self.now) (B.versions backend.new)
            (B.reads backend.new) result }
        ensures causes { PlainCauses (header_of self.now).tile_compression (B.faults backend.old)
            (B.faults backend.new) result }
        ensures still { FaultsStand (B.faults backend.old) (B.faults backend.new) result }
        ensures whole { IfSome (B.told backend.old) (λ _. IsWhole result) }
        ensures hops { IfSome (B.told backend.old)
            (λ b. ReadsByHops b tile_id (B.reads backend.old) (B.reads backend.new)) }
        ensures reads { GrewBetween (B.reads backend.old) (B.reads backend.new) (reads_for result)
            7 }
        ensures kept { ReadsOnly B.told B.versions B.faults B.steady backend.old backend.new }
    {
        let found = self.get_tile(backend, tile_id);
        require_plain(self.header.tile_compression, found)
    }
}

/// What was found, where it is to be plain.
pub(crate) fn require_plain(
    label: Compression,
    found: PmtResult<Option<Bytes>>,
) -> PmtResult<Option<Bytes>>
    ensures { result ≡ plain label found }
{
    match found {
        Ok(Some(bytes)) => {
            if label != Compression::None {
                return Err(PmtError::UnsupportedCompression(label));
            }
            Ok(Some(bytes))
        }
        Ok(None) => Ok(None),
        Err(error) => Err(error),
    }
}
