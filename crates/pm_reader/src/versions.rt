// Tiles whose version text is compared with that of the opening.
ghost use Rattle.std.specs.Prelude.{◌≡◌, IfSome};
ghost use Rattle.pm_reader.specs.Answers.{IsWhole};
ghost use Rattle.pm_reader.specs.Caches.{CacheLimits};
ghost use Rattle.pm_reader.specs.Levels.{IsTrusted};
ghost use Rattle.pm_reader.specs.Opening.{version_of};
ghost use Rattle.pm_reader.specs.Reads.{GrewBetween, ReadsOnly, reads_for};
ghost use Rattle.pm_reader.specs.Versions.{ComparesTexts, IsCompared, UnmodifiedCauses};
ghost use Rattle.pm_reader.specs.Way.{FindsUnmodified};
ghost use Rattle.pm_reader.specs.Common.{FaultsStand};

use crate::{DirectoryCache, ReaderState};
use bytes::Bytes;
use pm_format::{Backend, BackendResponse, PmtError, PmtResult};
use tile_ids::TileId;

impl ReaderState {
    // The bytes of a response, where its version text isn't another than that of the opening.
    fn compare(&self, response: BackendResponse) -> PmtResult<Bytes>
        ensures { IsCompared (version_of self.now) response result }
    {
        let BackendResponse {
            bytes,
            data_version_string: version,
        } = response;
        let (Some(opened), Some(read)) = (&self.version, version) else {
            return Ok(bytes);
        };
        if opened.as_str() == read.as_str() {
            return Ok(bytes);
        }
        Err(PmtError::SourceModified {
            opened: opened.try_clone(self.alloc)?,
            read,
        })
    }

    /// The contents of a tile, `SourceModified` in place of one where both version texts were given and differ;
    /// none where there is no tile.
    pub(crate) fn find_unmodified<B: Backend, C: DirectoryCache>(
        &self,
        backend: &mut B,
        cache: &mut C,
        tile_id: TileId,
    ) -> PmtResult<Option<Bytes>>
        ensures found { IfSome (B.told backend.old)
            (λ b. IsTrusted self.now.header b self.now.root (C.held cache.old) (C.idle cache.old)
            → FindsUnmodified self.now.header b self.now.root tile_id
            (B.reads backend.old) (B.reads backend.new) (C.held cache.new) (C.idle cache.new)
            result) }
        ensures text { ComparesTexts (version_of self.now) (B.versions backend.new)
            (B.reads backend.new) result }
        ensures idle { C.idle cache.old → C.idle cache.new }
        ensures limits { (l : CacheLimits) → C.keeps_to cache.old l → C.keeps_to cache.new l }
        ensures causes { UnmodifiedCauses (B.faults backend.old) (B.faults backend.new) result }
        ensures still { FaultsStand (B.faults backend.old) (B.faults backend.new) result }
        ensures whole { IfSome (B.told backend.old) (λ _. IsWhole result) }
        ensures kept { ReadsOnly B.told B.versions B.faults B.steady backend.old backend.new }
        ensures reads { GrewBetween (B.reads backend.old) (B.reads backend.new) (reads_for result)
            7 }
    {
        match self.find_tile(backend, cache, tile_id) {
            Ok(None) => Ok(None),
            Ok(Some(response)) => match self.compare(response) {
                Ok(bytes) => Ok(Some(bytes)),
                Err(error) => Err(error),
            },
            Err(error) => Err(error),
        }
    }
}
