// The document that an archive says of itself.
ghost use Rattle.std.specs.Prelude.{◌≡◌, IfSome};
ghost use Rattle.pm_format.specs.TileJson.{tilejson_of};
ghost use Rattle.pm_reader.specs.Common.{tilejson_in, FaultsStand};
ghost use Rattle.pm_reader.specs.Metadata.{metadata_read};
ghost use Rattle.pm_reader.specs.Opening.{header_of};
ghost use Rattle.pm_reader.specs.Reads.{GrewBetween, ReadsOnly};
ghost use Rattle.pm_reader.specs.Tied.{IsTied};
ghost use Rattle.pm_reader.specs.TileJson.{DocumentAnswers, DocumentCauses, IsDocumentOf};

use crate::{DirectoryCache, PmTilesReader, ReaderState};
use base_values::TextVal;
use pm_format::{Backend, PmtError, PmtResult};
use tile_json::{DocumentError, TileJson};

impl ReaderState {
    /// What the archive says of itself: `Header::get_tilejson` of these sources, with what the metadata says. Refusals
    /// are those of `get_metadata`, and `InvalidMetadata` exactly where `TileJson::with_metadata` refuses the text.
    pub fn parse_tilejson<B: Backend>(
        &self,
        backend: &mut B,
        sources: Vec<TextVal>,
    ) -> PmtResult<TileJson>
        ensures answer { IfSome (B.told backend.old)
            (λ b. DocumentAnswers (metadata_read b (header_of self.now))
            (tilejson_of (header_of self.now) sources.items) result) }
        ensures causes { DocumentCauses (B.faults backend.old) (B.faults backend.new) result }
        ensures still { FaultsStand (B.faults backend.old) (B.faults backend.new) result }
        ensures kept { ReadsOnly B.told B.versions B.faults B.steady backend.old backend.new }
        ensures reads { GrewBetween (B.reads backend.old) (B.reads backend.new) 0 1 }
    {
        match self.get_metadata(backend) {
            Ok(metadata) => self.document_of(sources, metadata.as_str()),
            Err(error) => Err(error),
        }
    }

    // The document of the header and these sources, with what a text says.
    fn document_of(&self, sources: Vec<TextVal>, metadata: &str) -> PmtResult<TileJson>
        ensures { IsDocumentOf (tilejson_in (tilejson_of (header_of self.now) sources.items)
            metadata.now) result }
    {
        let document = self.header.get_tilejson(self.alloc, sources);
        match document.with_metadata(self.alloc, metadata) {
            Ok(document) => Ok(document),
            Err(DocumentError::Invalid) => Err(PmtError::InvalidMetadata),
            Err(DocumentError::OutOfMemory) => Err(PmtError::OutOfMemory),
        }
    }
}

impl<'a, B: Backend, C: DirectoryCache> PmTilesReader<'a, B, C> {
    /// What the archive says of itself. Refusals are those of `ReaderState::parse_tilejson`.
    pub fn parse_tilejson(&mut self, sources: Vec<TextVal>) -> PmtResult<TileJson>
        requires tied { IsTied B.told C.held C.idle self.old }
        ensures tied { IsTied B.told C.held C.idle self.new }
        ensures same_reference { self.new.backend.ghost_name ≡ self.old.backend.ghost_name }
        ensures state { self.new.state ≡ self.old.state }
        ensures cache { self.new.cache ≡ self.old.cache }
        ensures answer { IfSome (B.told self.old.backend.now)
            (λ b. DocumentAnswers (metadata_read b (header_of self.new.state))
            (tilejson_of (header_of self.new.state) sources.items) result) }
        ensures causes { DocumentCauses (B.faults self.old.backend.now)
            (B.faults self.new.backend.now) result }
        ensures still { FaultsStand (B.faults self.old.backend.now)
            (B.faults self.new.backend.now) result }
        ensures kept { ReadsOnly B.told B.versions B.faults B.steady self.old.backend.now
            self.new.backend.now }
        ensures reads { GrewBetween (B.reads self.old.backend.now) (B.reads self.new.backend.now) 0
            1 }
    {
        self.state.parse_tilejson(self.backend, sources)
    }
}
