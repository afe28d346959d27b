// The metadata of an archive.
ghost use Rattle.std.specs.Prelude.{◌≡◌, IfSome};
ghost use Rattle.pm_reader.specs.Metadata.{IsTextOf, MetadataAnswers, MetadataCauses, metadata_read};
ghost use Rattle.pm_reader.specs.Opening.{header_of};
ghost use Rattle.pm_reader.specs.Reads.{GrewBetween, ReadsOnly};
ghost use Rattle.pm_reader.specs.Tied.{IsTied};
ghost use Rattle.pm_reader.specs.Common.{FaultsStand};

use crate::ranges::read_range;
use crate::{DirectoryCache, PmTilesReader, ReaderState};
use base_values::TextVal;
use pm_format::{Backend, PmtError, PmtResult};
use std::alloc::Global;
use std::str;

impl ReaderState {
    /// The metadata of the archive, as it stands there. `InvalidMetadataUtf8Encoding` comes exactly where it isn't
    /// UTF-8, and `Reading(PastEnd)` where its range passes the end of the bytes or u64.
    pub fn get_metadata<B: Backend>(&self, backend: &mut B) -> PmtResult<TextVal>
        ensures answer { IfSome (B.told backend.old)
            (λ b. MetadataAnswers (metadata_read b (header_of self.now)) result) }
        ensures causes { MetadataCauses (B.faults backend.old) (B.faults backend.new) result }
        ensures still { FaultsStand (B.faults backend.old) (B.faults backend.new) result }
        ensures kept { ReadsOnly B.told B.versions B.faults B.steady backend.old backend.new }
        ensures reads { GrewBetween (B.reads backend.old) (B.reads backend.new) 0 1 }
    {
        match read_range(
            self.alloc,
            backend,
            0,
            self.header.metadata_offset,
            self.header.metadata_length,
        ) {
            Ok(response) => text_of(self.alloc, response.bytes.as_slice()),
            Err(error) => Err(error),
        }
    }
}

// Bytes as a text.
fn text_of(alloc: Global, bytes: &[u8]) -> PmtResult<TextVal>
    ensures { IsTextOf bytes.now result }
{
    let Ok(text) = str::from_utf8(bytes) else {
        return Err(PmtError::InvalidMetadataUtf8Encoding);
    };
    Ok(TextVal::new(String::from_str(alloc, text)?))
}

impl<'a, B: Backend, C: DirectoryCache> PmTilesReader<'a, B, C> {
    /// The metadata of the archive, as it stands there. Refusals are those of `ReaderState::get_metadata`.
    pub fn get_metadata(&mut self) -> PmtResult<TextVal>
        requires tied { IsTied B.told C.held C.idle self.old }
        ensures tied { IsTied B.told C.held C.idle self.new }
        ensures same_reference { self.new.backend.ghost_name ≡ self.old.backend.ghost_name }
        ensures state { self.new.state ≡ self.old.state }
        ensures cache { self.new.cache ≡ self.old.cache }
        ensures answer { IfSome (B.told self.old.backend.now)
            (λ b. MetadataAnswers (metadata_read b (header_of self.new.state)) result) }
        ensures causes { MetadataCauses (B.faults self.old.backend.now)
            (B.faults self.new.backend.now) result }
        ensures still { FaultsStand (B.faults self.old.backend.now)
            (B.faults self.new.backend.now) result }
        ensures kept { ReadsOnly B.told B.versions B.faults B.steady self.old.backend.now
            self.new.backend.now }
        ensures reads { GrewBetween (B.reads self.old.backend.now) (B.reads self.new.backend.now) 0
            1 }
    {
        self.state.get_metadata(self.backend)
    }
}
