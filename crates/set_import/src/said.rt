// What an archive says of itself.
ghost use Rattle.std.specs.Prelude.{◌≡◌, ◌≤◌, ◌+◌, IfErr, IfOk, IfSome, OnOk};
ghost use Rattle.set_import.specs.Common.{GrewBetween, IsWithoutFloat, metadata_read, ReadsOnly};
ghost use Rattle.pm_reader.specs.Opening.{header_of};
ghost use Rattle.pm_reader.specs.TileJson.{DocumentCauses};
ghost use Rattle.set_import.specs.Said.{DocumentAnswers, IsDocumentBy, SaidAnswers, SaidCauses};

use pm_format::{Backend, Header, PmtError, PmtResult};
use pm_reader::ReaderState;
use set_options::document_of_archive;
use std::alloc::Global;
use tile_import::{ImportError, of_reader};
use tile_json::{DocumentError, TileJson};

// The document of a header and a text.
fn document_by(alloc: Global, header: &Header, metadata: &str) -> PmtResult<TileJson>
    ensures document { IsDocumentBy header.now metadata.now result }
    ensures whole { IfOk result IsWithoutFloat }
{
    match document_of_archive(alloc, header, metadata) {
        Ok(document) => Ok(document),
        Err(DocumentError::Invalid) => Err(PmtError::InvalidMetadata),
        Err(DocumentError::OutOfMemory) => Err(PmtError::OutOfMemory),
    }
}

// The document of an archive that is open.
fn document_of<B: Backend>(
    alloc: Global,
    reader: &ReaderState,
    backend: &mut B,
) -> PmtResult<TileJson>
    ensures answer { IfSome (B.told backend.old) (λ b. DocumentAnswers (header_of reader.now)
        (metadata_read b (header_of reader.now)) result) }
    ensures causes { DocumentCauses (B.faults backend.old) (B.faults backend.new) result }
    ensures whole { IfOk result IsWithoutFloat }
    ensures kept { ReadsOnly B.told B.versions B.faults B.steady backend.old backend.new }
    ensures still { OnOk result (B.faults backend.new ≡ B.faults backend.old) }
    ensures reads { GrewBetween (B.reads backend.old) (B.reads backend.new) 0 1 }
{
    match reader.get_metadata(backend) {
        Ok(metadata) => document_by(alloc, reader.get_header(), metadata.as_str()),
        Err(error) => Err(error),
    }
}

/// Opens an archive, and reads what it says of itself. The first of these that holds is answered, within
/// `Archive`: the refusal of opening; that of the metadata's range and of its UTF-8; `InvalidMetadata` where it
/// isn't an object of JSON.
pub(crate) fn said_document<B: Backend>(
    alloc: Global,
    backend: &mut B,
) -> Result<TileJson, ImportError>
    ensures answer { IfSome (B.told backend.old) (λ b. SaidAnswers b result) }
    ensures causes { IfErr result (SaidCauses (B.faults backend.old) (B.faults backend.new)) }
    ensures whole { IfOk result IsWithoutFloat }
    ensures kept { ReadsOnly B.told B.versions B.faults B.steady backend.old backend.new }
    ensures still { OnOk result (B.faults backend.new ≡ B.faults backend.old) }
    ensures reads { B.reads backend.new ≤ B.reads backend.old + 2 }
{
    let reader = match ReaderState::open(alloc, backend) {
        Ok(reader) => reader,
        Err(error) => return Err(of_reader(error)),
    };
    match document_of(alloc, &reader, backend) {
        Ok(document) => Ok(document),
        Err(error) => Err(of_reader(error)),
    }
}
