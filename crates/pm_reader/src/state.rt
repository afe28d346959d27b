// The state of a reader: all that it owns, beside the backend that it borrows.
ghost use Rattle.std.specs.Prelude.{◌≡◌, IfSome, IfOk, take};
ghost use Rattle.pm_reader.specs.Common.{Grew, FaultsStand};
ghost use Rattle.pm_reader.specs.Reads.{ReadsOnly};
ghost use Rattle.pm_reader.specs.Opening.{FrontCauses, HasVersionOf, IsOpen, OpenAnswers, OpenCauses, header_of, root_of};

use crate::front::open_front;
use base_values::TextVal;
use pm_format::{Backend, BackendResponse, Directory, Header, PmtError, PmtResult};
use std::alloc::Global;

/// How many bytes of an archive are read when it is opened: the header and the root lie in them.
pub(crate) const FRONT: usize = 16_384;

/// What a reader owns beside the backend that it borrows: the header, the root, and the version text that the backend
/// gave when they were read.
#[derive(Drop)]
pub struct ReaderState {
    pub(crate) alloc: Global,
    pub(crate) header: Header,
    pub(crate) root: Directory,
    pub(crate) version: Option<TextVal>,
}

impl ReaderState {
    /// Opens the archive of a backend, without borrowing it any longer: reads its first 16,384 bytes once, and takes
    /// the header and the root from them.
    ///
    /// The first of these that holds is answered: `Reading(Fault)`, which comes only where the backend's count of
    /// faults rose; `InvalidHeader` for fewer than 127 bytes; the refusals of `Header::try_from_bytes`; `InvalidHeader`
    /// for a root that begins before byte 127 or ends past the bytes read; `UnsupportedCompression` for directories
    /// that aren't labelled `None`; `InvalidEntry` for a root that doesn't decode.
    pub fn open<B: Backend>(alloc: Global, backend: &mut B) -> PmtResult<ReaderState>
        ensures answer { IfSome (B.told backend.old) (λ b. OpenAnswers b result) }
        ensures open { IfOk result (λ s. IsOpen (B.told backend.new) s) }
        ensures causes { OpenCauses (B.faults backend.old) (B.faults backend.new) result }
        ensures still { FaultsStand (B.faults backend.old) (B.faults backend.new) result }
        ensures version { IfOk result
            (λ s. HasVersionOf (B.versions backend.new) (B.reads backend.new) s) }
        ensures kept { ReadsOnly B.told B.versions B.faults B.steady backend.old backend.new }
        ensures reads { Grew (B.reads backend.old) (B.reads backend.new) 1 }
    {
        let response = read_front(alloc, backend)?;
        let BackendResponse {
            bytes,
            data_version_string: version,
        } = response;
        let (header, root) = open_front(alloc, bytes.as_slice())?;
        Ok(ReaderState {
            alloc,
            header,
            root,
            version,
        })
    }

    /// The header of the archive.
    pub fn get_header(&self) -> &Header
        ensures { result.now ≡ header_of self.now }
    {
        &self.header
    }

    /// The entries of the root, in order of ids.
    pub fn root(&self) -> &Directory
        ensures { result.now ≡ root_of self.now }
    {
        &self.root
    }
}

// The first bytes of a backend.
fn read_front<B: Backend>(alloc: Global, backend: &mut B) -> PmtResult<BackendResponse>
    ensures answer { IfSome (B.told backend.old) (λ b. IfOk result (λ r. r.bytes ≡ take 16384 b)) }
    ensures causes { FrontCauses (B.faults backend.old) (B.faults backend.new) result }
    ensures still { FaultsStand (B.faults backend.old) (B.faults backend.new) result }
    ensures version { IfSome (B.versions backend.old)
        (λ text. IfOk result (λ r. r.data_version_string ≡ text (B.reads backend.new))) }
    ensures kept { ReadsOnly B.told B.versions B.faults B.steady backend.old backend.new }
    ensures reads { Grew (B.reads backend.old) (B.reads backend.new) 1 }
{
    match backend.read(alloc, 0, FRONT as u64) {
        Ok(response) => Ok(response),
        Err(fault) => Err(PmtError::from(fault)),
    }
}
