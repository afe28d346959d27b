// Parts of an archive at given places: directories of the leaf part, and contents of the data part.
ghost use Rattle.std.specs.Prelude.{◌≡◌, ◌+◌, IfSome};
ghost use Rattle.pm_reader.specs.Common.{directory_at, FaultsStand};
ghost use Rattle.pm_reader.specs.Answers.{Gives, IsWhole, LookUpCauses, RangeCauses, range_read};
ghost use Rattle.pm_reader.specs.Opening.{header_of};
ghost use Rattle.pm_reader.specs.Reads.{GrewBetween, ReadsOnly, reads_done};
ghost use Rattle.pm_reader.specs.Tied.{IsTied};

use crate::ranges::read_range;
use crate::{DirectoryCache, PmTilesReader, ReaderState};
use bytes::Bytes;
use pm_format::{Backend, Directory, Header, PmtResult};
use std::alloc::Global;

/// The directory at a place of the leaf part. `Reading(PastEnd)` comes where its range passes the end of the bytes or
/// u64, and `InvalidEntry` where no front of it is a directory.
pub(crate) fn read_directory_at<B: Backend>(
    alloc: Global,
    backend: &mut B,
    header: &Header,
    offset: u64,
    length: u32,
) -> PmtResult<Directory>
    ensures answer { IfSome (B.told backend.old)
        (λ b. Gives (directory_at header.now b offset length) result) }
    ensures causes { LookUpCauses (B.faults backend.old) (B.faults backend.new) result }
    ensures still { FaultsStand (B.faults backend.old) (B.faults backend.new) result }
    ensures whole { IfSome (B.told backend.old) (λ _. IsWhole result) }
    ensures kept { ReadsOnly B.told B.versions B.faults B.steady backend.old backend.new }
    ensures reads { GrewBetween (B.reads backend.old) (B.reads backend.new) (reads_done result) 1 }
{
    let bytes = u64::from(length);
    let response = read_range(alloc, backend, header.leaf_offset, offset, bytes)?;
    Directory::decode(alloc, response.bytes.as_slice())
}

impl ReaderState {
    /// The directory at this offset of the leaf part, in so many bytes; what follows it there is ignored. It is read by
    /// one call at most, without a cache.
    ///
    /// `Reading(PastEnd)` comes exactly where the range passes the end of the bytes or u64, and `InvalidEntry`
    /// exactly where no front of its bytes is a directory. `UnexpectedNumberOfBytesReturned` comes only over a
    /// backend that tells no bytes, and `Reading(Fault)` only where the backend's count of faults rose.
    /// Version texts aren't compared.
    pub fn read_directory<B: Backend>(
        &self,
        backend: &mut B,
        offset: u64,
        length: u32,
    ) -> PmtResult<Directory>
        ensures answer { IfSome (B.told backend.old)
            (λ b. Gives (directory_at (header_of self.now) b offset length) result) }
        ensures causes { LookUpCauses (B.faults backend.old) (B.faults backend.new) result }
        ensures still { FaultsStand (B.faults backend.old) (B.faults backend.new) result }
        ensures kept { ReadsOnly B.told B.versions B.faults B.steady backend.old backend.new }
        ensures reads { GrewBetween (B.reads backend.old) (B.reads backend.new) (reads_done result)
            1 }
    {
        read_directory_at(self.alloc, backend, &self.header, offset, length)
    }

    /// So many bytes at this offset of the data part, cut from what was read by one call at most. No bytes at a place
    /// test that the archive reaches to it.
    ///
    /// `Reading(PastEnd)` comes exactly where the range passes the end of the bytes or u64.
    /// `UnexpectedNumberOfBytesReturned` comes only over a backend that tells no bytes, and `Reading(Fault)` only where
    /// the backend's count of faults rose. Version texts aren't compared.
    pub fn read_contents<B: Backend>(
        &self,
        backend: &mut B,
        offset: u64,
        length: u32,
    ) -> PmtResult<Bytes>
        ensures answer { IfSome (B.told backend.old)
            (λ b. Gives (range_read b ((header_of self.now).data_offset + offset) length) result) }
        ensures causes { RangeCauses (B.faults backend.old) (B.faults backend.new) result }
        ensures still { FaultsStand (B.faults backend.old) (B.faults backend.new) result }
        ensures kept { ReadsOnly B.told B.versions B.faults B.steady backend.old backend.new }
        ensures reads { GrewBetween (B.reads backend.old) (B.reads backend.new) (reads_done result)
            1 }
    {
        let bytes = u64::from(length);
        match read_range(self.alloc, backend, self.header.data_offset, offset, bytes) {
            Ok(response) => Ok(response.bytes),
            Err(error) => Err(error),
        }
    }
}

impl<'a, B: Backend, C: DirectoryCache> PmTilesReader<'a, B, C> {
    /// The directory at this offset of the leaf part, in so many bytes. Refusals are those of
    /// `ReaderState::read_directory`.
    pub fn read_directory(&mut self, offset: u64, length: u32) -> PmtResult<Directory>
        requires tied { IsTied B.told C.held C.idle self.old }
        ensures tied { IsTied B.told C.held C.idle self.new }
        ensures same_reference { self.new.backend.ghost_name ≡ self.old.backend.ghost_name }
        ensures state { self.new.state ≡ self.old.state }
        ensures cache { self.new.cache ≡ self.old.cache }
        ensures answer { IfSome (B.told self.old.backend.now)
            (λ b. Gives (directory_at (header_of self.new.state) b offset length) result) }
        ensures causes { LookUpCauses (B.faults self.old.backend.now)
            (B.faults self.new.backend.now) result }
        ensures still { FaultsStand (B.faults self.old.backend.now)
            (B.faults self.new.backend.now) result }
        ensures kept { ReadsOnly B.told B.versions B.faults B.steady self.old.backend.now
            self.new.backend.now }
        ensures reads { GrewBetween (B.reads self.old.backend.now) (B.reads self.new.backend.now)
            (reads_done result) 1 }
    {
        self.state.read_directory(self.backend, offset, length)
    }

    /// So many bytes at this offset of the data part. Refusals are those of `ReaderState::read_contents`.
    pub fn read_contents(&mut self, offset: u64, length: u32) -> PmtResult<Bytes>
        requires tied { IsTied B.told C.held C.idle self.old }
        ensures tied { IsTied B.told C.held C.idle self.new }
        ensures same_reference { self.new.backend.ghost_name ≡ self.old.backend.ghost_name }
        ensures state { self.new.state ≡ self.old.state }
        ensures cache { self.new.cache ≡ self.old.cache }
        ensures answer { IfSome (B.told self.old.backend.now)
            (λ b. Gives (range_read b ((header_of self.new.state).data_offset + offset) length)
            result) }
        ensures causes { RangeCauses (B.faults self.old.backend.now) (B.faults self.new.backend.now)
            result }
        ensures still { FaultsStand (B.faults self.old.backend.now)
            (B.faults self.new.backend.now) result }
        ensures kept { ReadsOnly B.told B.versions B.faults B.steady self.old.backend.now
            self.new.backend.now }
        ensures reads { GrewBetween (B.reads self.old.backend.now) (B.reads self.new.backend.now)
            (reads_done result) 1 }
    {
        self.state.read_contents(self.backend, offset, length)
    }
}
