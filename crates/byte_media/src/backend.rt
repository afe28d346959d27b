// What is read from: bytes at places. An object may tell what it holds, and counts its faults and reads.
ghost use Rattle.std.specs.Prelude.{◌≡◌, ℕ, List, IfSome, Some, None};
ghost use Rattle.byte_media.specs.Common.{Grew, Option};
ghost use Rattle.byte_media.specs.Kept.{ReadsOnly};
ghost use Rattle.byte_media.specs.Media.{FaultsStand, ReadAnswers, ReadExactAnswers, HasVersion, ReadCauses, ReadExactCauses};

use base_values::{OutOfMemory, TextVal};
use bytes::Bytes;
use std::alloc::{AllocError, AllocFailed, Global};
use thiserror::Error;

/// What a read gives: its bytes, and the version text of the data where the backend has one.
#[derive(Drop)]
pub struct BackendResponse {
    /// The bytes.
    pub bytes: Bytes,
    /// The version of the data that they come from.
    pub data_version_string: Option<TextVal>,
}

impl BackendResponse {
    /// The response without a version text.
    pub fn new(bytes: Bytes) -> BackendResponse
        ensures bytes { result.bytes ≡ bytes }
        ensures version { result.data_version_string ≡ None }
    {
        BackendResponse {
            bytes,
            data_version_string: None,
        }
    }

    /// The response with this version text.
    pub fn new_with_version(bytes: Bytes, version: TextVal) -> BackendResponse
        ensures bytes { result.bytes ≡ bytes }
        ensures version { result.data_version_string ≡ Some version }
    {
        BackendResponse {
            bytes,
            data_version_string: Some(version),
        }
    }
}

/// Why a read gave nothing.
#[derive(Clone, Copy, Debug, PartialEq, Eq, Error)]
pub enum ReadFault {
    /// The backend failed, and its count of faults rose.
    #[error("read fault")]
    Fault,
    /// The range passes the end of the bytes.
    #[error("past the end")]
    PastEnd,
    /// Fewer or more bytes came than were asked for.
    #[error("asked for {asked} bytes, got {got}")]
    Short { asked: u64, got: u64 },
    /// Memory ran out.
    #[error("out of memory")]
    OutOfMemory,
}

/// An object that bytes are read from at places.
pub trait Backend {
    /// The bytes, where the object tells them.
    ghost told: { Self → Option (List ℕ) };

    /// The version text of each read by its number, where the object tells them.
    ghost versions: { Self → Option (ℕ → Option (List ℕ)) };

    /// How often the object has failed. It never falls. A call that answers Ok leaves it as it was, and so does a read
    /// that answers `PastEnd` or `Short`.
    ghost faults: { Self → ℕ };

    /// How many reads there were.
    ghost reads: { Self → ℕ };

    /// No call from here on fails.
    ghost steady: { Self → Type 0 };

    /// The bytes from a place, as many as asked and there.
    fn read(
        &mut self,
        alloc: Global,
        offset: u64,
        length: u64,
    ) -> Result<BackendResponse, ReadFault>
        ensures answer { IfSome (told self.old) (λ bytes. ReadAnswers bytes offset length result) }
        ensures causes { ReadCauses (faults self.old) (faults self.new) offset length result }
        ensures still { FaultsStand (faults self.old) (faults self.new) result }
        ensures version { IfSome (versions self.old) (HasVersion result (reads self.new)) }
        ensures reads { Grew (reads self.old) (reads self.new) 1 }
        ensures kept { ReadsOnly told versions faults steady self.old self.new };

    /// Exactly the range that is asked.
    fn read_exact(
        &mut self,
        alloc: Global,
        offset: u64,
        length: u64,
    ) -> Result<BackendResponse, ReadFault>
        ensures answer { IfSome (told self.old)
            (λ bytes. ReadExactAnswers bytes offset length result) }
        ensures causes { ReadExactCauses (faults self.old) (faults self.new) length result }
        ensures still { FaultsStand (faults self.old) (faults self.new) result }
        ensures version { IfSome (versions self.old) (HasVersion result (reads self.new)) }
        ensures reads { Grew (reads self.old) (reads self.new) 1 }
        ensures kept { ReadsOnly told versions faults steady self.old self.new };
}

impl From<AllocError> for ReadFault {
    ghost use Rattle.std.specs.Prelude.{◌≡◌};
    ghost use Rattle.byte_media.specs.declared.backend.ReadFault.TheVariants.{OutOfMemory};

    ghost from_gives = { λ _ e. e ≡ OutOfMemory };

    fn from(_: AllocError) -> Self {
        ReadFault::OutOfMemory
    }
}

impl<T: Drop> From<AllocFailed<T>> for ReadFault {
    ghost use Rattle.std.specs.Prelude.{◌≡◌};
    ghost use Rattle.byte_media.specs.declared.backend.ReadFault.TheVariants.{OutOfMemory};

    ghost from_gives = { λ _ e. e ≡ OutOfMemory };

    fn from(_: AllocFailed<T>) -> Self {
        ReadFault::OutOfMemory
    }
}

impl From<OutOfMemory> for ReadFault {
    ghost use Rattle.std.specs.Prelude.{◌≡◌};
    ghost use Rattle.byte_media.specs.declared.backend.ReadFault.TheVariants.{OutOfMemory};

    ghost from_gives = { λ _ e. e ≡ OutOfMemory };

    fn from(_: OutOfMemory) -> Self {
        ReadFault::OutOfMemory
    }
}
