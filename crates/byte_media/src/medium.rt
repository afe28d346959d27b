// What is written to, and read back from: bytes at places.
ghost use Rattle.std.specs.Prelude.{◌≡◌, ◌<◌, ◌^◌, IfSome, OnErr, OnOk, IsErrOf};
ghost use Rattle.byte_media.specs.Common.{Rose};
ghost use Rattle.byte_media.specs.Kept.{KeepsMedium, ReadsOnly};
ghost use Rattle.byte_media.specs.Media.{IsWithin, EndsBelow, WriteLeaves, IsLength};

use crate::Backend;
use std::alloc::AllocError;
use thiserror::Error;

/// Why a write wasn't done, or not wholly.
#[derive(Clone, Copy, Debug, PartialEq, Eq, Error)]
pub enum WriteFault {
    /// The medium failed, and its count of faults rose. A front of the piece may be written.
    #[error("write fault")]
    Fault,
    /// Memory ran out. Nothing was written.
    #[error("out of memory")]
    OutOfMemory,
}

/// The medium failed, and its count of faults rose.
#[derive(Clone, Copy, Debug, PartialEq, Eq, Error)]
#[error("medium fault")]
pub struct MediumFault;

/// A backend that is written to at places.
pub trait Medium: Backend {
    /// How many bytes there are.
    fn len(&mut self) -> Result<u64, MediumFault>
        ensures answer { IfSome (Self.told self.old) (λ bytes. IsLength bytes result) }
        ensures cause { OnErr result (Rose (Self.faults self.old) (Self.faults self.new)) }
        ensures still { OnOk result (Self.faults self.new ≡ Self.faults self.old) }
        ensures reads { Self.reads self.new ≡ Self.reads self.old }
        ensures kept { ReadsOnly Self.told Self.versions Self.faults Self.steady
            self.old self.new };

    /// Writes over what is there, and past the end.
    fn write_at(&mut self, offset: u64, piece: &[u8]) -> Result<(), WriteFault>
        requires within { IfSome (Self.told self.old) (IsWithin offset) }
        requires fits { EndsBelow offset piece.now (2 ^ 64) }
        ensures leaves { WriteLeaves offset piece.now result
            (Self.told self.old) (Self.told self.new) }
        ensures cause { IsErrOf result WriteFault.Fault
            → Rose (Self.faults self.old) (Self.faults self.new) }
        ensures still { OnOk result (Self.faults self.new ≡ Self.faults self.old) }
        ensures reads { Self.reads self.new ≡ Self.reads self.old }
        ensures kept { KeepsMedium Self.told Self.versions Self.reads Self.faults Self.steady
            self.old self.new };
}

impl From<AllocError> for WriteFault {
    ghost use Rattle.std.specs.Prelude.{◌≡◌};
    ghost use Rattle.byte_media.specs.declared.medium.WriteFault.TheVariants.{OutOfMemory};

    ghost from_gives = { λ _ e. e ≡ OutOfMemory };

    fn from(_: AllocError) -> Self {
        WriteFault::OutOfMemory
    }
}
