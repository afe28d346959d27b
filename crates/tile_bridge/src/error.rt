// Why a conversion ends without an archive.
ghost use Rattle.std.specs.Prelude.{◌≡◌};

use base_values::OutOfMemory;
use mb_store::MbtError;
use pm_format::{Compression, MediumFault, PmtError};
use std::alloc::AllocError;
use thiserror::Error;

/// Why a conversion ends without an archive.
#[derive(Debug, Drop, Error)]
pub enum ConvertError {
    /// The medium wasn't empty: its length.
    #[error("medium not empty {length}")]
    MediumNotEmpty {
        length: u64,
    },
    /// Directories aren't labelled `None`: their label.
    #[error("unsupported compression")]
    UnsupportedCompression(Compression),
    /// The base or a patch is refused.
    #[error("store {place}: {error}")]
    Store {
        /// 0 for the base, k for the k-th patch.
        place: u64,
        /// Why: never a store's fault, and never running out of memory.
        error: MbtError,
    },
    /// A tile has 2^32 bytes or more, there are 2^32 tiles or more, or their bytes are 2^60 or more.
    #[error("index entry overflow")]
    IndexEntryOverflow,
    /// A store failed, and its count of faults rose.
    #[error("store fault {place}")]
    StoreFault {
        /// 0 for the base, k for the k-th patch.
        place: u64,
    },
    /// The medium failed, and its count of faults rose.
    #[error("medium fault")]
    MediumFault,
    /// A medium that tells no bytes gave something else back than what was written to it: why the archive
    /// can't be opened, or not read.
    #[error("read back")]
    ReadBack(PmtError),
    /// Memory ran out.
    #[error("out of memory")]
    OutOfMemory,
}

impl From<AllocError> for ConvertError {
    ghost use Rattle.std.specs.Prelude.{◌≡◌};
    ghost use Rattle.tile_bridge.specs.declared.error.ConvertError.TheVariants as errors;

    ghost from_gives = { λ _ e. e ≡ errors.OutOfMemory };

    fn from(_: AllocError) -> Self {
        ConvertError::OutOfMemory
    }
}

impl From<OutOfMemory> for ConvertError {
    ghost use Rattle.std.specs.Prelude.{◌≡◌};
    ghost use Rattle.tile_bridge.specs.declared.error.ConvertError.TheVariants as errors;

    ghost from_gives = { λ _ e. e ≡ errors.OutOfMemory };

    fn from(_: OutOfMemory) -> Self {
        ConvertError::OutOfMemory
    }
}

impl From<MediumFault> for ConvertError {
    ghost use Rattle.std.specs.Prelude.{◌≡◌};
    ghost use Rattle.tile_bridge.specs.declared.error.ConvertError.TheVariants as errors;

    ghost from_gives = { λ _ e. e ≡ errors.MediumFault };

    fn from(_: MediumFault) -> Self {
        ConvertError::MediumFault
    }
}
