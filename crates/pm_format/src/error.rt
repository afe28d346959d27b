// What can be wrong with an archive, and how its bytes are reached.
ghost use Rattle.std.specs.Prelude.{◌≡◌};

use crate::{Compression, ReadFault, WriteFault};
use base_values::{OutOfMemory, TextVal};
use std::alloc::{AllocError, AllocFailed};
use thiserror::Error;
use tile_ids::TileError;

/// The result of a call on archives.
pub type PmtResult<T> = Result<T, PmtError>;

/// Why bytes couldn't be read or written.
#[derive(Clone, Copy, Debug, PartialEq, Eq, Error)]
pub enum ReadCause {
    /// The backend or medium failed.
    #[error("fault")]
    Fault,
    /// The range passes the end of the bytes.
    #[error("past the end")]
    PastEnd,
}

/// What is refused in an archive, or hinders reading or writing it.
#[derive(Debug, Drop, PartialEq, Eq, Error)]
pub enum PmtError {
    /// The coordinate isn't one of its zoom.
    #[error("invalid coordinate {0}/{1}/{2}")]
    InvalidCoordinate(u8, u32, u32),
    /// The id is above that of the last tile of zoom 31.
    #[error("invalid tile id {0}")]
    InvalidTileId(u64),
    /// The bytes of a directory aren't of its grammar.
    #[error("invalid directory entry")]
    InvalidEntry,
    /// The header is too short, or its root isn't where one can be.
    #[error("invalid header")]
    InvalidHeader,
    /// The bytes don't begin as an archive.
    #[error("invalid magic number")]
    InvalidMagicNumber,
    /// The bytes begin as an archive of another version.
    #[error("unsupported version")]
    UnsupportedPmTilesVersion,
    /// A compression label that isn't one.
    #[error("invalid compression")]
    InvalidCompression,
    /// A tile type that isn't one.
    #[error("invalid tile type")]
    InvalidTileType,
    /// Bytes that must be plain are labelled otherwise.
    #[error("unsupported compression {0:?}")]
    UnsupportedCompression(Compression),
    /// A tile or a directory has 2^32 bytes or more, or would end past u64.
    #[error("index entry overflow")]
    IndexEntryOverflow,
    /// Bytes couldn't be read or written.
    #[error("reading: {0}")]
    Reading(ReadCause),
    /// The medium failed in an earlier call of this writer.
    #[error("failed before")]
    Failed,
    /// Two tiles of at least one byte were added at this id.
    #[error("overlapping entries at {0}")]
    OverlappingEntries(u64),
    /// Fewer or more bytes came than were asked for: asked, and got.
    #[error("asked for {0} bytes, got {1}")]
    UnexpectedNumberOfBytesReturned(u64, u64),
    /// The backend gave another version text with a tile than when the archive was opened: both texts.
    #[error("the source was modified: {opened} when it was opened, now {read}")]
    SourceModified { opened: TextVal, read: TextVal },
    /// The metadata isn't the JSON that is asked for.
    #[error("invalid metadata")]
    InvalidMetadata,
    /// The metadata isn't UTF-8.
    #[error("metadata that isn't UTF-8")]
    InvalidMetadataUtf8Encoding,
    /// A leaf comes next in a walk, and each unit of its budget was spent on one.
    #[error("the budget is spent")]
    BudgetSpent,
    /// Memory ran out.
    #[error("out of memory")]
    OutOfMemory,
}

impl From<AllocError> for PmtError {
    ghost use Rattle.std.specs.Prelude.{◌≡◌};
    ghost use Rattle.pm_format.specs.declared.error.PmtError.TheVariants as errors;

    ghost from_gives = { λ _ e. e ≡ errors.OutOfMemory };

    fn from(_: AllocError) -> Self {
        PmtError::OutOfMemory
    }
}

impl<T: Drop> From<AllocFailed<T>> for PmtError {
    ghost use Rattle.std.specs.Prelude.{◌≡◌};
    ghost use Rattle.pm_format.specs.declared.error.PmtError.TheVariants as errors;

    ghost from_gives = { λ _ e. e ≡ errors.OutOfMemory };

    fn from(_: AllocFailed<T>) -> Self {
        PmtError::OutOfMemory
    }
}

impl From<OutOfMemory> for PmtError {
    ghost use Rattle.std.specs.Prelude.{◌≡◌};
    ghost use Rattle.pm_format.specs.declared.error.PmtError.TheVariants as errors;

    ghost from_gives = { λ _ e. e ≡ errors.OutOfMemory };

    fn from(_: OutOfMemory) -> Self {
        PmtError::OutOfMemory
    }
}

impl From<TileError> for PmtError {
    ghost use Rattle.std.specs.Prelude.{◌≡◌};
    ghost use Rattle.pm_format.specs.Errors.{of_tile_error};

    ghost from_gives = { λ t e. e ≡ of_tile_error t };

    fn from(error: TileError) -> Self {
        match error {
            TileError::InvalidCoordinate(z, x, y) => PmtError::InvalidCoordinate(z, x, y),
            TileError::InvalidTileId(id) => PmtError::InvalidTileId(id),
        }
    }
}

impl From<ReadFault> for PmtError {
    ghost use Rattle.std.specs.Prelude.{◌≡◌};
    ghost use Rattle.pm_format.specs.Errors.{of_read_fault};

    ghost from_gives = { λ f e. e ≡ of_read_fault f };

    fn from(fault: ReadFault) -> Self {
        match fault {
            ReadFault::Fault => PmtError::Reading(ReadCause::Fault),
            ReadFault::PastEnd => PmtError::Reading(ReadCause::PastEnd),
            ReadFault::Short { asked, got } => {
                PmtError::UnexpectedNumberOfBytesReturned(asked, got)
            }
            ReadFault::OutOfMemory => PmtError::OutOfMemory,
        }
    }
}

impl From<WriteFault> for PmtError {
    ghost use Rattle.std.specs.Prelude.{◌≡◌};
    ghost use Rattle.pm_format.specs.Errors.{of_write_fault};

    ghost from_gives = { λ f e. e ≡ of_write_fault f };

    fn from(fault: WriteFault) -> Self {
        match fault {
            WriteFault::Fault => PmtError::Reading(ReadCause::Fault),
            WriteFault::OutOfMemory => PmtError::OutOfMemory,
        }
    }
}
