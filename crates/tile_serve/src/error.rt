// Why a line isn't answered.
ghost use Rattle.std.specs.Prelude.{◌≡◌};

use base_values::{OutOfMemory, TextVal};
use pm_format::PmtError;
use std::alloc::{AllocError, AllocFailed};
use thiserror::Error;

/// Why a line isn't answered, or there is no server.
#[derive(Debug, Drop, Error)]
pub enum ServeError {
    /// The archive doesn't open: the first refusal of opening.
    #[error("opening: {0}")]
    Opening(PmtError),
    /// The backend failed, and its count of faults rose.
    #[error("fault")]
    Fault,
    /// The backend gave another version text with a tile than when the archive was opened: both texts.
    #[error("the source was modified: {opened} when it was opened, now {read}")]
    Modified { opened: TextVal, read: TextVal },
    /// Fewer or more bytes came than were asked for, from a backend that tells no bytes.
    #[error("asked for {asked} bytes, got {got}")]
    Short { asked: u64, got: u64 },
    /// Memory ran out.
    #[error("out of memory")]
    OutOfMemory,
}

impl From<OutOfMemory> for ServeError {
    ghost use Rattle.tile_serve.specs.declared.error.ServeError.TheVariants as errors;

    ghost from_gives = { λ _ e. e ≡ errors.OutOfMemory };

    fn from(_: OutOfMemory) -> Self {
        ServeError::OutOfMemory
    }
}
