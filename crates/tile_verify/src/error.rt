// Why an archive isn't told to be sound.
ghost use Rattle.std.specs.Prelude.{◌≡◌};

use crate::{Place, Reason};
use pm_format::PmtError;
use std::alloc::AllocFailed;
use thiserror::Error;

/// Why an archive isn't told to be sound.
#[derive(Debug, Drop, Error)]
pub enum VerifyError {
    /// It doesn't open: the first refusal of opening.
    #[error("opening: {0}")]
    Opening(PmtError),
    /// A part of it is broken: the first one, and how many leaves were read until then.
    #[error("broken")]
    Broken {
        place: Place,
        reason: Reason,
        directories: u64,
    },
    /// The source failed, and its count of faults rose.
    #[error("fault")]
    Fault,
    /// Fewer or more bytes came than were asked for, from a source that tells no bytes.
    #[error("asked for {asked} bytes, got {got}")]
    Short {
        asked: u64,
        got: u64,
    },
    /// Memory ran out.
    #[error("out of memory")]
    OutOfMemory,
}

impl<T: Drop> From<AllocFailed<T>> for VerifyError {
    ghost use Rattle.tile_verify.specs.declared.error.VerifyError.TheVariants as errors;

    ghost from_gives = { λ _ e. e ≡ errors.OutOfMemory };

    fn from(_: AllocFailed<T>) -> Self {
        VerifyError::OutOfMemory
    }
}
