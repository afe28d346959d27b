// Why a conversion that holds no contents ends without an archive.
ghost use Rattle.std.specs.Prelude.{◌≡◌};
ghost use Rattle.tile_streaming.specs.Common.{of_read_error, of_write_error, refusal_at};

use base_values::OutOfMemory;
use mb_store::{MbtError, StoreError};
use pm_format::{MediumFault, PmtError, ReadCause};
use thiserror::Error;
use tile_bridge::ConvertError;

/// Why a conversion ends without an archive.
#[derive(Debug, Drop, Error)]
pub enum StreamError {
    /// As of a conversion that holds all contents.
    #[error(transparent)]
    Convert(ConvertError),
    /// The store had other contents when it was read again: a tile was missing, or its contents had another length or
    /// digest.
    #[error("store changed")]
    StoreChanged,
}

impl From<OutOfMemory> for StreamError {
    ghost use Rattle.std.specs.Prelude.{◌≡◌};
    ghost use Rattle.tile_bridge.specs.declared.error.ConvertError.TheVariants.{OutOfMemory};
    ghost use Rattle.tile_streaming.specs.declared.error.StreamError.TheVariants.{Convert};

    ghost from_gives = { λ _ e. e ≡ Convert OutOfMemory };

    fn from(_: OutOfMemory) -> Self {
        StreamError::Convert(ConvertError::OutOfMemory)
    }
}

impl From<MediumFault> for StreamError {
    ghost use Rattle.std.specs.Prelude.{◌≡◌};
    ghost use Rattle.tile_bridge.specs.declared.error.ConvertError.TheVariants.{MediumFault};
    ghost use Rattle.tile_streaming.specs.declared.error.StreamError.TheVariants.{Convert};

    ghost from_gives = { λ _ e. e ≡ Convert MediumFault };

    fn from(_: MediumFault) -> Self {
        StreamError::Convert(ConvertError::MediumFault)
    }
}

impl From<StoreError> for StreamError {
    ghost use Rattle.std.specs.Prelude.{◌≡◌};
    ghost use Rattle.tile_streaming.specs.Written.{of_find_error};

    ghost from_gives = { λ s e. e ≡ of_find_error s };

    fn from(error: StoreError) -> Self {
        match error {
            StoreError::Fault => StreamError::Convert(ConvertError::StoreFault { place: 0 }),
            StoreError::OutOfMemory => StreamError::Convert(ConvertError::OutOfMemory),
        }
    }
}

/// The conversion's word for the error of its store.
pub(crate) fn of_store(error: MbtError) -> StreamError
    ensures { result ≡ StreamError.Convert (refusal_at 0 error) }
{
    match error {
        MbtError::StoreFault => StreamError::Convert(ConvertError::StoreFault { place: 0 }),
        MbtError::OutOfMemory => StreamError::Convert(ConvertError::OutOfMemory),
        error => StreamError::Convert(ConvertError::Store { place: 0, error }),
    }
}

/// The conversion's word for the error of a writer that can only fail or find no memory.
pub(crate) fn of_writer(error: PmtError) -> StreamError
    ensures { result ≡ StreamError.Convert (of_write_error error) }
{
    match error {
        PmtError::OutOfMemory => StreamError::Convert(ConvertError::OutOfMemory),
        _ => StreamError::Convert(ConvertError::MediumFault),
    }
}

/// The conversion's word for the error of a reader.
pub(crate) fn of_reader(error: PmtError) -> StreamError
    ensures { result ≡ StreamError.Convert (of_read_error error) }
{
    match error {
        PmtError::OutOfMemory => StreamError::Convert(ConvertError::OutOfMemory),
        PmtError::Reading(ReadCause::Fault) => StreamError::Convert(ConvertError::MediumFault),
        error => StreamError::Convert(ConvertError::ReadBack(error)),
    }
}
