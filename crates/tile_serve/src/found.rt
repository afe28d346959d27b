// What an archive has for an id.
ghost use Rattle.std.specs.Prelude.{◌≡◌};
ghost use Rattle.tile_serve.specs.Answers.{taken};

use crate::ServeError;
use bytes::Bytes;
use pm_format::{PmtError, PmtResult, ReadCause};

/// What an archive has for an id.
#[derive(Drop)]
pub(crate) enum Found {
    /// A tile of at least one byte.
    Tile(Bytes),
    /// No entry, or one of no bytes.
    Missing,
    /// A leaf on the way doesn't decode.
    InvalidEntry,
    /// A range on the way passes the end.
    PastEnd,
}

/// What a look-up ends in, and the refusals that are errors.
pub(crate) fn found_of(read: PmtResult<Option<Bytes>>) -> Result<Found, ServeError>
    ensures { result ≡ taken read }
{
    match read {
        Ok(Some(bytes)) => Ok(tile_of(bytes)),
        Ok(None) => Ok(Found::Missing),
        Err(error) => refused(error),
    }
}

// Bytes that are there, or none.
fn tile_of(bytes: Bytes) -> Found
    ensures { Ok result ≡ taken (Ok (Some bytes)) }
{
    if bytes.is_empty() {
        return Found::Missing;
    }
    Found::Tile(bytes)
}

// A refusal, which is an answer or an error.
fn refused(error: PmtError) -> Result<Found, ServeError>
    ensures { result ≡ taken (Err error) }
{
    match error {
        PmtError::InvalidEntry => Ok(Found::InvalidEntry),
        PmtError::Reading(ReadCause::PastEnd) => Ok(Found::PastEnd),
        PmtError::Reading(ReadCause::Fault) => Err(ServeError::Fault),
        PmtError::SourceModified { opened, read } => Err(ServeError::Modified { opened, read }),
        PmtError::UnexpectedNumberOfBytesReturned(asked, got) => {
            Err(ServeError::Short { asked, got })
        }
        _ => Err(ServeError::OutOfMemory),
    }
}
