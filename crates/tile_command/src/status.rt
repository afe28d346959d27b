// The statuses that the tools end with.
ghost use Rattle.std.specs.Prelude.{◌≡◌};
ghost use Rattle.tile_command.specs.Status.{join_status, part_status, read_status, set_status, source_status};

use mb_reading::ReadError;
use mb_store::MbtError;
use pm_format::{PmtError, ReadCause, status};
use tile_extract::ExtractError;
use tile_join::JoinError;

/// The status for a set that isn't read: 3 where there is none, 4 where its file can't be read, 10 where it is in a
/// form that isn't read, 7 for lack of memory,
/// and 1 for the others.
pub fn read_status(error: &ReadError) -> u8
    ensures { result ≡ read_status error.now }
{
    match error {
        ReadError::NotASet | ReadError::Missing | ReadError::NotADatabase => status::NO_INPUT,
        ReadError::NotRegular | ReadError::Unnamed | ReadError::Unread | ReadError::Beside { .. } =>
            { status::INPUT_FAULT }
        ReadError::Unopened(_) | ReadError::Fault { .. } => status::OTHER_FORM,
        ReadError::OutOfMemory => status::OUT_OF_MEMORY,
        _ => status::REFUSED,
    }
}

/// The status for a refusal of a call on a set: 6 where its store or a tree of files failed, 7 for lack of memory,
/// and 1 for the others.
pub fn set_status(error: &MbtError) -> u8
    ensures { result ≡ set_status error.now }
{
    match error {
        MbtError::StoreFault | MbtError::TreeFault => status::FAULT,
        MbtError::OutOfMemory => status::OUT_OF_MEMORY,
        _ => status::REFUSED,
    }
}

/// The status for a refusal of an archive: 4 where its bytes can't be read, 7 for lack of memory, and 1 for the others.
pub fn source_status(error: &PmtError) -> u8
    ensures { result ≡ source_status error.now }
{
    match error {
        PmtError::Reading(ReadCause::Fault) => status::INPUT_FAULT,
        PmtError::OutOfMemory => status::OUT_OF_MEMORY,
        _ => status::REFUSED,
    }
}

/// The status for a part of an archive that isn't extracted: 6 where the file that is written failed, 7 when out of
/// memory, that of the refusal of the archive, and 1 for the others.
pub fn part_status(error: &ExtractError) -> u8
    ensures { result ≡ part_status error.now }
{
    match error {
        ExtractError::Archive(error) => source_status(error),
        ExtractError::MediumFault => status::FAULT,
        ExtractError::OutOfMemory => status::OUT_OF_MEMORY,
        _ => status::REFUSED,
    }
}

/// The status for archives that aren't joined: 6 where the file that is written failed, 7 for lack of memory, that of
/// the refusal of a source, and 1 for the others.
pub fn join_status(error: &JoinError) -> u8
    ensures { result ≡ join_status error.now }
{
    match error {
        JoinError::Archive { error, .. } => source_status(error),
        JoinError::MediumFault => status::FAULT,
        JoinError::OutOfMemory => status::OUT_OF_MEMORY,
        _ => status::REFUSED,
    }
}
