// How a run of the extractor ends.
ghost use Rattle.std.specs.Prelude.{◌≡◌};
ghost use Rattle.tile_extract.specs.Outcome.{status};

use crate::ExtractError;
use pm_format::{archive_status, status};
use pm_writer::ArchivePlaces;

/// How a run of the extractor ends.
#[derive(Debug, Drop)]
pub enum ExtractOutcome {
    /// The archive of the part is written: where its parts lie.
    Done(ArchivePlaces),
    /// The extraction was refused, or its source or medium failed. It is never `ExtractError::OutOfMemory`.
    Refused(ExtractError),
    /// The words aren't a tile, a zoom and a number of tiles.
    Usage,
    /// Memory ran out.
    OutOfMemory,
}

/// The status that a program ends with: 0 for `Done`, 1 or, where the source or the medium failed, 6 for `Refused`, 2
/// for `Usage` and 7 for `OutOfMemory`.
pub fn extract_status(outcome: &ExtractOutcome) -> u8
    ensures { result ≡ status outcome.now }
{
    match outcome {
        ExtractOutcome::Done(_) => status::DONE,
        ExtractOutcome::Refused(ExtractError::Archive(error)) => archive_status(error),
        ExtractOutcome::Refused(ExtractError::MediumFault) => status::FAULT,
        ExtractOutcome::Refused(_) => status::REFUSED,
        ExtractOutcome::Usage => status::USAGE,
        ExtractOutcome::OutOfMemory => status::OUT_OF_MEMORY,
    }
}
