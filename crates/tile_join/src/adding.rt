// The contents of one run, added at its ids.
ghost use Rattle.std.specs.Prelude.{◌≡◌, ◌+◌, ◌≤◌, false, OnOk, IsErrOf};
ghost use Rattle.pm_writer.specs.Adding.{WhereWrites, WritesSome};
ghost use Rattle.tile_extract.specs.Faults.{MediumStands};
ghost use Rattle.tile_extract.specs.Written.{of_write_error};
ghost use Rattle.tile_extract.specs.declared.error.ExtractError.TheVariants as extract;
ghost use Rattle.tile_ids.specs.declared.id.TheConstants.{MAX_TILE_ID};
ghost use Rattle.tile_join.specs.Common.{has_failed, ids_of, KeepsMedium, Puts, Rose};

use pm_format::{DirEntry, Medium, PmtError};
use pm_writer::WriterState;
use tile_extract::ExtractError;
use tile_hash::xxh3_64;

// The word for the error of a writer.
fn of_writer(error: PmtError) -> ExtractError
    ensures { result ≡ of_write_error error }
{
    match error {
        PmtError::OutOfMemory => ExtractError::OutOfMemory,
        PmtError::IndexEntryOverflow => ExtractError::IndexEntryOverflow,
        _ => ExtractError::MediumFault,
    }
}

/// Adds contents at each id of a run. They are digested, compared and stored once.
pub(crate) fn add_run<M: Medium>(
    writer: &mut WriterState,
    medium: &mut M,
    part: DirEntry,
    bytes: &[u8],
) -> Result<(), ExtractError>
    requires writes { WritesSome (M.told medium.old) writer.old }
    requires alive { has_failed writer.old ≡ false }
    requires within { part.tile_id + part.run_length ≤ MAX_TILE_ID + 1 }
    ensures added { WhereWrites (M.told medium.old) writer.old (λ o done.
        Puts o bytes.now done (ids_of part) (M.told medium.new) writer.new result) }
    ensures writes { WritesSome (M.told medium.new) writer.new }
    ensures alive { OnOk result (has_failed writer.new ≡ false) }
    ensures fault { IsErrOf result extract.MediumFault
        → Rose (M.faults medium.old) (M.faults medium.new) }
    ensures still { MediumStands (M.faults medium.old) (M.faults medium.new) result }
    ensures compared { M.reads medium.new ≤ M.reads medium.old + 1 }
    ensures kept { KeepsMedium M.told M.versions M.reads M.faults M.steady medium.old medium.new }
{
    let (first, count) = (part.tile_id(), part.run_length());
    match writer.add_raw_run_with_digest(medium, first, count, xxh3_64(bytes), bytes) {
        Ok(()) => Ok(()),
        Err(error) => Err(of_writer(error)),
    }
}
