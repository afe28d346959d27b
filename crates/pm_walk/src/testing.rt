// The tests of a tile entry where the whole is walked.
ghost use Rattle.std.specs.Prelude.{◌≡◌, ◌≢◌, ◌+◌, IfSome};
ghost use Rattle.pm_walk.specs.Common.{GrewBetween, header_of, range_of, RangeCauses, reads_done, ReadsOnly, FaultsStand};
ghost use Rattle.pm_walk.specs.Testing.{IsOfRun, RangeTests};
ghost use Rattle.pm_walk.specs.Walk.{run_refusal};

use crate::{FIRST_TOO_DEEP, WalkError};
use pm_format::{Backend, DirEntry, PmtError, PmtResult, ReadCause};
use pm_reader::ReaderState;
use tile_ids::MAX_TILE_ID;

/// Tests that the contents of a tile entry lie in the archive that was opened, by one read at most: of no bytes, at
/// their end.
///
/// `Reading(PastEnd)` comes exactly where they pass the end of the bytes or u64. `UnexpectedNumberOfBytesReturned`
/// comes only over a backend that tells no bytes, and `Reading(Fault)` only where the backend's count of faults rose.
pub fn test_range<B: Backend>(
    state: &ReaderState,
    backend: &mut B,
    entry: DirEntry,
) -> PmtResult<()>
    ensures answer { IfSome (B.told backend.old)
        (λ b. RangeTests (range_of b ((header_of state.now).data_offset + entry.offset)
        entry.length) result) }
    ensures causes { RangeCauses (B.faults backend.old) (B.faults backend.new) result }
    ensures still { FaultsStand (B.faults backend.old) (B.faults backend.new) result }
    ensures kept { ReadsOnly B.told B.versions B.faults B.steady backend.old backend.new }
    ensures reads { GrewBetween (B.reads backend.old) (B.reads backend.new) (reads_done result) 1 }
{
    let Some(end) = entry.offset().checked_add(u64::from(entry.length())) else {
        return Err(PmtError::Reading(ReadCause::PastEnd));
    };
    match state.read_contents(backend, end, 0) {
        Ok(_) => Ok(()),
        Err(error) => Err(error),
    }
}

/// Why the run of a tile entry isn't one of a set's tiles, if it isn't.
pub(crate) fn run_refusal(entry: DirEntry) -> Option<WalkError>
    requires run { entry.run_length ≢ 0 }
    ensures answer { result ≡ run_refusal entry }
    ensures causes { IfSome result IsOfRun }
{
    if !entry.run_in_range() {
        let first = entry.tile_id().max(MAX_TILE_ID + 1);
        return Some(WalkError::InvalidTileId(first));
    }
    let past = entry.tile_id() + u64::from(entry.run_length());
    if entry.length() == 0 || past <= FIRST_TOO_DEEP {
        return None;
    }
    Some(WalkError::TooDeep(entry.tile_id().max(FIRST_TOO_DEEP)))
}
