// Writing an archive: its adds, and its end.
ghost use Rattle.std.specs.Prelude.{◌≡◌, IfSome, OnOk};
ghost use Rattle.pm_writer.specs.Adding.{IsAdded, WhereWrites, WritesSome};
ghost use Rattle.pm_writer.specs.Archive.{archive};
ghost use Rattle.pm_writer.specs.Pieces.{IsHiddenOr};

use pm_format::{Medium, PmtResult};
use pm_writer::{ArchivePlaces, WriterState};
use std::alloc::Global;
use tile_ids::TileId;

/// One more tile of an archive, under its id.
pub fn add<M: Medium>(
    state: &mut WriterState,
    medium: &mut M,
    id: TileId,
    bytes: &[u8],
) -> PmtResult<()>
    requires writes { WritesSome (M.told medium.old) state.old }
    ensures added { IsAdded M.told M.reads medium.old medium.new state.old state.new
        id bytes.now result }
{
    state.add_raw_tile_by_id(medium, id, bytes)
}

/// The bytes of a finished archive. Only edits take memory.
pub fn finish<M: Medium>(
    _alloc: Global,
    state: WriterState,
    medium: &mut M,
) -> PmtResult<ArchivePlaces>
    requires writes { WritesSome (M.told medium.old) state }
    ensures bytes { WhereWrites (M.told medium.old) state
        (λ o adds. OnOk result (IfSome (M.told medium.new) (λ b. b ≡ archive o adds))) }
{
    state.finalize(medium)
}

/// What a medium shows once the end of an archive is written, or refused.
pub fn end<M: Medium>(state: WriterState, medium: &mut M) -> PmtResult<ArchivePlaces>
    requires writes { WritesSome (M.told medium.old) state }
    ensures shown { WhereWrites (M.told medium.old) state
        (λ o adds. IfSome (M.told medium.new) (IsHiddenOr (archive o adds))) }
{
    WriterState::finalize(state, medium)
}
