// The archive of several archives.
ghost use Rattle.std.specs.Prelude.{◌≡◌, ◌≢◌, ◌≤◌, ◌+◌, IfSome, length, map};
ghost use Rattle.tile_join.specs.Common.{IsEmpty, KeepsMedium, ReadsOnly};
ghost use Rattle.tile_join.specs.Causes.{IntoCauses, JoinCauses, LeavesUnread, Uncompared, join_reads};
ghost use Rattle.tile_join.specs.Join.{IntoLeaves, JoinAnswers, JoinLeaves};
ghost use Rattle.tile_join.specs.Opening.{MediumTested};
ghost use Rattle.tile_join.specs.Sources.{AreOnlyRead, MediumStands, SourcesStand, all_told, total};

use crate::JoinError;
use crate::planning::plan;
use crate::writing::write_pieces;
use pm_format::{Backend, Medium};
use pm_writer::ArchivePlaces;
use std::alloc::Global;

// Whether a medium is empty.
fn test_medium<M: Medium>(medium: &mut M) -> Result<(), JoinError>
    ensures tested { MediumTested (M.told medium.old) (M.faults medium.old) (M.faults medium.new)
        result }
    ensures still { MediumStands (M.faults medium.old) (M.faults medium.new) result }
    ensures counted { M.reads medium.new ≡ M.reads medium.old }
    ensures kept { ReadsOnly M.told M.versions M.faults M.steady medium.old medium.new }
{
    let length = match medium.len() {
        Ok(length) => length,
        Err(_) => return Err(JoinError::MediumFault),
    };
    if length != 0 {
        return Err(JoinError::MediumNotEmpty { length });
    }
    Ok(())
}

// The same to an empty medium, where there is a source.
fn join_into<B: Backend, M: Medium>(
    alloc: Global,
    sources: &mut Vec<B>,
    max_tiles: u64,
    medium: &mut M,
) -> Result<ArchivePlaces, JoinError>
    requires some { length sources.old.items ≢ 0 }
    requires empty { IsEmpty (M.told medium.old) }
    ensures causes { IntoCauses max_tiles (map B.faults sources.old.items)
        (map B.faults sources.new.items) (M.faults medium.old) (M.faults medium.new) result }
    ensures sources_still { SourcesStand (map B.faults sources.old.items)
        (map B.faults sources.new.items) result }
    ensures medium_still { MediumStands (M.faults medium.old) (M.faults medium.new) result }
    ensures answers { IfSome (all_told (map B.told sources.old.items))
        (λ bs. JoinAnswers (M.told medium.old) bs max_tiles result) }
    ensures leaves { IntoLeaves (all_told (map B.told sources.old.items)) max_tiles result
        (M.told medium.new) }
    ensures sources_kept { AreOnlyRead B.told B.versions B.faults B.steady
        sources.old.items sources.new.items }
    ensures reads { IfSome (all_told (map B.told sources.old.items))
        (λ bs. total (map B.reads sources.new.items)
        ≤ total (map B.reads sources.old.items) + join_reads max_tiles bs) }
    ensures compared { M.reads medium.new ≤ M.reads medium.old + max_tiles }
    ensures uncompared { Uncompared (all_told (map B.told sources.old.items))
        (M.told medium.old) max_tiles (M.reads medium.old) (M.reads medium.new) result }
    ensures medium_kept { KeepsMedium M.told M.versions M.reads M.faults M.steady
        medium.old medium.new }
{
    let (options, readers, pieces) = match plan(alloc, sources, max_tiles) {
        Ok(planned) => planned,
        Err(error) => return Err(error),
    };
    match write_pieces(alloc, &options, &readers, sources, &pieces, medium) {
        Ok(written) => Ok(written),
        Err(error) => Err(error),
    }
}

/// Writes to an empty medium the archive of several archives, the later ones over the earlier ones: at each
/// id it has the tile of the last source that has one. An archive has no empty tiles, so a source can't
/// remove a tile of an earlier one.
///
/// It says beside its tiles what the last source says, its metadata included, but for zooms and bounds: the least
/// and the greatest zoom of all sources, and the box around all their bounds. All sources have to label their tiles
/// alike, by type and by compression, since one archive has one label for all of its tiles.
///
/// The first of these that holds is answered: `NoSource` where there is none; `MediumNotEmpty` where the medium has
/// bytes; source by source `Archive` where it doesn't open, or a directory of it fails a test, and `TooManyTiles` where
/// it has more tiles than the limit; `Archive` where the last one's metadata isn't there or isn't UTF-8; `Different`
/// with the first source that labels its tiles otherwise than the last one; `TooManyTiles` where all together have more
/// tiles than the limit; `Archive` where a tile passes the end of its source; `IndexEntryOverflow` where the data ends
/// past u64 or a directory of the new archive has 2^32 bytes or more. Until the tiles are written the medium is
/// unchanged, and after a later refusal it shows no part of an archive.
///
/// Each directory of each source is read once, and the contents of each run that is left of them once, where they are
/// written; a run of which a later source has a part is read for each of its other parts. A run of a source takes 32
/// bytes of memory, and is gone through once for each source behind it, whatever its length.
/// `Archive` with `Reading(Fault)` comes only where the count of faults of the source with this number rose, and
/// `MediumFault` only where the medium's did.
pub fn join<B: Backend, M: Medium>(
    alloc: Global,
    sources: &mut Vec<B>,
    max_tiles: u64,
    medium: &mut M,
) -> Result<ArchivePlaces, JoinError>
    ensures causes { JoinCauses max_tiles (M.told medium.old) (map B.faults sources.old.items)
        (map B.faults sources.new.items) (M.faults medium.old) (M.faults medium.new) result }
    ensures sources_still { SourcesStand (map B.faults sources.old.items)
        (map B.faults sources.new.items) result }
    ensures medium_still { MediumStands (M.faults medium.old) (M.faults medium.new) result }
    ensures answers { IfSome (all_told (map B.told sources.old.items))
        (λ bs. JoinAnswers (M.told medium.old) bs max_tiles result) }
    ensures leaves { JoinLeaves (all_told (map B.told sources.old.items)) max_tiles result
        (M.told medium.old) (M.told medium.new) }
    ensures sources_kept { AreOnlyRead B.told B.versions B.faults B.steady
        sources.old.items sources.new.items }
    ensures reads { IfSome (all_told (map B.told sources.old.items))
        (λ bs. total (map B.reads sources.new.items)
        ≤ total (map B.reads sources.old.items) + join_reads max_tiles bs) }
    ensures unread { LeavesUnread (map B.reads sources.old.items) (map B.reads sources.new.items)
        result }
    ensures compared { M.reads medium.new ≤ M.reads medium.old + max_tiles }
    ensures uncompared { Uncompared (all_told (map B.told sources.old.items))
        (M.told medium.old) max_tiles (M.reads medium.old) (M.reads medium.new) result }
    ensures medium_kept { KeepsMedium M.told M.versions M.reads M.faults M.steady
        medium.old medium.new }
{
    if sources.is_empty() {
        return Err(JoinError::NoSource);
    }
    match test_medium(medium) {
        Ok(()) => {}
        Err(error) => return Err(error),
    }
    match join_into(alloc, sources, max_tiles, medium) {
        Ok(places) => Ok(places),
        Err(error) => Err(error),
    }
}
