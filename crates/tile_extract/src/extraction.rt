// The archive of a part of an archive, from one archive to another.
ghost use Rattle.std.specs.Prelude.{◌≤◌, ◌+◌, IfSome};
ghost use Rattle.tile_extract.specs.Common.{KeepsMedium, ReadsOnly};
ghost use Rattle.tile_extract.specs.Extract.{HasZooms, IntoCauses, IntoLeaves, IsEmpty, LeavesUnread, PartAnswers, PartCauses, PartLeaves, PartUncompared, part_reads};
ghost use Rattle.tile_extract.specs.Subtree.{Answers, Causes, Leaves, LeavesUncompared, reads_at_most};
ghost use Rattle.tile_extract.specs.Faults.{MediumStands, SourceStands};

use crate::collection::{collect_intervals, part_options};
use crate::opening::{read_source, test_medium, test_part, test_zoom};
use crate::subtree::part_below;
use crate::writing::write_parts;
use crate::{ExtractError, TilePart};
use pm_format::{Backend, Medium};
use pm_writer::ArchivePlaces;
use std::alloc::Global;
use tile_ids::TileCoord;

// The same to an empty medium, where the zooms are valid.
fn extract_into<B: Backend, M: Medium>(
    alloc: Global,
    source: &mut B,
    part: &TilePart,
    max_tiles: u64,
    medium: &mut M,
) -> Result<ArchivePlaces, ExtractError>
    requires valid { HasZooms part.now }
    requires empty { IsEmpty (M.told medium.old) }
    ensures causes { IntoCauses max_tiles (B.faults source.old) (B.faults source.new)
        (M.faults medium.old) (M.faults medium.new) result }
    ensures source_still { SourceStands (B.faults source.old) (B.faults source.new) result }
    ensures medium_still { MediumStands (M.faults medium.old) (M.faults medium.new) result }
    ensures answers { IfSome (B.told source.old)
        (λ b. PartAnswers (M.told medium.old) b part.now max_tiles result) }
    ensures leaves { IntoLeaves (B.told source.old) part.now max_tiles result (M.told medium.new) }
    ensures source_kept { ReadsOnly B.told B.versions B.faults B.steady source.old source.new }
    ensures reads { IfSome (B.told source.old)
        (λ b. B.reads source.new ≤ B.reads source.old + part_reads b part.now) }
    ensures compared { M.reads medium.new ≤ M.reads medium.old + max_tiles }
    ensures uncompared { PartUncompared (B.told source.old) (M.told medium.old) part.now max_tiles
        (M.reads medium.old) (M.reads medium.new) result }
    ensures medium_kept { KeepsMedium M.told M.versions M.reads M.faults M.steady
        medium.old medium.new }
{
    let (reader, metadata) = match read_source(alloc, source) {
        Ok(read) => read,
        Err(error) => return Err(error),
    };
    let parts = match collect_intervals(alloc, &reader, source, &part.intervals, max_tiles) {
        Ok(parts) => parts,
        Err(error) => return Err(error),
    };
    let options = part_options(reader.get_header(), metadata, part);
    match write_parts(alloc, &options, &reader, source, &parts, medium) {
        Ok(written) => Ok(written),
        Err(error) => Err(error),
    }
}

/// Writes to an empty medium the archive of the tiles that an archive has at the ids of a part. It says beside its
/// tiles what the other one says, but for the zooms, which are those of the part.
///
/// The first of these that holds is answered: `InvalidZoom` where the greatest zoom is below the least one or above 31;
/// `MediumNotEmpty` where the medium has bytes; `Archive` where the source doesn't open, where its metadata isn't there
/// or isn't UTF-8, and where a directory that leads to one of the ids fails a test; `TooManyTiles` where there are more
/// tiles than the limit; `Archive` where a tile passes the end of the source; `IndexEntryOverflow` where the data ends
/// past u64 or a directory of the new archive has 2^32 bytes or more. Until the tiles are written the medium is
/// unchanged, and after a later refusal it shows no part of an archive.
///
/// The source isn't read before the zooms and the medium are tested. Each directory that leads to one of the ids is
/// read once, and so is each part of a tile entry. `Archive(Reading(Fault))` comes only where the source's count of
/// faults rose, and `MediumFault` only where the medium's did.
pub fn extract_intervals<B: Backend, M: Medium>(
    alloc: Global,
    source: &mut B,
    part: &TilePart,
    max_tiles: u64,
    medium: &mut M,
) -> Result<ArchivePlaces, ExtractError>
    ensures causes { PartCauses part.now max_tiles (M.told medium.old)
        (B.faults source.old) (B.faults source.new) (M.faults medium.old) (M.faults medium.new)
        result }
    ensures source_still { SourceStands (B.faults source.old) (B.faults source.new) result }
    ensures medium_still { MediumStands (M.faults medium.old) (M.faults medium.new) result }
    ensures answers { IfSome (B.told source.old)
        (λ b. PartAnswers (M.told medium.old) b part.now max_tiles result) }
    ensures leaves { PartLeaves (B.told source.old) part.now max_tiles result
        (M.told medium.old) (M.told medium.new) }
    ensures source_kept { ReadsOnly B.told B.versions B.faults B.steady source.old source.new }
    ensures reads { IfSome (B.told source.old)
        (λ b. B.reads source.new ≤ B.reads source.old + part_reads b part.now) }
    ensures unread { LeavesUnread (B.reads source.old) (B.reads source.new) result }
    ensures compared { M.reads medium.new ≤ M.reads medium.old + max_tiles }
    ensures uncompared { PartUncompared (B.told source.old) (M.told medium.old) part.now max_tiles
        (M.reads medium.old) (M.reads medium.new) result }
    ensures medium_kept { KeepsMedium M.told M.versions M.reads M.faults M.steady
        medium.old medium.new }
{
    match test_part(part) {
        Ok(()) => {}
        Err(error) => return Err(error),
    }
    match test_medium(medium) {
        Ok(()) => {}
        Err(error) => return Err(error),
    }
    match extract_into(alloc, source, part, max_tiles, medium) {
        Ok(places) => Ok(places),
        Err(error) => Err(error),
    }
}

/// Writes to an empty medium the archive of the tiles that an archive has among a tile and its descendants
/// down to a zoom. It says beside its tiles what the other one says, but for the zooms, which are the tile's
/// and the one that is asked for.
///
/// The first of these that holds is answered: `InvalidZoom` where the zoom is below the tile's or above 31;
/// `MediumNotEmpty` where the medium has bytes; `Archive` where the source doesn't open, where its metadata isn't there
/// or isn't UTF-8, and where a directory that leads to one of the tiles' ids fails a test; `TooManyTiles` where there
/// are more tiles than the limit; `Archive` where a tile passes the end of the source; `IndexEntryOverflow` where the
/// data ends past u64 or a directory of the new archive has 2^32 bytes or more. Until the tiles are written the medium
/// is unchanged, and after a later refusal it shows no part of an archive.
///
/// The source isn't read before the zoom and the medium are tested. Each directory that leads to one of the ids is read
/// once, and so is each part of a tile entry. `Archive(Reading(Fault))` comes only where the source's count of faults
/// rose, and `MediumFault` only where the medium's did.
pub fn extract<B: Backend, M: Medium>(
    alloc: Global,
    source: &mut B,
    root: TileCoord,
    max_zoom: u8,
    max_tiles: u64,
    medium: &mut M,
) -> Result<ArchivePlaces, ExtractError>
    ensures causes { Causes root max_zoom max_tiles (M.told medium.old)
        (B.faults source.old) (B.faults source.new) (M.faults medium.old) (M.faults medium.new)
        result }
    ensures source_still { SourceStands (B.faults source.old) (B.faults source.new) result }
    ensures medium_still { MediumStands (M.faults medium.old) (M.faults medium.new) result }
    ensures answers { IfSome (B.told source.old)
        (λ b. Answers (M.told medium.old) b root max_zoom max_tiles result) }
    ensures leaves { Leaves (B.told source.old) root max_zoom max_tiles result
        (M.told medium.old) (M.told medium.new) }
    ensures source_kept { ReadsOnly B.told B.versions B.faults B.steady source.old source.new }
    ensures reads { IfSome (B.told source.old)
        (λ b. B.reads source.new ≤ B.reads source.old + reads_at_most b root max_zoom) }
    ensures unread { LeavesUnread (B.reads source.old) (B.reads source.new) result }
    ensures compared { M.reads medium.new ≤ M.reads medium.old + max_tiles }
    ensures uncompared { LeavesUncompared (B.told source.old) (M.told medium.old)
        root max_zoom max_tiles (M.reads medium.old) (M.reads medium.new) result }
    ensures medium_kept { KeepsMedium M.told M.versions M.reads M.faults M.steady
        medium.old medium.new }
{
    match test_zoom(root, max_zoom) {
        Ok(()) => {}
        Err(error) => return Err(error),
    }
    match test_medium(medium) {
        Ok(()) => {}
        Err(error) => return Err(error),
    }
    let part = match part_below(alloc, root, max_zoom) {
        Ok(part) => part,
        Err(_) => return Err(ExtractError::OutOfMemory),
    };
    match extract_into(alloc, source, &part, max_tiles, medium) {
        Ok(places) => Ok(places),
        Err(error) => Err(error),
    }
}
