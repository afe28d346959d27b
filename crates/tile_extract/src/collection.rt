// The tile entries of a part of an archive, and what the archive of it says beside its tiles.
ghost use Rattle.std.specs.Prelude.{◌≡◌, ◌≤◌, ◌+◌, None, IfSome, IfOk, IfErr};
ghost use Rattle.tile_extract.specs.Common.{AllLieIn, AreOrdered, header_of, ReadsOnly, root_of, tile_count, walked};
ghost use Rattle.pm_walk.specs.declared.extent.Extent.TheVariants as extents;
ghost use Rattle.tile_extract.specs.Cut.{intervals, options_from};
ghost use Rattle.tile_extract.specs.Part.{options_with_zooms, part_options};
ghost use Rattle.tile_extract.specs.Extract.{CollectCauses, CollectRefuses, IsCollected};
ghost use Rattle.tile_extract.specs.Written.{of_walk_error};
ghost use Rattle.tile_extract.specs.Faults.{SourceStands};

use crate::subtree::subtree_intervals;
use crate::writing::of_reader;
use crate::{ExtractError, IdIntervals, TilePart};
use base_values::TextVal;
use pm_format::{Backend, DirEntry, Header, PmtError};
use pm_reader::ReaderState;
use pm_walk::WalkError;
use pm_writer::PmTilesWriter;
use std::alloc::Global;
use tile_ids::TileCoord;

// The least and the greatest zoom, and else what the archive that it comes from says.
fn options_with_zooms(header: &Header, metadata: TextVal, least: u8, greatest: u8) -> PmTilesWriter
    ensures { result ≡ options_with_zooms header.now metadata least greatest }
{
    PmTilesWriter::new(header.tile_type)
        .tile_compression(header.tile_compression)
        .min_zoom(least)
        .max_zoom(greatest)
        .bounds(
            header.min_longitude,
            header.min_latitude,
            header.max_longitude,
            header.max_latitude,
        )
        .center_zoom(header.center_zoom)
        .center(header.center_longitude, header.center_latitude)
        .metadata(metadata)
}

/// What the archive of a part says beside its tiles: its zooms are those of the part, and the rest is as in the
/// archive that it comes from.
pub fn part_options(header: &Header, metadata: TextVal, part: &TilePart) -> PmTilesWriter
    ensures { result ≡ part_options header.now metadata part.now }
{
    options_with_zooms(header, metadata, part.min_zoom, part.max_zoom)
}

/// The same of a subtree: its zooms are the tile's and the greatest one.
pub fn options_from(
    header: &Header,
    metadata: TextVal,
    root: TileCoord,
    max_zoom: u8,
) -> PmTilesWriter
    ensures { result ≡ options_from header.now metadata root max_zoom }
{
    options_with_zooms(header, metadata, root.z(), max_zoom)
}

/// The extraction's word for the error of a walk that may come to so many tiles.
fn of_walk(error: WalkError, max_tiles: u64) -> ExtractError
    ensures { result ≡ of_walk_error max_tiles error }
{
    match error {
        WalkError::Archive(error) => of_reader(error),
        WalkError::InvalidTileId(id) | WalkError::TooDeep(id) => {
            ExtractError::Archive(PmtError::InvalidTileId(id))
        }
        WalkError::TooManyTiles => ExtractError::TooManyTiles(max_tiles),
    }
}

/// The tile entries of an archive that lie in intervals of ids, clipped to them, in order of their ids: offsets count
/// from the data part, lengths are bytes. Refused with `TooManyTiles` where they have more tiles than the limit, and
/// with `Archive` where a directory on the way is broken.
pub fn collect_intervals<B: Backend>(
    alloc: Global,
    state: &ReaderState,
    source: &mut B,
    intervals: &IdIntervals,
    max_tiles: u64,
) -> Result<Vec<DirEntry>, ExtractError>
    ensures collected { IfSome (B.told source.old) (λ b. IfOk result (λ parts. IsCollected
        (walked extents.Within 6 (header_of state.now) b intervals.now 0 None (root_of state.now))
        intervals.now max_tiles parts.items)) }
    ensures refused { IfSome (B.told source.old) (λ b. IfErr result (CollectRefuses
        (walked extents.Within 6 (header_of state.now) b intervals.now 0 None (root_of state.now))
        intervals.now max_tiles)) }
    ensures ordered { IfOk result (λ parts. AreOrdered 0 parts.items None) }
    ensures few { IfOk result (λ parts. tile_count parts.items ≤ max_tiles) }
    ensures within { IfOk result (λ parts. AllLieIn intervals.now parts.items) }
    ensures causes { IfErr result
        (CollectCauses max_tiles (B.faults source.old) (B.faults source.new)) }
    ensures still { SourceStands (B.faults source.old) (B.faults source.new) result }
    ensures kept { ReadsOnly B.told B.versions B.faults B.steady source.old source.new }
    ensures reads { IfSome (B.told source.old) (λ b. B.reads source.new ≤ B.reads source.old
        + (walked extents.Within 6 (header_of state.now) b intervals.now 0 None
        (root_of state.now)).reads) }
{
    match pm_walk::collect(alloc, state, source, intervals.as_slice(), max_tiles) {
        Ok(parts) => Ok(parts),
        Err(error) => Err(of_walk(error, max_tiles)),
    }
}

/// The same of those among a tile and its descendants down to a zoom of at most 31.
pub fn collect<B: Backend>(
    alloc: Global,
    state: &ReaderState,
    source: &mut B,
    root: TileCoord,
    max_zoom: u8,
    max_tiles: u64,
) -> Result<Vec<DirEntry>, ExtractError>
    requires least { root.z ≤ max_zoom }
    requires most { max_zoom ≤ 31 }
    ensures collected { IfSome (B.told source.old) (λ b. IfOk result (λ parts. IsCollected
        (walked extents.Within 6 (header_of state.now) b (intervals root max_zoom) 0 None
        (root_of state.now)) (intervals root max_zoom) max_tiles parts.items)) }
    ensures refused { IfSome (B.told source.old) (λ b. IfErr result (CollectRefuses
        (walked extents.Within 6 (header_of state.now) b (intervals root max_zoom) 0 None
        (root_of state.now)) (intervals root max_zoom) max_tiles)) }
    ensures ordered { IfOk result (λ parts. AreOrdered 0 parts.items None) }
    ensures few { IfOk result (λ parts. tile_count parts.items ≤ max_tiles) }
    ensures within { IfOk result (λ parts. AllLieIn (intervals root max_zoom) parts.items) }
    ensures causes { IfErr result
        (CollectCauses max_tiles (B.faults source.old) (B.faults source.new)) }
    ensures still { SourceStands (B.faults source.old) (B.faults source.new) result }
    ensures kept { ReadsOnly B.told B.versions B.faults B.steady source.old source.new }
    ensures reads { IfSome (B.told source.old) (λ b. B.reads source.new ≤ B.reads source.old
        + (walked extents.Within 6 (header_of state.now) b (intervals root max_zoom) 0 None
        (root_of state.now)).reads) }
{
    let intervals = subtree_intervals(alloc, root, max_zoom)?;
    collect_intervals(alloc, state, source, &intervals, max_tiles)
}
