// The check of an archive, and the part of one that lies below a tile.
ghost use Rattle.std.specs.Prelude.{◌≤◌, IfOk, IfSome};
ghost use Rattle.pm_walk.specs.Collecting.{AllLieIn};
ghost use Rattle.tile_extract.specs.Cut.{intervals};
ghost use Rattle.tile_verify.specs.Checking.{Answers};

use pm_format::{Backend, DirEntry};
use pm_reader::ReaderState;
use std::alloc::Global;
use tile_extract::{ExtractError, collect};
use tile_ids::TileCoord;
use tile_verify::{VerifyError, VerifyReport, verify};

/// Whether an archive is sound.
pub fn check<B: Backend>(alloc: Global, source: &mut B) -> Result<VerifyReport, VerifyError>
    ensures answer { IfSome (B.told source.old) (λ b. Answers b result) }
{
    verify(alloc, source)
}

/// The tile entries at a tile and its descendants down to a zoom.
pub fn entries_below<B: Backend>(
    alloc: Global,
    state: &ReaderState,
    source: &mut B,
    root: TileCoord,
    max_zoom: u8,
    max_tiles: u64,
) -> Result<Vec<DirEntry>, ExtractError>
    requires least { root.z ≤ max_zoom }
    requires most { max_zoom ≤ 31 }
    ensures within { IfOk result (λ parts. AllLieIn (intervals root max_zoom) parts.items) }
{
    collect(alloc, state, source, root, max_zoom, max_tiles)
}
