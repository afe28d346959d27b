// The conversion of a set: its archive and answers, its aggregate hash, its base, and its reads.
ghost use Rattle.std.specs.Prelude.{◌≡◌, ◌+◌, IfOk, map};
ghost use Rattle.tile_bridge.specs.Leaves.{Leaves};
ghost use Rattle.tile_bridge.specs.Outcome.{due};
ghost use Rattle.tile_bridge.specs.ReadingBack.{GrewFrom, answered};

use mb_store::TileStore;
use pm_format::Medium;
use std::alloc::Global;
use tile_bridge::{ConvertError, ConvertOptions, ConvertReport, convert};
use tile_ids::TileCoord;

/// The archive of a set after its patches, and the answers from it.
pub fn converted<S: TileStore, P: TileStore, M: Medium>(
    alloc: Global,
    base: &mut S,
    patches: &mut Vec<P>,
    coords: &[TileCoord],
    options: &ConvertOptions,
    medium: &mut M,
) -> Result<ConvertReport, ConvertError>
    ensures leaves { Leaves (λ _ w. w ≡ options.now.writer) (due S.tells S.told P.tells P.told
        base.old patches.old.items options.now) options.now (S.tells base.old)
        (map P.tells patches.old.items) (map P.told patches.old.items) coords.now result
        (M.told medium.old) (M.told medium.new) (S.told base.old) (S.told base.new) }
{
    convert(alloc, base, patches, coords, options, medium)
}

/// The aggregate hash of a set after its patches.
pub fn summed<S: TileStore, P: TileStore, M: Medium>(
    alloc: Global,
    base: &mut S,
    patches: &mut Vec<P>,
    coords: &[TileCoord],
    options: &ConvertOptions,
    medium: &mut M,
) -> Result<ConvertReport, ConvertError>
    ensures leaves { Leaves (λ _ w. w ≡ options.now.writer) (due S.tells S.told P.tells P.told
        base.old patches.old.items options.now) options.now (S.tells base.old)
        (map P.tells patches.old.items) (map P.told patches.old.items) coords.now result
        (M.told medium.old) (M.told medium.new) (S.told base.old) (S.told base.new) }
{
    convert::<S, P, ConvertOptions, M>(alloc, base, patches, coords, options, medium)
}

/// What a base holds after its patches.
pub fn base_after<S: TileStore, P: TileStore, M: Medium>(
    alloc: Global,
    base: &mut S,
    patches: &mut Vec<P>,
    coords: &[TileCoord],
    options: &ConvertOptions,
    medium: &mut M,
) -> Result<ConvertReport, ConvertError>
    ensures leaves { Leaves (λ _ w. w ≡ options.now.writer) (due S.tells S.told P.tells P.told
        base.old patches.old.items options.now) options.now (S.tells base.old)
        (map P.tells patches.old.items) (map P.told patches.old.items) coords.now result
        (M.told medium.old) (M.told medium.new) (S.told base.old) (S.told base.new) }
{
    let done = convert(alloc, base, patches, coords, options, medium);
    done
}

/// How often the archive of a set is read for the answers.
pub fn reads_back<S: TileStore, P: TileStore, M: Medium>(
    alloc: Global,
    base: &mut S,
    patches: &mut Vec<P>,
    coords: &[TileCoord],
    options: &ConvertOptions,
    medium: &mut M,
) -> Result<ConvertReport, ConvertError>
    ensures reads { IfOk result (λ report. GrewFrom (M.reads medium.old) (M.reads medium.new)
        (answered report.answers + 1)) }
{
    tile_bridge::convert(alloc, base, patches, coords, options, medium)
}
