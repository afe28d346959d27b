// The conversion of stores that are let go.
ghost use Rattle.std.specs.Prelude.{◌≡◌, ◌+◌, map, ℕ, false, true, IfOk, IsErrOf};
ghost use Rattle.tile_bridge.specs.Common.{KeepsMedium, Rose, told_of};
ghost use Rattle.tile_bridge.specs.Convert.{ConvertCauses};
ghost use Rattle.tile_bridge.specs.Leaves.{Leaves};
ghost use Rattle.tile_bridge.specs.Outcome.{due};
ghost use Rattle.tile_bridge.specs.ReadingBack.{GrewFrom, answered};
ghost use Rattle.tile_bridge.specs.Stands.{MediumStands};
ghost use Rattle.tile_bridge.specs.Stores.{HasFailed};

use crate::conversion::convert_set;
use crate::options::chosen;
use crate::resolving::resolve_owned;
use crate::{ArchiveOptions, ConvertError, ConvertReport};
use mb_store::{MemStore, TileStore};
use pm_format::{Compression, Medium};
use std::alloc::Global;
use tile_ids::TileCoord;

/// Converts as `convert` does, out of a base in memory and patches that are let go: the bytes of the base's rows
/// are moved into the set that is loaded, and no store stands beside the archive while it is written. So no
/// patch is stored in the base.
///
/// The answers are those of `convert`, but that `StoreFault` never has the place of the base.
pub fn convert_owned<P: TileStore + Drop, O: ArchiveOptions, M: Medium>(
    alloc: Global,
    base: MemStore,
    mut patches: Vec<P>,
    coords: &[TileCoord],
    options: &O,
    medium: &mut M,
) -> Result<ConvertReport, ConvertError>
    ensures causes { ConvertCauses (O.asks options.now).writer (due (λ _. true) told_of P.tells
        P.told base patches.items (O.asks options.now)) (M.told medium.old) result }
    ensures leaves { Leaves (O.gives options.now) (due (λ _. true) told_of P.tells P.told base
        patches.items (O.asks options.now)) (O.asks options.now) false (map P.tells patches.items)
        (map P.told patches.items) coords.now result (M.told medium.old) (M.told medium.new)
        (told_of base) (told_of base) }
    ensures store_fault { (place : ℕ) → IsErrOf result (ConvertError.StoreFault place)
        → HasFailed P.tells P.told P.faults P.steady patches.items place }
    ensures reads { IfOk result (λ report. GrewFrom (M.reads medium.old) (M.reads medium.new)
        (answered report.answers + 1)) }
    ensures fault { IsErrOf result ConvertError.MediumFault
        → Rose (M.faults medium.old) (M.faults medium.new) }
    ensures medium_kept { KeepsMedium M.told M.versions M.reads M.faults M.steady
        medium.old medium.new }
    ensures medium_still { MediumStands (M.faults medium.old) (M.faults medium.new) result }
{
    let length = medium.len()?;
    if length != 0 {
        return Err(ConvertError::MediumNotEmpty { length });
    }
    let asked = options.asked();
    let label = asked.writer.directory_label();
    if label != Compression::None {
        return Err(ConvertError::UnsupportedCompression(label));
    }
    let (set, aggregate) = resolve_owned(alloc, base, &mut patches, asked)?;
    drop(patches);
    let made = options.made_for(alloc, &set)?;
    convert_set(alloc, &set, aggregate, coords, chosen(asked, &made), medium)
}
