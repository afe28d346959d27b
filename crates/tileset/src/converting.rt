// The conversion of a script's stores, which are tables in memory and don't fail.
ghost use Rattle.std.specs.Prelude.{◌≡◌, All, Some, IfErr, IfOk, IsErrOf, map};
ghost use Rattle.tileset.specs.Common.{ConvertCauses, ConvertLeaves, HasAggregate, KeepsMedium, outcome, Rose};
ghost use Rattle.mb_store.specs.MemStore.{told_of};
ghost use Rattle.tile_bridge.specs.Stands.{MediumStands};
ghost use Rattle.tileset_script.specs.Section.{NeverFails};
ghost use Rattle.tileset.specs.Converting.{IsNoStoreFault, options_for};
ghost use Rattle.tileset.specs.Printed.{IsOfDue};

use mb_store::MemStore;
use pm_format::Medium;
use std::alloc::Global;
use tile_bridge::{ConvertError, ConvertOptions, ConvertReport, convert_owned};
use tile_ids::TileCoord;
use tileset_script::ScriptOptions;

// The options of a conversion that those of a script are.
fn convert_options(options: ScriptOptions) -> ConvertOptions
    ensures { result ≡ options_for options }
{
    ConvertOptions {
        force: options.force,
        verify: options.verify,
        writer: options.writer,
    }
}

/// Converts a base in memory after its patches, of which none fails: writes the archive to the medium, and answers the
/// coordinates from it. Base and patches are let go before the archive is written.
pub(crate) fn convert_stores<M: Medium>(
    alloc: Global,
    base: MemStore,
    patches: Vec<MemStore>,
    coords: &[TileCoord],
    options: ScriptOptions,
    medium: &mut M,
) -> Result<ConvertReport, ConvertError>
    requires patches { All NeverFails patches.items }
    ensures causes { ConvertCauses options.writer (Some (outcome (told_of base)
        (map told_of patches.items) options.force options.verify)) (M.told medium.old) result }
    ensures leaves { ConvertLeaves options.writer (Some (outcome (told_of base)
        (map told_of patches.items) options.force options.verify)) coords.now result
        (M.told medium.old) (M.told medium.new) }
    ensures reported { IfOk result (IsOfDue (outcome (told_of base)
        (map told_of patches.items) options.force options.verify) options.writer
        (M.told medium.old)) }
    ensures aggregate { IfOk result (HasAggregate (Some (outcome (told_of base)
        (map told_of patches.items) options.force options.verify))) }
    ensures stores { IfErr result IsNoStoreFault }
    ensures fault { IsErrOf result ConvertError.MediumFault
        → Rose (M.faults medium.old) (M.faults medium.new) }
    ensures medium_kept { KeepsMedium M.told M.versions M.reads M.faults M.steady
        medium.old medium.new }
    ensures medium_still { MediumStands (M.faults medium.old) (M.faults medium.new) result }
{
    let options = convert_options(options);
    convert_owned(alloc, base, patches, coords, &options, medium)
}
