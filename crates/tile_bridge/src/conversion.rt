// The conversion of a set.
ghost use Rattle.std.specs.Prelude.{◌≡◌, ◌+◌, ◌∷◌, false, map, ℕ, IfOk, IsErrOf};
ghost use Rattle.tile_bridge.specs.Common.{aggregate, Keeps, KeepsMedium, Rose};
ghost use Rattle.tile_bridge.specs.Convert.{ConvertCauses, HasPlaces, IsEmpty, IsPlain, SetCauses, SetLeaves};
ghost use Rattle.tile_bridge.specs.Leaves.{Leaves};
ghost use Rattle.tile_bridge.specs.Outcome.{due, overflows};
ghost use Rattle.tile_bridge.specs.ReadingBack.{GrewFrom, answered, of_read_error};
ghost use Rattle.tile_bridge.specs.Stands.{MediumStands, StoresStand};
ghost use Rattle.tile_bridge.specs.Stores.{AreOnlyRead, RoseAt};
ghost use Rattle.tile_bridge.specs.Writing.{of_write_error};

use crate::adds::make_adds;
use crate::options::chosen;
use crate::patching::store_patches;
use crate::reading_back::read_answers;
use crate::resolving::resolve;
use crate::writing::write_archive;
use crate::{ArchiveOptions, ConvertError, ConvertReport};
use base_values::TextVal;
use mb_loaded::Loaded;
use mb_store::TileStore;
use pm_format::{Compression, Medium, PmtError, ReadCause};
use pm_writer::PmTilesWriter;
use std::alloc::Global;
use tile_ids::TileCoord;

// The conversion's word for the error of a writer that can only fail or find no memory.
fn of_writer(error: PmtError) -> ConvertError
    ensures { result ≡ of_write_error error }
{
    match error {
        PmtError::OutOfMemory => ConvertError::OutOfMemory,
        _ => ConvertError::MediumFault,
    }
}

// The conversion's word for the error of a reader.
fn of_reader(error: PmtError) -> ConvertError
    ensures { result ≡ of_read_error error }
{
    match error {
        PmtError::OutOfMemory => ConvertError::OutOfMemory,
        PmtError::Reading(ReadCause::Fault) => ConvertError::MediumFault,
        error => ConvertError::ReadBack(error),
    }
}

/// Writes the archive of a set to an empty medium, and reads the tiles at the coordinates from it.
pub(crate) fn convert_set<M: Medium>(
    alloc: Global,
    set: &Loaded,
    aggregate: TextVal,
    coords: &[TileCoord],
    options: &PmTilesWriter,
    medium: &mut M,
) -> Result<ConvertReport, ConvertError>
    requires empty { IsEmpty (M.told medium.old) }
    requires plain { IsPlain options.now }
    requires size { overflows set.now.state.tiles ≡ false }
    ensures causes { SetCauses (M.told medium.old) result }
    ensures leaves { SetLeaves options.now set.now.state.tiles coords.now result (M.told medium.old)
        (M.told medium.new) }
    ensures aggregate { IfOk result (λ report. report.aggregate ≡ aggregate) }
    ensures places { IfOk result (HasPlaces options.now set.now.state.tiles (M.told medium.old)) }
    ensures reads { IfOk result (λ report. GrewFrom (M.reads medium.old) (M.reads medium.new)
        (answered report.answers + 1)) }
    ensures fault { IsErrOf result ConvertError.MediumFault
        → Rose (M.faults medium.old) (M.faults medium.new) }
    ensures kept { KeepsMedium M.told M.versions M.reads M.faults M.steady medium.old medium.new }
    ensures still { MediumStands (M.faults medium.old) (M.faults medium.new) result }
{
    let adds = make_adds(alloc, set)?;
    options.fits();
    let places = match write_archive(alloc, options, set, &adds, medium) {
        Ok(places) => places,
        Err(error) => return Err(of_writer(error)),
    };
    match read_answers(alloc, medium, coords) {
        Ok(answers) => Ok(ConvertReport {
            answers,
            aggregate,
            places,
        }),
        Err(error) => Err(of_reader(error)),
    }
}

/// Converts a base and its patches to an archive, and reads the tiles at the coordinates from it. The medium is asked
/// for its length, and the label of directories is tested, as far as it is asked for; then base and patches are loaded
/// and tested, and the options are made, where the set gives them; then the base is patched, and the archive written.
pub fn convert<S: TileStore, P: TileStore, O: ArchiveOptions, M: Medium>(
    alloc: Global,
    base: &mut S,
    patches: &mut Vec<P>,
    coords: &[TileCoord],
    options: &O,
    medium: &mut M,
) -> Result<ConvertReport, ConvertError>
    ensures causes { ConvertCauses (O.asks options.now).writer (due S.tells S.told P.tells P.told
        base.old patches.old.items (O.asks options.now)) (M.told medium.old) result }
    ensures leaves { Leaves (O.gives options.now) (due S.tells S.told P.tells P.told base.old
        patches.old.items (O.asks options.now)) (O.asks options.now) (S.tells base.old)
        (map P.tells patches.old.items) (map P.told patches.old.items) coords.now result
        (M.told medium.old) (M.told medium.new) (S.told base.old) (S.told base.new) }
    ensures patches { AreOnlyRead P.tells P.told P.faults P.steady
        patches.old.items patches.new.items }
    ensures store_fault { (place : ℕ) → IsErrOf result (ConvertError.StoreFault place)
        → RoseAt place (S.faults base.old ∷ map P.faults patches.old.items)
        (S.faults base.new ∷ map P.faults patches.new.items) }
    ensures reads { IfOk result (λ report. GrewFrom (M.reads medium.old) (M.reads medium.new)
        (answered report.answers + 1)) }
    ensures fault { IsErrOf result ConvertError.MediumFault
        → Rose (M.faults medium.old) (M.faults medium.new) }
    ensures base_kept { Keeps S.tells S.faults S.steady base.old base.new }
    ensures medium_kept { KeepsMedium M.told M.versions M.reads M.faults M.steady
        medium.old medium.new }
    ensures stores_still { StoresStand (S.faults base.old ∷ map P.faults patches.old.items)
        (S.faults base.new ∷ map P.faults patches.new.items) result }
    ensures medium_still { MediumStands (M.faults medium.old) (M.faults medium.new) result }
{
    let length = medium.len()?;
    if length != 0 {
        return Err(ConvertError::MediumNotEmpty { length });
    }
    let asked = options.asked();
    let label = asked.writer.directory_label();
    if label != Compression::None {
        return Err(ConvertError::UnsupportedCompression(label));
    }
    let (set, aggregate) = resolve(alloc, base, patches, asked)?;
    let made = options.made_for(alloc, &set)?;
    store_patches(alloc, base, &set, !patches.is_empty())?;
    convert_set(alloc, &set, aggregate, coords, chosen(asked, &made), medium)
}
