// The conversion of a set of which marks are held, and one content at a time.
ghost use Rattle.std.specs.Prelude.{◌≡◌, ◌+◌, ◌∷◌, ◌||◌, [], ℕ, false, is_some, IfOk, IfSome, IsErrOf, List, MatchOption, Option, Result, unwrap_or};
ghost use Rattle.tile_streaming.specs.Common.{answered, ConvertError, GrewFrom, IsEmpty, IsPlain, KeepsMedium, ReadsOnly, Rose, RoseAt, State};
ghost use Rattle.tile_streaming.specs.Hashing.{IsHashOf, IsRight};
ghost use Rattle.tile_streaming.specs.Part.{part_in};
ghost use Rattle.tile_streaming.specs.PatchedSet.{stored_in};
ghost use Rattle.tile_streaming.specs.Sizing.{overflow_of};
ghost use Rattle.tile_streaming.specs.Stands.{MediumStands, StoresStand};
ghost use Rattle.tile_streaming.specs.Streaming.{IsHeld, IsHeldOf, IsHeldWith, PartLeaves, StreamCauses, tested_due};

use crate::error::of_reader;
use crate::part::part_marks;
use crate::patched_set::PatchedSet;
use crate::sizing::mark_overflows;
use crate::verifying::hash_for;
use crate::writing::write_part;
use crate::{Mark, StreamError, StreamOptions, StreamReport};
use base_values::TextVal;
use mb_store::TileStore;
use pm_format::Medium;
use pm_writer::PmTilesWriter;
use std::alloc::Global;
use tile_bridge::{ConvertError, ConvertOptions, read_answers};
use tile_extract::IdIntervals;
use tile_ids::TileCoord;

// The conversion of a part of a set whose marks are held, by the options of its archive.
fn convert_held<S: TileStore, M: Medium>(
    alloc: Global,
    base: &mut S,
    set: &PatchedSet,
    part: &Option<IdIntervals>,
    found: &Option<Vec<Mark>>,
    coords: &[TileCoord],
    asked: &ConvertOptions,
    writer: &PmTilesWriter,
    aggregate: Option<TextVal>,
    medium: &mut M,
) -> Result<StreamReport, StreamError>
    requires kept { MatchOption found.now
        (part_in part.now set.now.marked ≡ set.now.marked.marks.items)
        (λ kept. part_in part.now set.now.marked ≡ kept.items) }
    requires held { IsHeld (S.tells base.old) (stored_in set.now (S.told base.old)) set.now.marked }
    requires right { IsRight asked.now.verify (S.tells base.old)
        (stored_in set.now (S.told base.old)) set.now.marked }
    requires hashed { IfSome aggregate (IsHashOf (S.tells base.old)
        (stored_in set.now (S.told base.old)) set.now.marked) }
    requires empty { IsEmpty (M.told medium.old) }
    requires label { IsPlain asked.now.writer }
    requires plain { IsPlain writer.now }
    requires size { overflow_of set.now.marked.marks.items ≡ false }
    ensures causes { (begun : Option (Result State ConvertError))
        → IsHeldOf begun (S.tells base.old) (stored_in set.now (S.told base.old)) set.now.marked
        → StreamCauses asked.now.writer (tested_due asked.now.verify begun) (S.tells base.old)
        (M.told medium.old) result }
    ensures leaves { (begun : Option (Result State ConvertError))
        → IsHeldOf begun (S.tells base.old) (stored_in set.now (S.told base.old)) set.now.marked
        → PartLeaves part.now (IsHeldWith set.now.marked writer.now)
        (tested_due asked.now.verify begun) (S.tells base.old) coords.now result
        (M.told medium.old) (M.told medium.new) }
    ensures aggregate { IfOk result (λ report. report.aggregate ≡ aggregate) }
    ensures store_fault { (place : ℕ)
        → IsErrOf result (StreamError.Convert (ConvertError.StoreFault place))
        → RoseAt place (S.faults base.old ∷ []) (S.faults base.new ∷ []) }
    ensures reads { IfOk result (λ report. GrewFrom (M.reads medium.old) (M.reads medium.new)
        (answered report.answers + 1)) }
    ensures fault { IsErrOf result (StreamError.Convert ConvertError.MediumFault)
        → Rose (M.faults medium.old) (M.faults medium.new) }
    ensures base_kept { ReadsOnly S.told S.tells S.faults S.steady base.old base.new }
    ensures medium_kept { KeepsMedium M.told M.versions M.reads M.faults M.steady
        medium.old medium.new }
    ensures base_still { (patches : List ℕ) → StoresStand (S.faults base.old ∷ patches)
        (S.faults base.new ∷ patches) result }
    ensures medium_still { MediumStands (M.faults medium.old) (M.faults medium.new) result }
{
    writer.fits();
    let places = write_part(alloc, base, set, part, found, writer, medium)?;
    match read_answers(alloc, medium, coords) {
        Ok(answers) => Ok(StreamReport {
            answers,
            aggregate,
            places,
        }),
        Err(error) => Err(of_reader(error)),
    }
}

// The writer of an archive: the one that was made for its set, or the one that was asked for.
fn chosen<'a>(asked: &'a ConvertOptions, made: &'a Option<PmTilesWriter>) -> &'a PmTilesWriter
    ensures writer { result.now ≡ unwrap_or made.now asked.now.writer }
    ensures plain { IsPlain asked.now.writer → IfSome made.now IsPlain → IsPlain result.now }
{
    match made {
        Some(writer) => writer,
        None => &asked.writer,
    }
}

// Converts a part of a set whose marks are held, and whose hash is there where it was asked for.
fn convert_hashed<S: TileStore, O: StreamOptions, M: Medium>(
    alloc: Global,
    base: &mut S,
    set: &PatchedSet,
    part: &Option<IdIntervals>,
    coords: &[TileCoord],
    options: &O,
    aggregate: Option<TextVal>,
    medium: &mut M,
) -> Result<StreamReport, StreamError>
    requires held { IsHeld (S.tells base.old) (stored_in set.now (S.told base.old)) set.now.marked }
    requires right { IsRight (O.asks options.now).verify (S.tells base.old)
        (stored_in set.now (S.told base.old)) set.now.marked }
    requires hashed { IfSome aggregate (IsHashOf (S.tells base.old)
        (stored_in set.now (S.told base.old)) set.now.marked) }
    requires empty { IsEmpty (M.told medium.old) }
    requires plain { IsPlain (O.asks options.now).writer }
    ensures causes { (begun : Option (Result State ConvertError))
        → IsHeldOf begun (S.tells base.old) (stored_in set.now (S.told base.old)) set.now.marked
        → StreamCauses (O.asks options.now).writer (tested_due (O.asks options.now).verify begun)
        (S.tells base.old) (M.told medium.old) result }
    ensures leaves { (begun : Option (Result State ConvertError))
        → IsHeldOf begun (S.tells base.old) (stored_in set.now (S.told base.old)) set.now.marked
        → PartLeaves part.now (O.gives options.now) (tested_due (O.asks options.now).verify begun)
        (S.tells base.old) coords.now result (M.told medium.old) (M.told medium.new) }
    ensures aggregate { IfOk result (λ report. report.aggregate ≡ aggregate) }
    ensures store_fault { (place : ℕ)
        → IsErrOf result (StreamError.Convert (ConvertError.StoreFault place))
        → RoseAt place (S.faults base.old ∷ []) (S.faults base.new ∷ []) }
    ensures reads { IfOk result (λ report. GrewFrom (M.reads medium.old) (M.reads medium.new)
        (answered report.answers + 1)) }
    ensures fault { IsErrOf result (StreamError.Convert ConvertError.MediumFault)
        → Rose (M.faults medium.old) (M.faults medium.new) }
    ensures base_kept { ReadsOnly S.told S.tells S.faults S.steady base.old base.new }
    ensures medium_kept { KeepsMedium M.told M.versions M.reads M.faults M.steady
        medium.old medium.new }
    ensures base_still { (patches : List ℕ) → StoresStand (S.faults base.old ∷ patches)
        (S.faults base.new ∷ patches) result }
    ensures medium_still { MediumStands (M.faults medium.old) (M.faults medium.new) result }
{
    if mark_overflows(&set.marked.marks) {
        return Err(StreamError::Convert(ConvertError::IndexEntryOverflow));
    }
    let made = options.made_for_marked(alloc, &set.marked)?;
    let asked = options.asked();
    let writer = chosen(asked, &made);
    let found = part_marks(alloc, part, set)?;
    convert_held(
        alloc, base, set, part, &found, coords, asked, writer, aggregate, medium,
    )
}

/// Converts a part of a set whose marks are held, with each of its contents that isn't held read again and one of them
/// in memory. Where the hash of all tiles is to be verified, or wanted for itself (`hash`), the contents of each are
/// read once more before, in the order of places.
pub(crate) fn convert_marked<S: TileStore, O: StreamOptions, M: Medium>(
    alloc: Global,
    base: &mut S,
    set: &PatchedSet,
    part: &Option<IdIntervals>,
    coords: &[TileCoord],
    options: &O,
    hash: bool,
    medium: &mut M,
) -> Result<StreamReport, StreamError>
    requires held { IsHeld (S.tells base.old) (stored_in set.now (S.told base.old)) set.now.marked }
    requires empty { IsEmpty (M.told medium.old) }
    requires plain { IsPlain (O.asks options.now).writer }
    ensures causes { (begun : Option (Result State ConvertError))
        → IsHeldOf begun (S.tells base.old) (stored_in set.now (S.told base.old)) set.now.marked
        → StreamCauses (O.asks options.now).writer (tested_due (O.asks options.now).verify begun)
        (S.tells base.old) (M.told medium.old) result }
    ensures leaves { (begun : Option (Result State ConvertError))
        → IsHeldOf begun (S.tells base.old) (stored_in set.now (S.told base.old)) set.now.marked
        → PartLeaves part.now (O.gives options.now) (tested_due (O.asks options.now).verify begun)
        (S.tells base.old) coords.now result (M.told medium.old) (M.told medium.new) }
    ensures aggregate { IfOk result
        (λ report. is_some report.aggregate ≡ (O.asks options.now).verify || hash) }
    ensures store_fault { (place : ℕ)
        → IsErrOf result (StreamError.Convert (ConvertError.StoreFault place))
        → RoseAt place (S.faults base.old ∷ []) (S.faults base.new ∷ []) }
    ensures reads { IfOk result (λ report. GrewFrom (M.reads medium.old) (M.reads medium.new)
        (answered report.answers + 1)) }
    ensures fault { IsErrOf result (StreamError.Convert ConvertError.MediumFault)
        → Rose (M.faults medium.old) (M.faults medium.new) }
    ensures base_kept { ReadsOnly S.told S.tells S.faults S.steady base.old base.new }
    ensures medium_kept { KeepsMedium M.told M.versions M.reads M.faults M.steady
        medium.old medium.new }
    ensures base_still { (patches : List ℕ) → StoresStand (S.faults base.old ∷ patches)
        (S.faults base.new ∷ patches) result }
    ensures medium_still { MediumStands (M.faults medium.old) (M.faults medium.new) result }
{
    let aggregate = hash_for(alloc, base, set, options.asked().verify, hash)?;
    convert_hashed(alloc, base, set, part, coords, options, aggregate, medium)
}
