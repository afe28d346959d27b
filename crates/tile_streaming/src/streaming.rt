// The conversion of a base, with patches or without, of which no contents are held.
ghost use Rattle.std.specs.Prelude.{◌≡◌, ◌+◌, ◌∷◌, ◌||◌, [], ℕ, is_some, map, true, IfOk, IsErrOf};
ghost use Rattle.tile_streaming.specs.Common.{answered, due, GrewFrom, IsEmpty, IsPlain, Keeps, KeepsMedium, Rose, RoseAt};
ghost use Rattle.byte_media.specs.Kept as media;
ghost use Rattle.tile_bridge.specs.Stands as tests;
ghost use Rattle.tile_bridge.specs.Stores.{AreOnlyRead};
ghost use Rattle.tile_streaming.specs.Stands.{MediumStands, StoresStand};
ghost use Rattle.tile_streaming.specs.Streaming.{due_of, PartLeaves, StreamCauses, StreamLeaves, TestCauses};

use crate::converting::convert_marked;
use crate::resolving::resolve;
use crate::{StreamError, StreamOptions, StreamReport};
use mb_store::{MemStore, TileStore};
use pm_format::{Compression, Medium};
use std::alloc::Global;
use tile_bridge::{ConvertError, ConvertOptions};
use tile_extract::IdIntervals;
use tile_ids::TileCoord;

// What is tested before a store is read: the medium is empty, and directories are labelled `None`.
fn test_medium<M: Medium>(options: &ConvertOptions, medium: &mut M) -> Result<(), ConvertError>
    ensures causes { TestCauses options.now.writer (M.told medium.old)
        (M.faults medium.old) (M.faults medium.new) result }
    ensures reads { M.reads medium.new ≡ M.reads medium.old }
    ensures kept { media.ReadsOnly M.told M.versions M.faults M.steady medium.old medium.new }
    ensures still { tests.MediumStands (M.faults medium.old) (M.faults medium.new) result }
{
    let length = medium.len()?;
    if length != 0 {
        return Err(ConvertError::MediumNotEmpty { length });
    }
    let label = options.writer.directory_label();
    if label != Compression::None {
        return Err(ConvertError::UnsupportedCompression(label));
    }
    Ok(())
}

// The conversion of a part of a base and its patches onto a medium that was tested.
fn convert_tested<S: TileStore, P: TileStore, O: StreamOptions, M: Medium>(
    alloc: Global,
    base: &mut S,
    patches: &mut Vec<P>,
    part: &Option<IdIntervals>,
    coords: &[TileCoord],
    options: &O,
    hash: bool,
    medium: &mut M,
) -> Result<StreamReport, StreamError>
    requires empty { IsEmpty (M.told medium.old) }
    requires plain { IsPlain (O.asks options.now).writer }
    ensures causes { StreamCauses (O.asks options.now).writer (due S.tells S.told P.tells P.told
        base.old patches.old.items (O.asks options.now)) (S.tells base.old) (M.told medium.old)
        result }
    ensures leaves { PartLeaves part.now (O.gives options.now) (due S.tells S.told P.tells P.told
        base.old patches.old.items (O.asks options.now)) (S.tells base.old) coords.now result
        (M.told medium.old) (M.told medium.new) }
    ensures aggregate { IfOk result
        (λ report. is_some report.aggregate ≡ (O.asks options.now).verify || hash) }
    ensures patches { AreOnlyRead P.tells P.told P.faults P.steady
        patches.old.items patches.new.items }
    ensures store_fault { (place : ℕ)
        → IsErrOf result (StreamError.Convert (ConvertError.StoreFault place))
        → RoseAt place (S.faults base.old ∷ map P.faults patches.old.items)
        (S.faults base.new ∷ map P.faults patches.new.items) }
    ensures reads { IfOk result (λ report. GrewFrom (M.reads medium.old) (M.reads medium.new)
        (answered report.answers + 1)) }
    ensures fault { IsErrOf result (StreamError.Convert ConvertError.MediumFault)
        → Rose (M.faults medium.old) (M.faults medium.new) }
    ensures told { S.tells base.old ≡ true → S.told base.new ≡ S.told base.old }
    ensures base_kept { Keeps S.tells S.faults S.steady base.old base.new }
    ensures medium_kept { KeepsMedium M.told M.versions M.reads M.faults M.steady
        medium.old medium.new }
    ensures stores_still { StoresStand (S.faults base.old ∷ map P.faults patches.old.items)
        (S.faults base.new ∷ map P.faults patches.new.items) result }
    ensures medium_still { MediumStands (M.faults medium.old) (M.faults medium.new) result }
{
    match resolve(alloc, base, patches, options.asked().force) {
        Ok(set) => convert_marked(alloc, base, &set, part, coords, options, hash, medium),
        Err(error) => Err(StreamError::Convert(error)),
    }
}

/// Converts a part of a base and its patches to an archive, as `convert_patched` converts all of it, and
/// reads the tiles at the coordinates from it. The part is the tiles whose ids lie in intervals, or
/// without intervals all of them.
///
/// The whole set is read and tested, and its options, its hash and each refusal are those of the whole. Only the tiles
/// that are written, and so the places, are those of the part. The contents of the others aren't read again, but where
/// the hash is asked for. The marks of the part are held beside those of the whole.
pub fn convert_part<S: TileStore, P: TileStore, O: StreamOptions, M: Medium>(
    alloc: Global,
    base: &mut S,
    patches: &mut Vec<P>,
    part: &Option<IdIntervals>,
    coords: &[TileCoord],
    options: &O,
    hash: bool,
    medium: &mut M,
) -> Result<StreamReport, StreamError>
    ensures causes { StreamCauses (O.asks options.now).writer (due S.tells S.told P.tells P.told
        base.old patches.old.items (O.asks options.now)) (S.tells base.old) (M.told medium.old)
        result }
    ensures leaves { PartLeaves part.now (O.gives options.now) (due S.tells S.told P.tells P.told
        base.old patches.old.items (O.asks options.now)) (S.tells base.old) coords.now result
        (M.told medium.old) (M.told medium.new) }
    ensures aggregate { IfOk result
        (λ report. is_some report.aggregate ≡ (O.asks options.now).verify || hash) }
    ensures patches { AreOnlyRead P.tells P.told P.faults P.steady
        patches.old.items patches.new.items }
    ensures store_fault { (place : ℕ)
        → IsErrOf result (StreamError.Convert (ConvertError.StoreFault place))
        → RoseAt place (S.faults base.old ∷ map P.faults patches.old.items)
        (S.faults base.new ∷ map P.faults patches.new.items) }
    ensures reads { IfOk result (λ report. GrewFrom (M.reads medium.old) (M.reads medium.new)
        (answered report.answers + 1)) }
    ensures fault { IsErrOf result (StreamError.Convert ConvertError.MediumFault)
        → Rose (M.faults medium.old) (M.faults medium.new) }
    ensures told { S.tells base.old ≡ true → S.told base.new ≡ S.told base.old }
    ensures base_kept { Keeps S.tells S.faults S.steady base.old base.new }
    ensures medium_kept { KeepsMedium M.told M.versions M.reads M.faults M.steady
        medium.old medium.new }
    ensures stores_still { StoresStand (S.faults base.old ∷ map P.faults patches.old.items)
        (S.faults base.new ∷ map P.faults patches.new.items) result }
    ensures medium_still { MediumStands (M.faults medium.old) (M.faults medium.new) result }
{
    match test_medium(options.asked(), medium) {
        Ok(()) => convert_tested(alloc, base, patches, part, coords, options, hash, medium),
        Err(error) => Err(StreamError::Convert(error)),
    }
}

/// Converts a base and its patches to an archive, and reads the tiles at the coordinates from it, as `convert_owned`
/// does, in the memory of marks: 24 bytes for each tile, and the contents of one. The tiles that patches put are held,
/// and each patch is loaded alone. No patch is stored in the base.
///
/// The medium is asked for its length, and the label of directories is tested; then the rows of the base, which has
/// place 0, are read and tested by pages, those of the contents of a normalised set first; then each patch is loaded
/// and tested (the k-th has place k); then the contents of each tile that no patch has are read again, in the order of
/// the archive, and added. Of a normalised set the ids of contents are held too while its rows are read, with a mark of
/// 16 bytes each. Where its ids are digests, the contents that a patch puts are sought in it by their digests, one
/// look-up for each tile of the patch; where it has others under one, the rows of its tiles that no patch has are
/// sought, one after another, until one names that digest.
///
/// The hash of all tiles is reported where it is to be verified (`verify` of the options), and where it is wanted for
/// itself (`hash`). It needs the contents by place, so that each is read once more before the archive, in the memory of
/// 16 bytes more for each tile. That memory is let go before the archive is begun.
///
/// The answers are those of `convert_owned`. `StoreChanged` comes only over a base that tells nothing: the second time
/// it had no row for a tile, or contents of another length, digest or beginning. Over such a base the contents that are
/// hashed and those that are written were answered by two calls: both have the marks that were read.
pub fn convert_patched<S: TileStore, P: TileStore, O: StreamOptions, M: Medium>(
    alloc: Global,
    base: &mut S,
    patches: &mut Vec<P>,
    coords: &[TileCoord],
    options: &O,
    hash: bool,
    medium: &mut M,
) -> Result<StreamReport, StreamError>
    ensures causes { StreamCauses (O.asks options.now).writer (due S.tells S.told P.tells P.told
        base.old patches.old.items (O.asks options.now)) (S.tells base.old) (M.told medium.old)
        result }
    ensures leaves { StreamLeaves (O.gives options.now) (due S.tells S.told P.tells P.told
        base.old patches.old.items (O.asks options.now)) (S.tells base.old) coords.now result
        (M.told medium.old) (M.told medium.new) }
    ensures aggregate { IfOk result
        (λ report. is_some report.aggregate ≡ (O.asks options.now).verify || hash) }
    ensures patches { AreOnlyRead P.tells P.told P.faults P.steady
        patches.old.items patches.new.items }
    ensures store_fault { (place : ℕ)
        → IsErrOf result (StreamError.Convert (ConvertError.StoreFault place))
        → RoseAt place (S.faults base.old ∷ map P.faults patches.old.items)
        (S.faults base.new ∷ map P.faults patches.new.items) }
    ensures reads { IfOk result (λ report. GrewFrom (M.reads medium.old) (M.reads medium.new)
        (answered report.answers + 1)) }
    ensures fault { IsErrOf result (StreamError.Convert ConvertError.MediumFault)
        → Rose (M.faults medium.old) (M.faults medium.new) }
    ensures told { S.tells base.old ≡ true → S.told base.new ≡ S.told base.old }
    ensures base_kept { Keeps S.tells S.faults S.steady base.old base.new }
    ensures medium_kept { KeepsMedium M.told M.versions M.reads M.faults M.steady
        medium.old medium.new }
    ensures stores_still { StoresStand (S.faults base.old ∷ map P.faults patches.old.items)
        (S.faults base.new ∷ map P.faults patches.new.items) result }
    ensures medium_still { MediumStands (M.faults medium.old) (M.faults medium.new) result }
{
    convert_part(alloc, base, patches, &None, coords, options, hash, medium)
}

/// Converts a set without patches to an archive, and reads the tiles at the coordinates from it, as `convert` does, in
/// the memory of marks: 24 bytes for each tile, and the contents of one.
///
/// The medium is asked for its length, and the label of directories is tested; then the rows are read and tested by
/// pages, those of the contents of a normalised set first; then the contents of each tile are read again, in the order
/// of the archive, and added. Of a normalised set the ids of contents are held too, with a mark of 16 bytes each.
///
/// The hash of all tiles is reported where it is to be verified (`verify` of the options), and where it is wanted for
/// itself (`hash`). It needs the contents by place, so that each is read once more before the archive, in the memory of
/// 16 bytes more for each tile. That memory is let go before the archive is begun.
///
/// The answers are those of `convert`. `StoreChanged` comes only over a store that tells nothing: the second time it
/// had no row for a tile, or contents of another length, digest or beginning. Over such a store the contents that are
/// hashed and those that are written were answered by two calls: both have the marks that were read.
pub fn convert_streamed<S: TileStore, O: StreamOptions, M: Medium>(
    alloc: Global,
    base: &mut S,
    coords: &[TileCoord],
    options: &O,
    hash: bool,
    medium: &mut M,
) -> Result<StreamReport, StreamError>
    ensures causes { StreamCauses (O.asks options.now).writer
        (due_of S.tells S.told base.old (O.asks options.now)) (S.tells base.old)
        (M.told medium.old) result }
    ensures leaves { StreamLeaves (O.gives options.now)
        (due_of S.tells S.told base.old (O.asks options.now)) (S.tells base.old) coords.now result
        (M.told medium.old) (M.told medium.new) }
    ensures aggregate { IfOk result
        (λ report. is_some report.aggregate ≡ (O.asks options.now).verify || hash) }
    ensures store_fault { (place : ℕ)
        → IsErrOf result (StreamError.Convert (ConvertError.StoreFault place))
        → RoseAt place (S.faults base.old ∷ []) (S.faults base.new ∷ []) }
    ensures reads { IfOk result (λ report. GrewFrom (M.reads medium.old) (M.reads medium.new)
        (answered report.answers + 1)) }
    ensures fault { IsErrOf result (StreamError.Convert ConvertError.MediumFault)
        → Rose (M.faults medium.old) (M.faults medium.new) }
    ensures told { S.tells base.old ≡ true → S.told base.new ≡ S.told base.old }
    ensures base_kept { Keeps S.tells S.faults S.steady base.old base.new }
    ensures medium_kept { KeepsMedium M.told M.versions M.reads M.faults M.steady
        medium.old medium.new }
    ensures stores_still { StoresStand (S.faults base.old ∷ []) (S.faults base.new ∷ []) result }
    ensures medium_still { MediumStands (M.faults medium.old) (M.faults medium.new) result }
{
    let mut none: Vec<MemStore> = Vec::new(alloc);
    convert_patched(alloc, base, &mut none, coords, options, hash, medium)
}
