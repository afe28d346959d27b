// Loading a set.
ghost use Rattle.mb_load.specs.Common.{FaultsCounted, index_missing, layout_of, metadata_missing, ReadsOnly, Tables, told_of};
ghost use Rattle.std.specs.Prelude.{◌≡◌, ◌≢◌, Err, None, Some, true, IfErr, IfOk};
ghost use Rattle.mb_load.specs.Loading.{Loads};
ghost use Rattle.mb_load.specs.LoadedFrom.{IsLoadable, IsLoadedFrom, NamesAlgorithm};
ghost use Rattle.mb_load.specs.StateOf.{state_of};

use crate::from_rows::loaded_from;
use crate::reading::{read_all, take_all};
use mb_constraints::has_metadata;
use mb_loaded::Loaded;
use mb_store::{
    MbtError, MbtResult, MbtType, MemStore, TableDesc, TileStore, detect_type, get_patch_type,
};
use std::alloc::Global;

// The layout of a set whose descriptions pass their tests, or their first refusal.
fn layout_in(tables: &[TableDesc]) -> MbtResult<MbtType>
    ensures layout { IfOk result (λ layout. layout_of tables.now ≡ Some layout) }
    ensures metadata { IfOk result (λ layout. metadata_missing tables.now ≡ None) }
    ensures index { IfOk result (λ layout. index_missing tables.now layout ≡ None) }
    ensures unfaulted { IfErr result (λ e. e ≢ MbtError.StoreFault) }
    ensures refused { IfErr result (λ e. (t : Tables) → t.descriptions ≡ tables.now
        → state_of t ≡ Err e) }
{
    let detected = detect_type(tables);
    if !has_metadata(tables) {
        return Err(MbtError::InvalidDataFormat);
    }
    detected
}

/// Loads a set: what its tables hold, or the first refusal of the tests of loading, in their order.
///
/// 1. `InvalidDataFormat`: the tables are of no layout, or there is no table `metadata` with
///    columns `name` and `value`.
/// 2. `NoUniquenessConstraint`: no unique index of exactly the columns of a place keeps the tiles apart; then
///    an id of contents twice.
/// 3. `InvalidDataFormat`: a name, value, digest, id, fetched, expires or etag that is neither null nor of
///    its kind, or a name twice.
/// 4. `UnsupportedHashAlgorithm`: the stored algorithm is none of the five, with its name as it is stored.
/// 5. `InvalidTileIndex`: the first row of a tile whose place is none of zoom 0 to 30, or whose contents
///    are neither bytes nor null.
/// 6. `MissingTileReference`: the first row of a tile whose contents aren't there.
/// 7. `IncorrectTileHash`: the first stored digest, in upper case, that isn't that of its bytes.
/// 8. `NoUniquenessConstraint`: a place stands twice, as only in a store that breaks its own index or
///    changes while it is read.
///
/// A store that tells nothing is refused, or loaded, as tables are that its answers could be of. `StoreFault` comes
/// only where the store's count of faults rose, and at Ok the count stands. The store holds what it held, whatever the
/// answer.
pub fn load<S: TileStore>(alloc: Global, store: &mut S) -> MbtResult<Loaded>
    ensures answer { S.tells store.old ≡ true → Loads (state_of (S.told store.old)) result }
    ensures own { (t : Tables) × Loads (state_of t) result }
    ensures loaded { S.tells store.old ≡ true → IfOk result (IsLoadedFrom (S.told store.old)) }
    ensures whole { IfOk result (λ h. IsLoadable h.state) }
    ensures named { IfOk result (λ h. NamesAlgorithm h.state) }
    ensures kept { ReadsOnly S.told S.tells S.faults S.steady store.old store.new }
    ensures fault { FaultsCounted S.faults store.old store.new result MbtError.StoreFault }
{
    let descriptions = store.describe(alloc)?;
    let layout = layout_in(&descriptions)?;
    let patch_type = get_patch_type(&descriptions);
    let rows = read_all(alloc, store, layout)?;
    loaded_from(
        alloc,
        layout,
        patch_type,
        rows.metadata,
        rows.contents,
        rows.tiles,
    )
}

/// Loads a set as `load` does, out of a store in memory that is let go: the texts and bytes of its rows are moved, so
/// that they stand in memory once. The refusals of `load` are these, but that no fault comes: none of the store's
/// calls is made that can fail.
pub fn load_owned(alloc: Global, store: MemStore) -> MbtResult<Loaded>
    ensures answer { Loads (state_of (told_of store)) result }
    ensures loaded { IfOk result (IsLoadedFrom (told_of store)) }
    ensures whole { IfOk result (λ h. IsLoadable h.state) }
    ensures named { IfOk result (λ h. NamesAlgorithm h.state) }
    ensures unfaulted { IfErr result (λ e. e ≢ MbtError.StoreFault) }
{
    let described = store.descriptions();
    let layout = layout_in(described)?;
    let patch_type = get_patch_type(described);
    let rows = take_all(alloc, store, layout)?;
    loaded_from(
        alloc,
        layout,
        patch_type,
        rows.metadata,
        rows.contents,
        rows.tiles,
    )
}
