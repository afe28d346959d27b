// Inserting a batch of tiles.
ghost use Rattle.mb_store.specs.Kept.{FaultsCounted, Keeps};
ghost use Rattle.std.specs.Prelude.{◌≡◌, ◌≢◌, None, Some, false, true, IfErr, IfOk, OnErr, OnOk};
ghost use Rattle.mb_insert.specs.Common.{is_free, Tables, tiles_put};
ghost use Rattle.mb_insert.specs.Batch.{put_of};
ghost use Rattle.mb_insert.specs.Inserted.{IsInserted};
ghost use Rattle.mb_insert.specs.Insertion.{insertion, may_insert};
ghost use Rattle.mb_load.specs.Begun.{IsBegun};
ghost use Rattle.mb_load.specs.LoadedFrom.{IsLoadedFrom};

use crate::batch::chosen_tiles;
use crate::tests_of_batch::{test_coords, test_duplicates};
use crate::{CopyDuplicateMode, NewTile};
use mb_edit::{put_tiles, test_editable};
use mb_load::{commit_loaded, load};
use mb_loaded::Loaded;
use mb_store::{MbtError, MbtResult, TileStore};
use std::alloc::Global;

// A loaded set with a batch of tiles, or the first refusal of the tests.
fn insert_loaded(
    alloc: Global,
    base: Loaded,
    mode: CopyDuplicateMode,
    batch: &[NewTile],
) -> MbtResult<Loaded>
    ensures refused { IfErr result
        (λ e. is_free e ≡ false → may_insert mode batch.now base.state ≡ Some e) }
    ensures unfaulted { IfErr result (λ e. e ≢ MbtError.StoreFault) }
    ensures tested { IfOk result (λ h. may_insert mode batch.now base.state ≡ None) }
    ensures value { IfOk result (λ h. h ≡ tiles_put base (put_of mode base.state.tiles batch.now)) }
    ensures loaded { (t : Tables) → IsLoadedFrom t base → IfOk result (IsLoadedFrom t) }
{
    test_editable(base.mbt_type())?;
    test_coords(batch)?;
    let tiles = chosen_tiles(alloc, &base, mode, batch)?;
    test_duplicates(mode, &tiles, batch)?;
    let put = put_tiles(alloc, base, &tiles)?;
    Ok(put)
}

/// Inserts a batch of tiles into a set, in one commit. In mode `Override` the tiles are put over those of the set, and
/// the last of the batch counts at a place; in mode `Ignore` they are put where the set has none, and the first of the
/// batch counts; in mode `Abort` no place may be there already. A null counts as there.
///
/// It answers the refusals of `load`, and then the first of these that holds:
///
/// 1. `UnsupportedCopyOperation`: the set has ids that are numbers.
/// 2. `InvalidTileIndex`: the first tile of the batch whose numbers are no coordinate of zoom 0
///    to 30, with these numbers.
/// 3. `DuplicateValues`, in mode `Abort`: a coordinate of the batch is in the set, or twice in the batch.
/// 4. `IdCollision`: contents that are put have the id of others in a normalised set, with the
///    id of the first such tile.
///
/// Refused, the store holds what it held. After Ok the tables load again as the set with the batch. Rows of places that
/// aren't put stay, and so do contents that no tile has any more, and all metadata. Rows of bytes that are put carry
/// the digest of these, where the layout has one, and in a cache no times. A store that tells nothing is answered as is
/// due of some tables. `StoreFault` comes only where the store's count of faults rose, and at Ok the count stands.
pub fn insert_tiles<S: TileStore>(
    alloc: Global,
    store: &mut S,
    on_duplicate: CopyDuplicateMode,
    batch: &[NewTile],
) -> MbtResult<()>
    ensures answer { IsBegun (insertion on_duplicate batch.now) (S.tells store.old)
        (S.told store.old) result }
    ensures inserted { S.tells store.old ≡ true
        → OnOk result (IsInserted on_duplicate batch.now (S.told store.old) (S.told store.new)) }
    ensures refused { OnErr result (S.told store.new ≡ S.told store.old) }
    ensures kept { Keeps S.tells S.faults S.steady store.old store.new }
    ensures fault { FaultsCounted S.faults store.old store.new result MbtError.StoreFault }
{
    let set = load(alloc, store)?;
    let inserted = insert_loaded(alloc, set, on_duplicate, batch)?;
    commit_loaded(alloc, store, &inserted)?;
    Ok(())
}
