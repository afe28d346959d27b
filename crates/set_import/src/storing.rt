// The set that an archive goes into, and its commit.
ghost use Rattle.std.specs.Prelude.{◌≡◌, ◌⊎◌, ◌↔◌, [], IfErr, IfOk, IsTrue, OnErr, OnOk, true};
ghost use Rattle.mb_load.specs.Begun.{IsBegun};
ghost use Rattle.set_import.specs.Common.{FaultsCounted, IsLoadedFrom, Keeps, MakesChanges};
ghost use Rattle.mb_loaded.specs.Changing.{AreChangesOf};
ghost use Rattle.mb_store.specs.Kept.{ReadsOnly};
ghost use Rattle.mb_tables.specs.Refusals.{is_free};
ghost use Rattle.set_import.specs.Filling.{flat_made, started};
ghost use Rattle.tile_import.specs.Storing.{IsBase, editable, state_in};

use base_values::OutOfMemory;
use mb_loaded::Loaded;
use mb_store::{Changes, MbtError, MbtResult, MbtType, TileStore, init_mbtiles_schema};
use std::alloc::Global;
use tile_hash::HashAlgorithm;
use tile_import::load_base;

/// The set that an archive goes into: an empty flat set where the store is new, that is where nothing is described, and
/// else that of the store, or the refusal of `load_base`.
pub(crate) fn base_of<S: TileStore>(alloc: Global, store: &mut S, is_new: bool) -> MbtResult<Loaded>
    requires { S.tells store.old ≡ true
        → (IsTrue is_new ↔ ((S.told store.old).descriptions ≡ [])) }
    ensures answer { IsBegun editable (S.tells store.old) (started (S.told store.old))
        (state_in result) }
    ensures base { S.tells store.old ≡ true → IfOk result (IsBase (started (S.told store.old))) }
    ensures kept { ReadsOnly S.told S.tells S.faults S.steady store.old store.new }
    ensures fault { FaultsCounted S.faults store.old store.new result MbtError.StoreFault }
{
    if is_new {
        return Ok(Loaded::empty(alloc, MbtType::Flat, HashAlgorithm::Md5));
    }
    load_base(alloc, store)
}

/// The changes of a set, which is let go.
pub(crate) fn changes_of(alloc: Global, set: Loaded) -> Result<Changes, OutOfMemory>
    ensures { IfOk result (λ changes. AreChangesOf set changes) }
{
    set.into_changes(alloc)
}

// Makes the tables of a flat set in a store that is new.
fn make_tables<S: TileStore>(alloc: Global, store: &mut S, is_new: bool) -> MbtResult<()>
    requires { S.tells store.old ≡ true
        → (IsTrue is_new ↔ ((S.told store.old).descriptions ≡ [])) }
    ensures made { S.tells store.old ≡ true
        → OnOk result (S.told store.new ≡ started (S.told store.old)) }
    ensures refused { OnErr result (S.told store.new ≡ S.told store.old) }
    ensures free { IfErr result (λ e. is_free e ≡ true) }
    ensures kept { Keeps S.tells S.faults S.steady store.old store.new }
    ensures fault { FaultsCounted S.faults store.old store.new result MbtError.StoreFault }
{
    if is_new {
        return init_mbtiles_schema(alloc, store, MbtType::Flat);
    }
    Ok(())
}

/// Commits all edits of a set at once. Where the store is new the tables of a flat set are made directly before that,
/// when all that the commit needs is in memory. The set is let go before both.
pub(crate) fn store_set<S: TileStore>(
    alloc: Global,
    store: &mut S,
    set: Loaded,
    is_new: bool,
) -> MbtResult<()>
    requires new { S.tells store.old ≡ true
        → (IsTrue is_new ↔ ((S.told store.old).descriptions ≡ [])) }
    requires from { S.tells store.old ≡ true → IsLoadedFrom (started (S.told store.old)) set }
    ensures committed { S.tells store.old ≡ true → OnOk result
        (MakesChanges set (started (S.told store.old)) (S.told store.new)) }
    ensures left { S.tells store.old ≡ true → OnErr result
        ((S.told store.new ≡ S.told store.old) ⊎ (((S.told store.old).descriptions ≡ [])
        × (S.told store.new ≡ flat_made (S.told store.old)))) }
    ensures free { IfErr result (λ e. is_free e ≡ true) }
    ensures kept { Keeps S.tells S.faults S.steady store.old store.new }
    ensures fault { FaultsCounted S.faults store.old store.new result MbtError.StoreFault }
{
    let changes = changes_of(alloc, set)?;
    make_tables(alloc, store, is_new)?;
    store.commit(alloc, &changes)?;
    Ok(())
}
