// The set that tiles are packed into.
ghost use Rattle.std.specs.Prelude.{◌≡◌, ◌≢◌, ◌⊎◌, true, false, IfErr, IfOk, OnErr, OnOk};
ghost use Rattle.mb_tree.specs.Common.{empty_state, FaultsCounted, Flat, fresh, is_free, Keeps, MakesChanges, nothing_edited, ReadsOnly};
ghost use Rattle.mb_load.specs.LoadedFrom.{IsLoadable, IsLoadedFrom, NamesAlgorithm};
ghost use Rattle.mb_tree.specs.Base.{IsBaseOf, IsFlatOf, made, made_if};

use mb_load::{commit_loaded, load};
use mb_loaded::Loaded;
use mb_store::{MbtError, MbtResult, MbtType, TileStore, init_mbtiles_schema, is_empty_database};
use std::alloc::Global;
use tile_hash::HashAlgorithm;

/// A flat set, and whether the tables of its store are yet to be made.
#[derive(Drop)]
pub(crate) struct Base {
    pub set: Loaded,
    pub is_new: bool,
}

// The test that a set is flat.
fn test_flat(layout: MbtType) -> MbtResult<()>
    ensures flat { IfOk result (λ _. layout ≡ Flat) }
    ensures other { IfErr result (λ e. (layout ≢ Flat)
        × (e ≡ MbtError.MismatchedTargetType layout Flat)) }
{
    match layout {
        MbtType::Flat => Ok(()),
        actual => Err(MbtError::MismatchedTargetType {
            actual,
            desired: MbtType::Flat,
        }),
    }
}

// An empty flat set, whose tables are yet to be made.
fn new_set(alloc: Global) -> Base
    ensures set { result.set ≡ fresh (empty_state Flat HashAlgorithm.Md5) }
    ensures new { result.is_new ≡ true }
{
    Base {
        set: Loaded::empty(alloc, MbtType::Flat, HashAlgorithm::Md5),
        is_new: true,
    }
}

// The flat set that a store has.
fn old_set<S: TileStore>(alloc: Global, store: &mut S) -> MbtResult<Base>
    ensures answer { IsFlatOf (S.tells store.old) (S.told store.old) result }
    ensures loaded { S.tells store.old ≡ true →
        IfOk result (λ b. IsLoadedFrom (S.told store.old) b.set) }
    ensures old { IfOk result (λ b. b.is_new ≡ false) }
    ensures clean { IfOk result (λ b. b.set.edited ≡ nothing_edited) }
    ensures flat { IfOk result (λ b. b.set.state.layout ≡ Flat) }
    ensures whole { IfOk result (λ b. IsLoadable b.set.state) }
    ensures named { IfOk result (λ b. NamesAlgorithm b.set.state) }
    ensures untouched { IfErr result (λ e. e ≢ MbtError.TreeFault) }
    ensures kept { ReadsOnly S.told S.tells S.faults S.steady store.old store.new }
    ensures fault { FaultsCounted S.faults store.old store.new result MbtError.StoreFault }
{
    let set = load(alloc, store)?;
    test_flat(set.mbt_type())?;
    Ok(Base { set, is_new: false })
}

/// The set that a store's tiles are packed into: what its tables hold, where it describes anything, and else
/// no tiles and no metadata.
pub(crate) fn base_of<S: TileStore>(alloc: Global, store: &mut S) -> MbtResult<Base>
    ensures answer { IsBaseOf (S.tells store.old) (S.told store.old) result }
    ensures new { S.tells store.old ≡ true →
        IfOk result (λ b. made_if b.is_new (S.told store.old) ≡ made (S.told store.old)) }
    ensures loaded { S.tells store.old ≡ true →
        IfOk result (λ b. IsLoadedFrom (made (S.told store.old)) b.set) }
    ensures clean { IfOk result (λ b. b.set.edited ≡ nothing_edited) }
    ensures flat { IfOk result (λ b. b.set.state.layout ≡ Flat) }
    ensures whole { IfOk result (λ b. IsLoadable b.set.state) }
    ensures named { IfOk result (λ b. NamesAlgorithm b.set.state) }
    ensures untouched { IfErr result (λ e. e ≢ MbtError.TreeFault) }
    ensures kept { ReadsOnly S.told S.tells S.faults S.steady store.old store.new }
    ensures fault { FaultsCounted S.faults store.old store.new result MbtError.StoreFault }
{
    if is_empty_database(alloc, store)? {
        return Ok(new_set(alloc));
    }
    old_set(alloc, store)
}

/// Commits a set to the tables of its store, after these were made, if they are yet to be made.
pub(crate) fn commit_base<S: TileStore>(
    alloc: Global,
    store: &mut S,
    set: &Loaded,
    is_new: bool,
) -> MbtResult<()>
    requires { S.tells store.old ≡ true → IsLoadedFrom (made_if is_new (S.told store.old)) set.now }
    ensures committed { S.tells store.old ≡ true →
        OnOk result (MakesChanges set.now (made_if is_new (S.told store.old)) (S.told store.new)) }
    ensures refused { S.tells store.old ≡ true →
        OnErr result ((S.told store.new ≡ S.told store.old) ⊎
        (S.told store.new ≡ made_if is_new (S.told store.old))) }
    ensures free { IfErr result (λ e. is_free e ≡ true) }
    ensures kept { Keeps S.tells S.faults S.steady store.old store.new }
    ensures fault { FaultsCounted S.faults store.old store.new result MbtError.StoreFault }
{
    if is_new {
        init_mbtiles_schema(alloc, store, MbtType::Flat)?;
    }
    commit_loaded(alloc, store, set)?;
    Ok(())
}
