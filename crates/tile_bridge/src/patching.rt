// Patches of a base, one after another.
ghost use Rattle.std.specs.Prelude.{◌≡◌, ◌∷◌, ℕ, suc, map, true, IfErr, IfOk, IsErrOf, OnErr, OnOk};
ghost use Rattle.tile_bridge.specs.Common.{IsLoadedFrom, Keeps, NamesAlgorithm, ReadsOnly, Rose, Tables};
ghost use Rattle.tile_bridge.specs.Patching.{IsPatchedBy, IsPatchedByAll, IsStored};
ghost use Rattle.tile_bridge.specs.Stands.{IsAt, StoresStand};
ghost use Rattle.tile_bridge.specs.Stores.{AreOnlyRead, IsDue, IsStoreError, Refuses, RoseAt, due_patch, due_patches};

use crate::ConvertError;
use crate::loading::{load_at, of_store};
use mb_edit::{commit_loaded, patch_loaded};
use mb_loaded::Loaded;
use mb_store::TileStore;
use std::alloc::Global;

// The patch at a place on a set.
fn patch_at<P: TileStore>(
    alloc: Global,
    set: Loaded,
    patch: &mut P,
    place: u64,
    force: bool,
) -> Result<Loaded, ConvertError>
    ensures state { IfOk result (λ next. IsDue (due_patch force place set.state (P.tells patch.old)
        (P.told patch.old)) next.state) }
    ensures refused { IfErr result (Refuses (due_patch force place set.state (P.tells patch.old)
        (P.told patch.old))) }
    ensures held { IfOk result (IsPatchedBy force (P.tells patch.old) (P.told patch.old) set) }
    ensures loaded { (t : Tables) → IsLoadedFrom t set → NamesAlgorithm set.state
        → IfOk result (λ next. IsLoadedFrom t next × NamesAlgorithm next.state) }
    ensures kept { ReadsOnly P.told P.tells P.faults P.steady patch.old patch.new }
    ensures placed { IfErr result (IsAt place) }
    ensures still { OnOk result (P.faults patch.new ≡ P.faults patch.old) }
    ensures fault { (p : ℕ) → IsErrOf result (ConvertError.StoreFault p)
        → (p ≡ place) × Rose (P.faults patch.old) (P.faults patch.new) }
{
    let patch = load_at(alloc, patch, place)?;
    match patch_loaded(alloc, set, &patch, force) {
        Ok(next) => Ok(next),
        Err(error) => Err(of_store(place, error)),
    }
}

/// The patches of a base, one after another. The first has place 1.
pub(crate) fn patch_all<P: TileStore>(
    alloc: Global,
    base: Loaded,
    patches: &mut Vec<P>,
    force: bool,
) -> Result<Loaded, ConvertError>
    ensures state { IfOk result (λ set. IsDue (due_patches force 1 base.state
        (map P.tells patches.old.items) (map P.told patches.old.items)) set.state) }
    ensures refused { IfErr result (Refuses (due_patches force 1 base.state
        (map P.tells patches.old.items) (map P.told patches.old.items))) }
    ensures held { IfOk result (IsPatchedByAll force (map P.tells patches.old.items)
        (map P.told patches.old.items) base) }
    ensures loaded { (t : Tables) → IsLoadedFrom t base → NamesAlgorithm base.state
        → IfOk result (λ set. IsLoadedFrom t set × NamesAlgorithm set.state) }
    ensures read { AreOnlyRead P.tells P.told P.faults P.steady
        patches.old.items patches.new.items }
    ensures still { (base : ℕ) → StoresStand (base ∷ map P.faults patches.old.items)
        (base ∷ map P.faults patches.new.items) result }
    ensures fault { (p : ℕ) → IsErrOf result (ConvertError.StoreFault p)
        → (k : ℕ) × (p ≡ suc k) × RoseAt k (map P.faults patches.old.items)
        (map P.faults patches.new.items) }
{
    let mut set = base;
    for index in 0..patches.len() {
        let next = patch_at(alloc, set, &mut patches[index], index as u64 + 1, force)?;
        set = next;
    }
    Ok(set)
}

/// Commits what patches made of a base, at once, where there are any. Refused, the base is as it was.
pub(crate) fn store_patches<S: TileStore>(
    alloc: Global,
    base: &mut S,
    set: &Loaded,
    patched: bool,
) -> Result<(), ConvertError>
    requires loaded { S.tells base.old ≡ true → IsLoadedFrom (S.told base.old) set.now }
    ensures stored { S.tells base.old ≡ true
        → OnOk result (IsStored patched set.now (S.told base.old) (S.told base.new)) }
    ensures refused { OnErr result (S.told base.new ≡ S.told base.old) }
    ensures causes { IfErr result IsStoreError }
    ensures placed { IfErr result (IsAt 0) }
    ensures kept { Keeps S.tells S.faults S.steady base.old base.new }
    ensures still { OnOk result (S.faults base.new ≡ S.faults base.old) }
    ensures fault { (p : ℕ) → IsErrOf result (ConvertError.StoreFault p)
        → (p ≡ 0) × Rose (S.faults base.old) (S.faults base.new) }
{
    if !patched {
        return Ok(());
    }
    match commit_loaded(alloc, base, set) {
        Ok(()) => Ok(()),
        Err(error) => Err(of_store(0, error)),
    }
}
