// Patching a loaded set.
ghost use Rattle.std.specs.Prelude.{◌≡◌, ◌≢◌, ◌<◌, IfErr, IfOk, IfSome, None, Ok, Err, OnOk, false, slice_get};
ghost use Rattle.mb_edit.specs.Common.{AllOnBoard, entries, ids_given, is_free, IsLoadedFrom, len, NamesAlgorithm, Tables};
ghost use Rattle.std.specs.Option.{option_copied};
ghost use Rattle.mb_edit.specs.HeldPatched.{held_patched, name_patched, names_patched, null_cleared, nulls_cleared};
ghost use Rattle.mb_edit.specs.Patched.{target_of};
ghost use Rattle.mb_edit.specs.PatchingOrder.{may_patch};
ghost use Rattle.mb_edit.specs.Step.{step};

use crate::patching_order::test_patching;
use base_values::{OutOfMemory, TextVal};
use mb_loaded::{Editing, GivenIds, Loaded};
use mb_store::{
    AGG_TILES_HASH, AGG_TILES_HASH_AFTER_APPLY, AGG_TILES_HASH_BEFORE_APPLY, Cell, MbtError,
    MbtResult,
};
use std::alloc::Global;

// The name on which a name of a patch lands.
fn target_of(name: &str) -> Option<&str>
    ensures { option_copied result ≡ target_of name.now }
{
    match name {
        AGG_TILES_HASH | AGG_TILES_HASH_BEFORE_APPLY => None,
        AGG_TILES_HASH_AFTER_APPLY => Some(AGG_TILES_HASH),
        _ => Some(name),
    }
}

// Edits a set by the name of a patch at an index.
fn patch_name(
    alloc: Global,
    set: &mut Editing,
    patch: &Loaded,
    index: usize,
) -> Result<(), OutOfMemory>
    requires { index < len patch.now.state.metadata }
    ensures { OnOk result (IfSome (slice_get (entries patch.now.state.metadata) index)
        (λ e. set.new ≡ name_patched set.old e)) }
{
    let (name, value) = patch.metadata_at(index);
    match target_of(name) {
        None => Ok(()),
        Some(target) => {
            let target = TextVal::new(String::from_str(alloc, target)?);
            set.set_metadata(target, value.try_clone(alloc)?)
        }
    }
}

// Edits a set by the names of a patch, from the last to the first.
fn patch_names(alloc: Global, set: &mut Editing, patch: &Loaded) -> Result<(), OutOfMemory>
    ensures { OnOk result (set.new ≡ names_patched set.old patch.now.state) }
{
    let mut left = patch.metadata_count();
    while left > 0 {
        left -= 1;
        patch_name(alloc, set, patch, left)?;
    }
    Ok(())
}

// Removes the name of a patch at an index, where it has null.
fn clear_null(set: &mut Editing, patch: &Loaded, index: usize) -> Result<(), OutOfMemory>
    requires { index < len patch.now.state.metadata }
    ensures { OnOk result (IfSome (slice_get (entries patch.now.state.metadata) index)
        (λ e. set.new ≡ null_cleared set.old e)) }
{
    match patch.metadata_at(index) {
        (name, Cell::Null) => set.clear_metadata(name),
        _ => Ok(()),
    }
}

// Removes the names for which a patch has null, from the last to the first.
fn clear_nulls(set: &mut Editing, patch: &Loaded) -> Result<(), OutOfMemory>
    ensures { OnOk result (set.new ≡ nulls_cleared set.old patch.now.state) }
{
    let mut left = patch.metadata_count();
    while left > 0 {
        left -= 1;
        clear_null(set, patch, left)?;
    }
    Ok(())
}

// What a patch makes of a set that it may patch, with the ids that the set gives the patch's tiles.
fn patch_all(
    alloc: Global,
    base: Loaded,
    patch: &Loaded,
    ids: &GivenIds,
) -> Result<Loaded, OutOfMemory>
    requires { ids.now ≡ ids_given base.state.layout base.state.algorithm patch.now.state.tiles }
    ensures { IfOk result (λ h. h ≡ held_patched base patch.now.state) }
{
    let mut set = base.edit().put_tiles(patch, ids)?;
    patch_names(alloc, &mut set, patch)?;
    clear_nulls(&mut set, patch)?;
    let mut patched = set.settle()?;
    patched.drop_unreferenced();
    Ok(patched)
}

/// A loaded set after a whole-tile patch: where the patch has bytes the tile has these, where it has null there is no
/// tile, and the other tiles stay. Digests and ids are by the algorithm of the set; contents of a normalised set that
/// no tile has any more go.
///
/// Each name of the patch's metadata replaces that of the set, but for `agg_tiles_hash` and
/// `agg_tiles_hash_before_apply`; `agg_tiles_hash_after_apply` replaces `agg_tiles_hash`. Afterwards each name that the
/// patch has null for is gone.
///
/// Refused, it gives nothing back. The first of these that holds is answered:
///
/// 1. `UnsupportedPatchType`: the patch describes a table of binary differences.
/// 2. `PatchFileHasNoHashes`, `PatchFileHasNoBeforeHash`: the patch has no digest of all tiles after it, or that one
///    alone; not where forced.
/// 3. `UnsupportedCopyOperation`: the set is a cache, or has ids that are numbers.
/// 4. `CannotDiffFileWithoutHash`, `DiffingDiffFile`: the set has no digest of all tiles, or is itself a
///    patch; not where forced.
/// 5. `AggHashMismatchWithDiff`: the patch is meant for a set of another digest, with both digests; not where forced.
/// 6. `UnsupportedHashAlgorithm`: the patch has another algorithm than the set, with the name of the patch's.
/// 7. `IdCollision`: contents that are put have the id of others in a normalised set, with the
///    id of the first such tile.
pub fn patch_loaded(alloc: Global, base: Loaded, patch: &Loaded, force: bool) -> MbtResult<Loaded>
    ensures answer { IfOk result (λ h. step force base.state patch.now.state ≡ Ok h.state) }
    ensures refused { IfErr result
        (λ e. is_free e ≡ false → step force base.state patch.now.state ≡ Err e) }
    ensures unfaulted { IfErr result (λ e. e ≢ MbtError.StoreFault) }
    ensures value { IfOk result (λ h. (may_patch force base.state patch.now.state ≡ None)
        × (h ≡ held_patched base patch.now.state)) }
    ensures loaded { (t : Tables) → IsLoadedFrom t base → AllOnBoard patch.now.state
        → IfOk result (IsLoadedFrom t) }
    ensures named { NamesAlgorithm base.state → NamesAlgorithm patch.now.state → IfOk result
        (λ h. NamesAlgorithm h.state) }
{
    let ids = test_patching(alloc, &base, patch, force)?;
    let patched = patch_all(alloc, base, patch, &ids)?;
    Ok(patched)
}
