// The tests that a patch of a loaded set must pass, in their order.
ghost use Rattle.std.specs.Prelude.{◌≡◌, IfOk, is_some, not};
ghost use Rattle.mb_edit.specs.PatchingOrder.{can_be_patched, may_patch, wrong_algorithm, wrong_base};
ghost use Rattle.mb_edit.specs.Common.{after_hash, agg_hash, base_refused, before_hash, ids_given, patch_refused, refused_by, Tests, text_at, unless, unless_forced};

use crate::collision::test_ids;
use base_values::TextVal;
use mb_load::{test_base_hashes, test_patch_hashes};
use mb_loaded::{GivenIds, Loaded};
use mb_store::{
    AGG_TILES_HASH, AGG_TILES_HASH_AFTER_APPLY, AGG_TILES_HASH_BEFORE_APPLY, MbtError, MbtResult,
    MbtType, NormalizedSchema,
};
use std::alloc::Global;
use tile_hash::HashAlgorithm;

/// The test that a patch describes no table of binary differences, `UnsupportedPatchType` if not.
pub fn test_whole_tiles(patch: &Loaded) -> MbtResult<()>
    ensures answer { result ≡ refused_by (unless (not (is_some patch.now.state.patch_type))
        MbtError.UnsupportedPatchType) }
    ensures tests { Tests (unless (not (is_some patch.now.state.patch_type))
        MbtError.UnsupportedPatchType) result }
{
    if patch.patch_type().is_some() {
        return Err(MbtError::UnsupportedPatchType);
    }
    Ok(())
}

/// The test that sets of a layout can be patched, `UnsupportedCopyOperation` if not: those that are no caches, and
/// whose ids are no numbers.
pub fn test_patchable(layout: MbtType) -> MbtResult<()>
    ensures answer { result ≡ refused_by (unless (can_be_patched layout)
        MbtError.UnsupportedCopyOperation) }
    ensures tests { Tests (unless (can_be_patched layout) MbtError.UnsupportedCopyOperation)
        result }
{
    match layout {
        MbtType::Flat
        | MbtType::FlatWithHash
        | MbtType::Normalized {
            schema: NormalizedSchema::Hash,
            ..
        } => Ok(()),
        _ => Err(MbtError::UnsupportedCopyOperation),
    }
}

// Whether a set has a text under a name of metadata.
fn has_text(set: &Loaded, name: &str) -> bool
    ensures { result ≡ is_some (text_at set.now.state.metadata name.now) }
{
    set.text(name).is_some()
}

/// The test of the digests of all tiles that a patch has: `PatchFileHasNoHashes`,
/// `PatchFileHasNoBeforeHash`. Forced, it passes.
pub fn test_hashes_of_patch(patch: &Loaded, force: bool) -> MbtResult<()>
    ensures answer { result ≡ refused_by (unless_forced force
        (patch_refused (is_some (before_hash patch.now.state.metadata))
        (is_some (after_hash patch.now.state.metadata)))) }
    ensures tests { Tests (unless_forced force
        (patch_refused (is_some (before_hash patch.now.state.metadata))
        (is_some (after_hash patch.now.state.metadata)))) result }
{
    let before = has_text(patch, AGG_TILES_HASH_BEFORE_APPLY);
    let after = has_text(patch, AGG_TILES_HASH_AFTER_APPLY);
    test_patch_hashes(before, after, force)
}

/// The test of those that a set has: `CannotDiffFileWithoutHash`, `DiffingDiffFile`. Forced, it passes.
pub fn test_hashes_of_base(base: &Loaded, force: bool) -> MbtResult<()>
    ensures answer { result ≡ refused_by (unless_forced force
        (base_refused (is_some (agg_hash base.now.state.metadata))
        (is_some (before_hash base.now.state.metadata))
        (is_some (after_hash base.now.state.metadata)))) }
    ensures tests { Tests (unless_forced force
        (base_refused (is_some (agg_hash base.now.state.metadata))
        (is_some (before_hash base.now.state.metadata))
        (is_some (after_hash base.now.state.metadata)))) result }
{
    let agg = has_text(base, AGG_TILES_HASH);
    let before = has_text(base, AGG_TILES_HASH_BEFORE_APPLY);
    let after = has_text(base, AGG_TILES_HASH_AFTER_APPLY);
    test_base_hashes(agg, before, after, force)
}

// The test that two digests agree.
fn test_agree(alloc: Global, before: &TextVal, agg: &TextVal) -> MbtResult<()>
    ensures { Tests (wrong_base (Some before.now) (Some agg.now)) result }
{
    if before.as_str() == agg.as_str() {
        return Ok(());
    }
    let before_apply_hash = before.try_clone(alloc)?;
    let agg_hash = agg.try_clone(alloc)?;
    Err(MbtError::AggHashMismatchWithDiff {
        before_apply_hash,
        agg_hash,
    })
}

// The test that a patch is meant for a set, where both have the digest of the set.
fn test_meant_for(alloc: Global, base: &Loaded, patch: &Loaded, force: bool) -> MbtResult<()>
    ensures { Tests (unless_forced force
        (wrong_base (before_hash patch.now.state.metadata) (agg_hash base.now.state.metadata)))
        result }
{
    if force {
        return Ok(());
    }
    match (
        patch.text(AGG_TILES_HASH_BEFORE_APPLY),
        base.text(AGG_TILES_HASH),
    ) {
        (Some(before), Some(agg)) => test_agree(alloc, before, agg),
        _ => Ok(()),
    }
}

// The test that a patch has the algorithm of its set.
fn test_algorithm(alloc: Global, base: HashAlgorithm, patch: HashAlgorithm) -> MbtResult<()>
    ensures { Tests (wrong_algorithm base patch) result }
{
    if base == patch {
        return Ok(());
    }
    let name = String::from_str(alloc, patch.as_str())?;
    Err(MbtError::UnsupportedHashAlgorithm {
        algorithm: TextVal::new(name),
    })
}

/// The first refusal of a patch of a set, or the ids that the set gives the patch's tiles.
pub(crate) fn test_patching(
    alloc: Global,
    base: &Loaded,
    patch: &Loaded,
    force: bool,
) -> MbtResult<GivenIds>
    ensures tests { Tests (may_patch force base.now.state patch.now.state) result }
    ensures ids { IfOk result
        (λ ids. ids ≡ ids_given base.now.state.layout base.now.state.algorithm
        patch.now.state.tiles) }
{
    test_whole_tiles(patch)?;
    test_hashes_of_patch(patch, force)?;
    test_patchable(base.mbt_type())?;
    test_hashes_of_base(base, force)?;
    test_meant_for(alloc, base, patch, force)?;
    test_algorithm(alloc, base.algorithm(), patch.algorithm())?;
    test_ids(alloc, base, patch)
}
