// The tests of a copy with a patch that need no store.
ghost use Rattle.std.specs.Prelude.{◌≡◌, IfOk, Some, true};
ghost use Rattle.mb_copy.specs.Copied.{stores_aggregate};
ghost use Rattle.mb_copy.specs.PatchOrder.{expected_hash, hash_off, may_be_patch, may_be_patched, other_hash};
ghost use Rattle.mb_copy.specs.Common.{agg_hash, aggregate, Tests};

use crate::MbtilesCopier;
use crate::names::stores_aggregate;
use crate::refusals::test_valid;
use crate::target::wanted_type;
use base_values::{OutOfMemory, TextVal};
use mb_edit::{test_hashes_of_base, test_hashes_of_patch, test_patchable, test_whole_tiles};
use mb_loaded::Loaded;
use mb_store::{AGG_TILES_HASH, AGG_TILES_HASH_AFTER_APPLY, MbtError, MbtResult};
use std::alloc::Global;

/// The tests of a patch that was loaded.
pub(crate) fn test_patch(alloc: Global, copier: &MbtilesCopier, patch: &Loaded) -> MbtResult<()>
    ensures { Tests (may_be_patch copier.now patch.now.state) result }
{
    test_valid(alloc, copier.validate, patch)?;
    test_whole_tiles(patch)?;
    test_hashes_of_patch(patch, copier.force)
}

/// The tests of a source that was loaded, which is to be patched.
pub(crate) fn test_source(alloc: Global, copier: &MbtilesCopier, source: &Loaded) -> MbtResult<()>
    ensures { Tests (may_be_patched copier.now source.now.state) result }
{
    test_valid(alloc, copier.validate, source)?;
    test_hashes_of_base(source, copier.force)?;
    test_patchable(wanted_type(copier, source.mbt_type()))
}

/// The hash of all tiles that a patch says a set has after it, unless the patch is forced.
pub(crate) fn expected_hash(
    alloc: Global,
    copier: &MbtilesCopier,
    patch: &Loaded,
) -> Result<Option<TextVal>, OutOfMemory>
    ensures { IfOk result (λ after. after ≡ expected_hash copier.now patch.now.state) }
{
    if copier.force {
        return Ok(None);
    }
    match patch.text(AGG_TILES_HASH_AFTER_APPLY) {
        Some(after) => Ok(Some(after.try_clone(alloc)?)),
        None => Ok(None),
    }
}

// The test that a computed hash is the expected one.
fn test_same_hash(alloc: Global, after: TextVal, computed: &TextVal) -> MbtResult<()>
    ensures { Tests (other_hash (Some after) computed.now) result }
{
    if after.as_str() == computed.as_str() {
        return Ok(());
    }
    let agg_hash = computed.try_clone(alloc)?;
    Err(MbtError::AggHashMismatchAfterApply {
        after_apply_hash: after,
        agg_hash,
    })
}

/// The test that the hash of all tiles of a set into which a source was copied is the expected one, where it is
/// computed and one is expected.
pub(crate) fn test_expected(
    alloc: Global,
    copier: &MbtilesCopier,
    after: Option<TextVal>,
    set: &Loaded,
) -> MbtResult<()>
    requires { stores_aggregate copier.now ≡ true
        → agg_hash set.now.state.metadata ≡ Some
        (aggregate set.now.state.algorithm set.now.state.tiles) }
    ensures { Tests (hash_off copier.now after set.now.state) result }
{
    if !stores_aggregate(copier) {
        return Ok(());
    }
    let Some(after) = after else {
        return Ok(());
    };
    match set.text(AGG_TILES_HASH) {
        Some(computed) => test_same_hash(alloc, after, computed),
        None => Ok(()),
    }
}
