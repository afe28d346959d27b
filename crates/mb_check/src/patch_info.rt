// What a set says of itself as a patch, or as the base of one.
ghost use Rattle.mb_check.specs.Common.{Answers, FaultsCounted, IsBegun, ReadsOnly};
ghost use Rattle.std.specs.Prelude.{◌≡◌, ◌≢◌, Err, is_some};
ghost use Rattle.mb_check.specs.PatchInfo.{info_answer};
ghost use Rattle.mb_constraints.specs.DiffHashes.{base_refused, patch_refused, refused_by, unless_forced};

use crate::aggregate::text_of;
use base_values::TextVal;
use mb_load::{load, test_base_hashes, test_patch_hashes};
use mb_loaded::Loaded;
use mb_store::{
    AGG_TILES_HASH, AGG_TILES_HASH_AFTER_APPLY, AGG_TILES_HASH_BEFORE_APPLY, MbtError, MbtResult,
    MbtType, PatchType, TileStore,
};
use std::alloc::Global;

/// What a set says of itself as a patch, or as the base of one.
#[derive(Debug, Drop)]
pub struct PatchFileInfo {
    /// Its layout.
    pub mbt_type: MbtType,
    /// The hash of all its tiles, as its metadata has it.
    pub agg_tiles_hash: Option<TextVal>,
    /// That of a set before the patch.
    pub agg_tiles_hash_before_apply: Option<TextVal>,
    /// That of a set after the patch.
    pub agg_tiles_hash_after_apply: Option<TextVal>,
    /// The kind of the patches of tiles that its tables describe, if they do.
    pub patch_type: Option<PatchType>,
}

// What a loaded set says.
fn info_of(alloc: Global, set: &Loaded) -> MbtResult<PatchFileInfo>
    ensures answer { Answers (info_answer set.now.state) result }
    ensures fault { result ≢ Err MbtError.StoreFault }
{
    let agg_tiles_hash = text_of(alloc, set, AGG_TILES_HASH)?;
    let agg_tiles_hash_before_apply = text_of(alloc, set, AGG_TILES_HASH_BEFORE_APPLY)?;
    let agg_tiles_hash_after_apply = text_of(alloc, set, AGG_TILES_HASH_AFTER_APPLY)?;
    Ok(PatchFileInfo {
        mbt_type: set.mbt_type(),
        agg_tiles_hash,
        agg_tiles_hash_before_apply,
        agg_tiles_hash_after_apply,
        patch_type: set.patch_type(),
    })
}

/// What a set says of itself as a patch, or as the base of one. A name without a value, or with null, is None.
///
/// It answers the refusals of `load`. The store holds what it held, whatever the answer.
pub fn examine_diff<S: TileStore>(alloc: Global, store: &mut S) -> MbtResult<PatchFileInfo>
    ensures answer { IsBegun info_answer (S.tells store.old) (S.told store.old) result }
    ensures kept { ReadsOnly S.told S.tells S.faults S.steady store.old store.new }
    ensures fault { FaultsCounted S.faults store.old store.new result MbtError.StoreFault }
{
    let set = load(alloc, store)?;
    info_of(alloc, &set)
}

/// The test of a set that is to be patched. `CannotDiffFileWithoutHash` where it has no hash of all tiles,
/// `DiffingDiffFile` where it is itself a patch: it has that hash, and one of before or after a patch. None where
/// forced. It takes no memory.
pub fn assert_hashes(info: &PatchFileInfo, force: bool) -> MbtResult<()>
    ensures { result ≡ refused_by
        (unless_forced force
        (base_refused (is_some info.now.agg_tiles_hash)
        (is_some info.now.agg_tiles_hash_before_apply)
        (is_some info.now.agg_tiles_hash_after_apply))) }
{
    test_base_hashes(
        info.agg_tiles_hash.is_some(),
        info.agg_tiles_hash_before_apply.is_some(),
        info.agg_tiles_hash_after_apply.is_some(),
        force,
    )
}

/// The test of a patch. `PatchFileHasNoHashes` where it has no hash of all tiles after it, `PatchFileHasNoBeforeHash`
/// where it has that one and none of before it. None where forced. It takes no memory.
pub fn validate_diff_info(info: &PatchFileInfo, force: bool) -> MbtResult<()>
    ensures { result ≡ refused_by
        (unless_forced force (patch_refused (is_some info.now.agg_tiles_hash_before_apply)
        (is_some info.now.agg_tiles_hash_after_apply))) }
{
    test_patch_hashes(
        info.agg_tiles_hash_before_apply.is_some(),
        info.agg_tiles_hash_after_apply.is_some(),
        force,
    )
}
