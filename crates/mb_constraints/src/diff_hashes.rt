// The tests of the digests of all tiles that a set, and a patch for it, have in their metadata.
ghost use Rattle.std.specs.Prelude.{◌≡◌};
ghost use Rattle.mb_constraints.specs.DiffHashes.{base_refused, patch_refused, refused_by, unless_forced};

use mb_store::{MbtError, MbtResult};

/// The test of a set that is to be patched, by which digests of all tiles its metadata has: its own, and those of
/// before and after a patch. `CannotDiffFileWithoutHash` where it has none of its own, `DiffingDiffFile` where it has
/// one of the others too. None where forced.
pub fn test_base_hashes(agg: bool, before: bool, after: bool, force: bool) -> MbtResult<()>
    ensures { result ≡ refused_by (unless_forced force (base_refused agg before after)) }
{
    if force {
        return Ok(());
    }
    if !agg {
        return Err(MbtError::CannotDiffFileWithoutHash);
    }
    if before || after {
        return Err(MbtError::DiffingDiffFile);
    }
    Ok(())
}

/// The test of a patch, by which digests of all tiles its metadata has: those of before and after it.
/// `PatchFileHasNoHashes` where it has none of after it, `PatchFileHasNoBeforeHash` where it has that one
/// alone. None where forced.
pub fn test_patch_hashes(before: bool, after: bool, force: bool) -> MbtResult<()>
    ensures { result ≡ refused_by (unless_forced force (patch_refused before after)) }
{
    if force {
        return Ok(());
    }
    if !after {
        return Err(MbtError::PatchFileHasNoHashes);
    }
    if !before {
        return Err(MbtError::PatchFileHasNoBeforeHash);
    }
    Ok(())
}
