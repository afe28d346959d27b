// A source after a patch, as it is copied.
ghost use Rattle.std.specs.Prelude.{◌≡◌, ◌<◌, IfOk, IfSome, OnOk, slice_get};
ghost use Rattle.mb_copy.specs.Common.{entries, from_last, len};
ghost use Rattle.mb_copy.specs.PatchedSource.{hashes_removed, name_patched, source_patched};

use base_values::{OutOfMemory, TextVal};
use mb_loaded::{Editing, Loaded};
use mb_store::{AGG_TILES_HASH, AGG_TILES_HASH_AFTER_APPLY, AGG_TILES_HASH_BEFORE_APPLY, Cell};
use std::alloc::Global;

// Edits a set by the name of a patch at an index: puts its text, and clears the name where it has null.
fn patch_name(
    alloc: Global,
    set: &mut Editing,
    patch: &Loaded,
    index: usize,
) -> Result<(), OutOfMemory>
    requires { index < len patch.now.state.metadata }
    ensures { OnOk result (IfSome (slice_get (entries patch.now.state.metadata) index)
        (λ e. set.new ≡ name_patched set.old e)) }
{
    match patch.metadata_at(index) {
        (name, Cell::Null) => set.clear_metadata(name),
        (name, value) => {
            let name = TextVal::new(String::from_str(alloc, name)?);
            set.set_metadata(name, value.try_clone(alloc)?)
        }
    }
}

// Edits a set by all names of a patch, from the last to the first.
fn patch_names(alloc: Global, set: &mut Editing, patch: &Loaded) -> Result<(), OutOfMemory>
    ensures { OnOk result
        (set.new ≡ from_last name_patched set.old (entries patch.now.state.metadata)) }
{
    let mut left = patch.metadata_count();
    while left > 0 {
        left -= 1;
        patch_name(alloc, set, patch, left)?;
    }
    Ok(())
}

// Clears the hashes of all tiles by which patches are kept in order.
fn clear_hashes(set: &mut Editing) -> Result<(), OutOfMemory>
    ensures { OnOk result (set.new ≡ hashes_removed set.old) }
{
    set.clear_metadata(AGG_TILES_HASH)?;
    set.clear_metadata(AGG_TILES_HASH_BEFORE_APPLY)?;
    set.clear_metadata(AGG_TILES_HASH_AFTER_APPLY)?;
    Ok(())
}

/// A source with the tiles and the metadata of a patch over its own, and without the hashes by which patches are kept
/// in order. Each of the patch's contents is copied once.
pub(crate) fn patched_source(
    alloc: Global,
    source: Loaded,
    patch: &Loaded,
) -> Result<Loaded, OutOfMemory>
    ensures { IfOk result (λ h. h.state ≡ source_patched source.state patch.now.state) }
{
    let ids = patch.ids_for(alloc, source.mbt_type(), source.algorithm())?;
    let mut set = source.edit().put_tiles(patch, &ids)?;
    patch_names(alloc, &mut set, patch)?;
    clear_hashes(&mut set)?;
    set.settle()
}
