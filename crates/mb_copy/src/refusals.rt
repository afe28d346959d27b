// The tests of a copy that need no store.
ghost use Rattle.std.specs.Prelude.{◌≡◌, ◌<◌, IfSome, slice_get};
ghost use Rattle.mb_copy.specs.Common.{agg_hash, aggregate, entries, len, list_any, Tests};
ghost use Rattle.mb_copy.specs.Chosen.{duplicates, has_both, name_there, tile_there};
ghost use Rattle.mb_copy.specs.CopyOrder.{hash_wrong, invalid, mode_missing};
ghost use Rattle.mb_copy.specs.Target.{asked_type, kind_wrong, mode_of};

use crate::chosen::is_copied_name;
use crate::target::{asked_type, kind_number, mode_of};
use crate::wanted::is_chosen;
use crate::{CopyDuplicateMode, MbtilesCopier};
use mb_loaded::Loaded;
use mb_store::{AGG_TILES_HASH, MbtError, MbtResult, MbtType};
use std::alloc::Global;

// The test that the stored hash of all tiles is the computed one.
fn test_hash(alloc: Global, source: &Loaded) -> MbtResult<()>
    ensures { Tests (hash_wrong (agg_hash source.now.state.metadata)
        (aggregate source.now.state.algorithm source.now.state.tiles)) result }
{
    let Some(stored) = source.text(AGG_TILES_HASH) else {
        return Err(MbtError::AggHashValueNotFound);
    };
    let computed = source.aggregate(alloc)?;
    if stored.as_str() == computed.as_str() {
        return Ok(());
    }
    let stored = stored.try_clone(alloc)?;
    Err(MbtError::AggHashMismatch { computed, stored })
}

/// The test of the stored hash of all tiles of a source, where it is looked at.
pub(crate) fn test_valid(alloc: Global, validate: bool, source: &Loaded) -> MbtResult<()>
    ensures { Tests (invalid validate source.now.state) result }
{
    if validate {
        return test_hash(alloc, source);
    }
    Ok(())
}

/// The test that a mode says what counts in a described destination.
pub(crate) fn test_mode(copier: &MbtilesCopier) -> MbtResult<()>
    ensures { Tests (mode_missing copier.now) result }
{
    if copier.on_duplicate.is_some() {
        return Ok(());
    }
    Err(MbtError::DestinationFileExists)
}

/// The test that a described destination is of the kind that is asked for.
pub(crate) fn test_kind(copier: &MbtilesCopier, actual: MbtType) -> MbtResult<()>
    ensures { Tests (kind_wrong actual (asked_type copier.now)) result }
{
    match asked_type(copier) {
        Some(desired) => {
            if kind_number(actual) == kind_number(desired) {
                return Ok(());
            }
            Err(MbtError::MismatchedTargetType { actual, desired })
        }
        None => Ok(()),
    }
}

// Whether the tile of a source at an index is copied and there already.
fn has_tile(copier: &MbtilesCopier, source: &Loaded, base: &Loaded, index: usize) -> bool
    requires { index < len source.now.state.tiles }
    ensures { IfSome (slice_get (entries source.now.state.tiles) index)
        (λ e. result ≡ tile_there copier.now base.now.state e) }
{
    let (coord, _) = source.tile_at(index);
    is_chosen(copier, coord) && base.tile(coord).is_some()
}

// Whether a tile of a source is copied and there already.
fn has_any_tile(copier: &MbtilesCopier, source: &Loaded, base: &Loaded) -> bool
    ensures { result ≡ list_any (tile_there copier.now base.now.state)
        (entries source.now.state.tiles) }
{
    for index in 0..source.tile_count() {
        if has_tile(copier, source, base, index) {
            return true;
        }
    }
    false
}

// Whether the name of a source at an index is copied and there already.
fn has_name(copier: &MbtilesCopier, source: &Loaded, base: &Loaded, index: usize) -> bool
    requires { index < len source.now.state.metadata }
    ensures { IfSome (slice_get (entries source.now.state.metadata) index)
        (λ e. result ≡ name_there copier.now base.now.state e) }
{
    let (name, _) = source.metadata_at(index);
    is_copied_name(copier, name) && base.metadata(name).is_some()
}

// Whether a name of a source is copied and there already.
fn has_any_name(copier: &MbtilesCopier, source: &Loaded, base: &Loaded) -> bool
    ensures { result ≡ list_any (name_there copier.now base.now.state)
        (entries source.now.state.metadata) }
{
    for index in 0..source.metadata_count() {
        if has_name(copier, source, base, index) {
            return true;
        }
    }
    false
}

// The test that nothing that is copied is there already.
fn test_apart(copier: &MbtilesCopier, source: &Loaded, base: &Loaded) -> MbtResult<()>
    ensures { Tests (duplicates CopyDuplicateMode.Abort
        (has_both copier.now source.now.state.tiles source.now.state.metadata base.now.state))
        result }
{
    if has_any_tile(copier, source, base) || has_any_name(copier, source, base) {
        return Err(MbtError::DuplicateValues);
    }
    Ok(())
}

/// The test that nothing that is copied is there already, where the mode forbids that.
pub(crate) fn test_duplicates(
    copier: &MbtilesCopier,
    source: &Loaded,
    base: &Loaded,
) -> MbtResult<()>
    ensures { Tests (duplicates (mode_of copier.now)
        (has_both copier.now source.now.state.tiles source.now.state.metadata base.now.state))
        result }
{
    match mode_of(copier) {
        CopyDuplicateMode::Override => Ok(()),
        CopyDuplicateMode::Ignore => Ok(()),
        CopyDuplicateMode::Abort => test_apart(copier, source, base),
    }
}
