// A loaded set into which another one is copied.
ghost use Rattle.std.specs.Prelude.{◌≡◌, IfOk, true};
ghost use Rattle.mb_copy.specs.Clearing.{IsSource};
ghost use Rattle.mb_copy.specs.CopyOrder.{may_copy};
ghost use Rattle.mb_copy.specs.HeldCopied.{IsPutIn, held_completed, held_copied, held_with, nulls_put};
ghost use Rattle.mb_copy.specs.Common.{bytes_put, id_collides, is_editable, Tests};

use crate::MbtilesCopier;
use crate::chosen::put_of;
use crate::edits::{with_nulls, with_times};
use crate::names::with_names;
use crate::refusals::test_duplicates;
use base_values::OutOfMemory;
use mb_edit::put_tiles;
use mb_loaded::Loaded;
use mb_store::MbtResult;
use std::alloc::Global;

// A set with the nulls, the times and the names of what is put, into which its tiles were put.
fn completed(
    alloc: Global,
    copier: &MbtilesCopier,
    made: bool,
    set: Loaded,
    put: &Loaded,
) -> Result<Loaded, OutOfMemory>
    requires { IsPutIn put.now.state.tiles (nulls_put set put.now.state.tiles) }
    ensures { IfOk result
        (λ h. h ≡ held_completed copier.now made set put.now.state.tiles put.now.state.dates
        put.now.state.metadata) }
{
    let set = with_nulls(set, put)?;
    let set = with_times(alloc, set, put)?;
    with_names(alloc, copier, made, set, put)
}

// A set with what is put over it.
fn put_over(
    alloc: Global,
    copier: &MbtilesCopier,
    made: bool,
    base: Loaded,
    put: &Loaded,
) -> MbtResult<Loaded>
    requires { is_editable base.state.layout ≡ true }
    ensures tests { Tests (id_collides base.state.layout base.state.algorithm base.state.contents
        (bytes_put put.now.state.tiles)) result }
    ensures value { IfOk result
        (λ h. h ≡ held_with copier.now made base put.now.state.tiles put.now.state.dates
        put.now.state.metadata) }
{
    let set = put_tiles(alloc, base, put)?;
    Ok(completed(alloc, copier, made, set, put)?)
}

/// A set into which a source is copied, or the first refusal of the tests of what is put; whether the
/// set was made for the copy.
pub(crate) fn copied(
    alloc: Global,
    copier: &MbtilesCopier,
    made: bool,
    source: Loaded,
    base: Loaded,
) -> MbtResult<Loaded>
    requires source { IsSource source.state }
    requires editable { is_editable base.state.layout ≡ true }
    ensures tests { Tests (may_copy copier.now source.state base.state) result }
    ensures value { IfOk result (λ h. h ≡ held_copied copier.now made source.state base) }
{
    test_duplicates(copier, &source, &base)?;
    let put = put_of(alloc, copier, source, &base)?;
    put_over(alloc, copier, made, base, &put)
}
