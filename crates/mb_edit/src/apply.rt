// Applying a patch to a store.
ghost use Rattle.mb_store.specs.Kept.{Keeps, ReadsOnly};
ghost use Rattle.std.specs.Prelude.{◌≡◌, ◌⊎◌, true, IsErrOf, OnOk, OnErr};
ghost use Rattle.mb_edit.specs.Applying.{IsAnsweredBy, IsAppliedBy};
ghost use Rattle.base_values.specs.Counts.{Rose};

use crate::patch_loaded;
use mb_load::{commit_loaded, load};
use mb_store::{MbtError, MbtResult, TileStore};
use std::alloc::Global;

/// Applies a whole-tile patch to a store, in one commit: the set that `patch_loaded` makes of what both hold.
///
/// It answers the first refusal of these: that of loading the set, that of loading the patch, that of `patch_loaded`.
/// Refused, both stores hold what they held; the patch does so always. After Ok the tables load again as the patched
/// set. Rows of places that the patch doesn't name stay as they were, also stored digests; rows of bytes that it puts
/// carry the digest of these, where the layout has one. A store that tells nothing is answered as tables are that its
/// answers could be of, at Ok too: a patch that tells its tables then loads and passes its tests. `StoreFault` comes
/// only where the count of faults of one of the two stores rose, and at Ok both counts stand.
pub fn apply_patch<S: TileStore, P: TileStore>(
    alloc: Global,
    base: &mut S,
    patch: &mut P,
    force: bool,
) -> MbtResult<()>
    ensures answer { IsAnsweredBy force (S.tells base.old) (S.told base.old) (P.tells patch.old)
        (P.told patch.old) result }
    ensures applied { S.tells base.old ≡ true
        → OnOk result (IsAppliedBy force (P.tells patch.old) (P.told patch.old) (S.told base.old)
        (S.told base.new)) }
    ensures refused { OnErr result (S.told base.new ≡ S.told base.old) }
    ensures patch_kept { ReadsOnly P.told P.tells P.faults P.steady patch.old patch.new }
    ensures kept { Keeps S.tells S.faults S.steady base.old base.new }
    ensures fault { IsErrOf result MbtError.StoreFault
        → Rose (S.faults base.old) (S.faults base.new)
        ⊎ Rose (P.faults patch.old) (P.faults patch.new) }
    ensures patch_still { OnOk result (P.faults patch.new ≡ P.faults patch.old) }
    ensures still { OnOk result (S.faults base.new ≡ S.faults base.old) }
{
    let set = load(alloc, base)?;
    let other = load(alloc, patch)?;
    let patched = patch_loaded(alloc, set, &other, force)?;
    commit_loaded(alloc, base, &patched)?;
    Ok(())
}
