// Committing the edits of a loaded set.
ghost use Rattle.mb_load.specs.Common.{FaultsCounted, is_free, Keeps};
ghost use Rattle.std.specs.Prelude.{◌≡◌, true, OnOk, OnErr, IfErr};
ghost use Rattle.mb_load.specs.Committing.{MakesChanges};
ghost use Rattle.mb_load.specs.LoadedFrom.{IsLoadedFrom};

use mb_loaded::Loaded;
use mb_store::{MbtError, MbtResult, TileStore};
use std::alloc::Global;

/// Commits all edits of a loaded set at once to the store that it was loaded from. Only running out of memory and a
/// fault of the store refuse it, and then the store holds what it held.
pub fn commit_loaded<S: TileStore>(alloc: Global, store: &mut S, set: &Loaded) -> MbtResult<()>
    requires { S.tells store.old ≡ true → IsLoadedFrom (S.told store.old) set.now }
    ensures committed { S.tells store.old ≡ true
        → OnOk result (MakesChanges set.now (S.told store.old) (S.told store.new)) }
    ensures refused { OnErr result (S.told store.new ≡ S.told store.old) }
    ensures free { IfErr result (λ e. is_free e ≡ true) }
    ensures kept { Keeps S.tells S.faults S.steady store.old store.new }
    ensures fault { FaultsCounted S.faults store.old store.new result MbtError.StoreFault }
{
    let changes = set.changes(alloc)?;
    store.commit(alloc, &changes)?;
    Ok(())
}
