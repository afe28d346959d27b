// The set that an archive is imported into.
ghost use Rattle.tile_import.specs.Common.{is_free, IsLoadedFrom, Keeps};
ghost use Rattle.mb_store.specs.Kept.{FaultsCounted, ReadsOnly};
ghost use Rattle.std.specs.Prelude.{◌≡◌, IfErr, IfOk, OnErr, OnOk, true};
ghost use Rattle.mb_load.specs.Begun.{IsBegun};
ghost use Rattle.mb_loaded.specs.Changing.{AreChangesOf};
ghost use Rattle.mb_load.specs.Committing.{MakesChanges};
ghost use Rattle.tile_import.specs.Storing.{IsBase, editable, state_in};

use base_values::OutOfMemory;
use mb_edit::test_editable;
use mb_load::load;
use mb_loaded::Loaded;
use mb_store::{Changes, MbtError, MbtResult, TileStore};
use std::alloc::Global;

/// Loads a set into which tiles can be put. It answers the refusals of `load`, and then `UnsupportedCopyOperation`
/// where the set has ids that are numbers. The store is only read.
pub fn load_base<S: TileStore>(alloc: Global, store: &mut S) -> MbtResult<Loaded>
    ensures answer { IsBegun editable (S.tells store.old) (S.told store.old) (state_in result) }
    ensures base { S.tells store.old ≡ true → IfOk result (IsBase (S.told store.old)) }
    ensures kept { ReadsOnly S.told S.tells S.faults S.steady store.old store.new }
    ensures fault { FaultsCounted S.faults store.old store.new result MbtError.StoreFault }
{
    let set = load(alloc, store)?;
    test_editable(set.mbt_type())?;
    Ok(set)
}

// The changes of a set, which is let go.
fn changes_of(alloc: Global, set: Loaded) -> Result<Changes, OutOfMemory>
    ensures { IfOk result (λ changes. AreChangesOf set changes) }
{
    set.into_changes(alloc)
}

/// Commits all edits of a set at once to the store that it was loaded from, as `commit_loaded` does. The set is let go
/// before that, since a store may make rows of its own of the changes.
pub(crate) fn commit_set<S: TileStore>(alloc: Global, store: &mut S, set: Loaded) -> MbtResult<()>
    requires { S.tells store.old ≡ true → IsLoadedFrom (S.told store.old) set }
    ensures committed { S.tells store.old ≡ true → OnOk result
        (MakesChanges set (S.told store.old) (S.told store.new)) }
    ensures refused { OnErr result (S.told store.new ≡ S.told store.old) }
    ensures free { IfErr result (λ e. is_free e ≡ true) }
    ensures kept { Keeps S.tells S.faults S.steady store.old store.new }
    ensures fault { FaultsCounted S.faults store.old store.new result MbtError.StoreFault }
{
    let changes = changes_of(alloc, set)?;
    store.commit(alloc, &changes)?;
    Ok(())
}
