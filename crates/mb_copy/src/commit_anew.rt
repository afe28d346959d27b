// Committing a set to a store that describes nothing.
ghost use Rattle.std.specs.Prelude.{◌≡◌, ◌⊎◌, [], IfErr, OnErr, OnOk, true};
ghost use Rattle.mb_copy.specs.Common.{created, FaultsCounted, is_free, IsLoadedFrom, Keeps, MakesChanges, set_tables, started_as, Tables};
ghost use Rattle.mb_load.specs.EmptyTables.{AreEmpty};

use mb_load::commit_loaded;
use mb_loaded::Loaded;
use mb_store::{MbtError, MbtResult, TileStore, init_mbtiles_schema};
use std::alloc::Global;

/// Makes the tables of a set's layout in a store that describes nothing, and commits the set to them, which is one that
/// tables without rows could have been loaded as. Refused, the store describes nothing still, or has the tables alone.
pub(crate) fn commit_anew<D: TileStore>(alloc: Global, dst: &mut D, next: &Loaded) -> MbtResult<()>
    requires none { D.tells dst.old ≡ true → (D.told dst.old).descriptions ≡ [] }
    requires layout { started_as next.now.state.layout ≡ next.now.state.layout }
    requires loaded { (t : Tables) → AreEmpty next.now.state.layout t → IsLoadedFrom t next.now }
    ensures committed { D.tells dst.old ≡ true
        → OnOk result
        (MakesChanges next.now (created (D.told dst.old) (set_tables next.now.state.layout))
        (D.told dst.new)) }
    ensures left { D.tells dst.old ≡ true
        → OnErr result ((D.told dst.new ≡ D.told dst.old)
        ⊎ (D.told dst.new ≡ created (D.told dst.old) (set_tables next.now.state.layout))) }
    ensures free { IfErr result (λ e. is_free e ≡ true) }
    ensures kept { Keeps D.tells D.faults D.steady dst.old dst.new }
    ensures fault { FaultsCounted D.faults dst.old dst.new result MbtError.StoreFault }
{
    init_mbtiles_schema(alloc, dst, next.mbt_type())?;
    commit_loaded(alloc, dst, next)?;
    Ok(())
}
