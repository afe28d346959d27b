// The base of a conversion, read before its patches.
ghost use Rattle.std.specs.Prelude.{◌≡◌, ℕ, IfErr, IfOk, IsErrOf, OnOk};
ghost use Rattle.tile_bridge.specs.Stands.{IsAt};
ghost use Rattle.tile_bridge.specs.Stores.{due_at, Refuses};
ghost use Rattle.tile_streaming.specs.Common.{ReadsOnly, Rose};
ghost use Rattle.tile_streaming.specs.Patching.{IsBegun};

use crate::marking::read_marks;
use crate::overlaid::{Overlaid, marked_base};
use mb_store::TileStore;
use std::alloc::Global;
use tile_bridge::{ConvertError, of_store};

/// The base of a conversion, which has place 0. Marks of it are held.
pub(crate) fn read_base<S: TileStore>(alloc: Global, base: &mut S) -> Result<Overlaid, ConvertError>
    ensures begun { IfOk result (IsBegun (S.tells base.old) (S.told base.old)) }
    ensures refused { IfErr result (Refuses (due_at 0 (S.tells base.old) (S.told base.old))) }
    ensures kept { ReadsOnly S.told S.tells S.faults S.steady base.old base.new }
    ensures placed { IfErr result (IsAt 0) }
    ensures still { OnOk result (S.faults base.new ≡ S.faults base.old) }
    ensures fault { (p : ℕ) → IsErrOf result (ConvertError.StoreFault p)
        → (p ≡ 0) × Rose (S.faults base.old) (S.faults base.new) }
{
    let set = match read_marks(alloc, base) {
        Ok(set) => set,
        Err(error) => return Err(of_store(0, error)),
    };
    Ok(marked_base(alloc, set)?)
}
