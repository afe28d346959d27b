// The tests of a set's rows, which loading makes.
ghost use Rattle.mb_check.specs.Common.{FaultsCounted, IsBegun, ReadsOnly};
ghost use Rattle.mb_check.specs.Validation.{rows_answer};

use mb_load::load;
use mb_store::{MbtError, MbtResult, TileStore};
use std::alloc::Global;

/// Whether each row of a tile has a place of zoom 0 to 30, and bytes or null for its contents. It is Ok
/// exactly where the set loads.
///
/// It answers the refusals of `load`, of which `InvalidTileIndex` is that of such a row. The store holds what it
/// held, whatever the answer.
pub fn check_tiles_type_validity<S: TileStore>(alloc: Global, store: &mut S) -> MbtResult<()>
    ensures answer { IsBegun rows_answer (S.tells store.old) (S.told store.old) result }
    ensures kept { ReadsOnly S.told S.tells S.faults S.steady store.old store.new }
    ensures fault { FaultsCounted S.faults store.old store.new result MbtError.StoreFault }
{
    let _set = load(alloc, store)?;
    Ok(())
}

/// Whether each stored digest is that of its bytes: the hash of a row, and the text id of contents. It is Ok
/// exactly where the set loads.
///
/// It answers the refusals of `load`, of which `IncorrectTileHash` is that of such a digest. The store holds what it
/// held, whatever the answer.
pub fn check_each_tile_hash<S: TileStore>(alloc: Global, store: &mut S) -> MbtResult<()>
    ensures answer { IsBegun rows_answer (S.tells store.old) (S.told store.old) result }
    ensures kept { ReadsOnly S.told S.tells S.faults S.steady store.old store.new }
    ensures fault { FaultsCounted S.faults store.old store.new result MbtError.StoreFault }
{
    let _set = load(alloc, store)?;
    Ok(())
}
