// Putting tiles into a loaded set.
ghost use Rattle.std.specs.Prelude.{◌≡◌, ◌≢◌, IfErr, IfOk, None, Some, false};
ghost use Rattle.mb_edit.specs.Common.{AllOnBoard, ids_given, is_editable, is_free, IsLoadedFrom, NamesAlgorithm, refused_by, Tables, Tests, unless};
ghost use Rattle.mb_edit.specs.Put.{may_put, state_put, tiles_put};

use crate::collision::test_ids;
use base_values::OutOfMemory;
use mb_loaded::{GivenIds, Loaded};
use mb_store::{MbtError, MbtResult, MbtType, NormalizedSchema};
use std::alloc::Global;

/// The test that tiles can be put into sets of a layout: `UnsupportedCopyOperation` where its ids are numbers.
pub fn test_editable(layout: MbtType) -> MbtResult<()>
    ensures answer { result ≡ refused_by (unless (is_editable layout)
        MbtError.UnsupportedCopyOperation) }
    ensures tests { Tests (unless (is_editable layout) MbtError.UnsupportedCopyOperation) result }
{
    match layout {
        MbtType::Normalized {
            schema: NormalizedSchema::DedupId,
            ..
        } => Err(MbtError::UnsupportedCopyOperation),
        _ => Ok(()),
    }
}

// What a set becomes with tiles that may be put into it, with the ids that it gives them.
fn put_all(base: Loaded, tiles: &Loaded, ids: &GivenIds) -> Result<Loaded, OutOfMemory>
    requires { ids.now ≡ ids_given base.state.layout base.state.algorithm tiles.now.state.tiles }
    ensures { IfOk result (λ h. h ≡ tiles_put base tiles.now.state.tiles) }
{
    base.edit().put_tiles(tiles, ids)?.settle()
}

// The same, where the other set is let go.
fn move_all(base: Loaded, tiles: Loaded, ids: &GivenIds) -> Result<Loaded, OutOfMemory>
    requires { ids.now ≡ ids_given base.state.layout base.state.algorithm tiles.state.tiles }
    ensures { IfOk result (λ h. h ≡ tiles_put base tiles.state.tiles) }
{
    base.edit().move_tiles(tiles, ids)?.settle()
}

/// A loaded set with the tiles of another one over its own: where that has bytes the tile has these, where it
/// has null there is no tile, and the other tiles stay. Digests and ids are by the algorithm of the set.
/// Contents of a normalised set stay, also where no tile has them any more. The metadata stays, and of the other
/// set nothing but its tiles counts.
///
/// Refused, it gives nothing back. The first of these that holds is answered:
///
/// 1. `UnsupportedCopyOperation`: the set has ids that are numbers.
/// 2. `IdCollision`: contents that are put have the id of others in a normalised set, with the
///    id of the first such tile.
pub fn put_tiles(alloc: Global, base: Loaded, tiles: &Loaded) -> MbtResult<Loaded>
    ensures refused { IfErr result
        (λ e. is_free e ≡ false → may_put base.state tiles.now.state.tiles ≡ Some e) }
    ensures unfaulted { IfErr result (λ e. e ≢ MbtError.StoreFault) }
    ensures value { IfOk result (λ h. (may_put base.state tiles.now.state.tiles ≡ None)
        × (h ≡ tiles_put base tiles.now.state.tiles)) }
    ensures state { IfOk result (λ h. h.state ≡ state_put base.state tiles.now.state.tiles) }
    ensures loaded { (t : Tables) → IsLoadedFrom t base → AllOnBoard tiles.now.state
        → IfOk result (IsLoadedFrom t) }
    ensures named { NamesAlgorithm base.state → IfOk result (λ h. NamesAlgorithm h.state) }
{
    test_editable(base.mbt_type())?;
    let ids = test_ids(alloc, &base, tiles)?;
    let put = put_all(base, tiles, &ids)?;
    Ok(put)
}

/// A loaded set with the tiles of another one over its own, as `put_tiles` gives it, with the same refusals. The other
/// set is let go: each of its contents is moved, so that none is held twice.
pub fn move_tiles(alloc: Global, base: Loaded, tiles: Loaded) -> MbtResult<Loaded>
    ensures refused { IfErr result (λ e. is_free e ≡ false
        → may_put base.state tiles.state.tiles ≡ Some e) }
    ensures unfaulted { IfErr result (λ e. e ≢ MbtError.StoreFault) }
    ensures value { IfOk result (λ h. (may_put base.state tiles.state.tiles ≡ None)
        × (h ≡ tiles_put base tiles.state.tiles)) }
    ensures state { IfOk result (λ h. h.state ≡ state_put base.state tiles.state.tiles) }
    ensures loaded { (t : Tables) → IsLoadedFrom t base → AllOnBoard tiles.state
        → IfOk result (IsLoadedFrom t) }
    ensures named { NamesAlgorithm base.state → IfOk result (λ h. NamesAlgorithm h.state) }
{
    test_editable(base.mbt_type())?;
    let ids = test_ids(alloc, &base, &tiles)?;
    let put = move_all(base, tiles, &ids)?;
    Ok(put)
}
