// The tiles of an archive over those of a loaded set.
ghost use Rattle.std.specs.Prelude.{◌≡◌, ◌≢◌, ◌≤◌, ◌+◌, IfErr, IfOk, IfSome, None, OnOk, Some, false};
ghost use Rattle.tile_import.specs.Common.{AllOnBoard, is_free, IsLoadedFrom, may_put, ReadsOnly, Tables, tiles_put};
ghost use Rattle.tile_import.specs.Import.{of_store_error, reads_at_most};
ghost use Rattle.tile_import.specs.PutOver.{IsPutAnswer, IsPutOver, PutCauses, count_in};

use crate::ImportError;
use crate::reading::read_archive;
use mb_edit::move_tiles;
use mb_loaded::Loaded;
use mb_store::{MbtError, MbtResult};
use pm_format::Backend;
use std::alloc::Global;

/// The import's word for an error of the store.
pub fn of_store(error: MbtError) -> ImportError
    ensures { result ≡ of_store_error error }
{
    match error {
        MbtError::OutOfMemory => ImportError::OutOfMemory,
        error => ImportError::Store(error),
    }
}

// A set with the tiles of another one over its own. The other set is let go.
fn put_over(alloc: Global, base: Loaded, tiles: Loaded) -> MbtResult<Loaded>
    ensures refused { IfErr result (λ e. is_free e ≡ false
        → may_put base.state tiles.state.tiles ≡ Some e) }
    ensures unfaulted { IfErr result (λ e. e ≢ MbtError.StoreFault) }
    ensures value { IfOk result (λ h. (may_put base.state tiles.state.tiles ≡ None)
        × (h ≡ tiles_put base tiles.state.tiles)) }
    ensures loaded { (t : Tables) → IsLoadedFrom t base → AllOnBoard tiles.state
        → IfOk result (IsLoadedFrom t) }
{
    move_tiles(alloc, base, tiles)
}

/// Puts the tiles of an archive over those of a loaded set, as `import` does, and gives the set with how many there
/// are. Nothing is committed; where the set was loaded from tables, it
/// still was.
///
/// The first of these that holds is answered: the refusals of the archive, as `import` answers them; then `Store` with
/// `UnsupportedCopyOperation` where the set has ids that are numbers, and with
/// `IdCollision`. The archive is read once to open it, and once for each leaf and each tile entry.
/// `Archive(Reading(Fault))` comes only where the backend's count of faults rose, and
/// `Store(StoreFault)` never.
pub fn put_archive<B: Backend>(
    alloc: Global,
    backend: &mut B,
    base: Loaded,
    max_tiles: u64,
) -> Result<(Loaded, u64), ImportError>
    ensures answer { IsPutAnswer max_tiles (B.told backend.old) base.state (count_in result) }
    ensures causes { PutCauses max_tiles (B.faults backend.old) (B.faults backend.new)
        (count_in result) }
    ensures put { IfOk result (λ r. IsPutOver (B.told backend.old) base r.0 r.1) }
    ensures loaded { (t : Tables) → IsLoadedFrom t base → IfOk result (λ r. IsLoadedFrom t r.0) }
    ensures kept { ReadsOnly B.told B.versions B.faults B.steady backend.old backend.new }
    ensures still { OnOk result (B.faults backend.new ≡ B.faults backend.old) }
    ensures reads { IfSome (B.told backend.old) (λ b. B.reads backend.new
        ≤ B.reads backend.old + reads_at_most b) }
{
    let tiles = match read_archive(alloc, backend, max_tiles) {
        Ok(tiles) => tiles,
        Err(error) => return Err(error),
    };
    let count = tiles.tile_count();
    match put_over(alloc, base, tiles) {
        Ok(set) => Ok((set, count as u64)),
        Err(error) => Err(of_store(error)),
    }
}
