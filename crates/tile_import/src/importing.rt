// The import of an archive into a set.
ghost use Rattle.tile_import.specs.Common.{Keeps, ReadsOnly};
ghost use Rattle.std.specs.Prelude.{◌≡◌, ◌≤◌, ◌+◌, IfOk, IfSome, OnErr, OnOk, true};
ghost use Rattle.tile_import.specs.Import.{ImportCauses, IsAnswered, IsImported, reads_at_most};

use crate::ImportError;
use crate::put_over::{of_store, put_archive};
use crate::storing::{commit_set, load_base};
use mb_store::TileStore;
use pm_format::Backend;
use std::alloc::Global;

/// Imports an archive into a set: its tiles of at least one byte are put over those of the set, each at the coordinate
/// of its id, in one commit. It answers how many there are.
///
/// The first of these that holds is answered:
///
/// 1. `Store` with a refusal of `load`, or with `UnsupportedCopyOperation` where the set has ids that are numbers.
/// 2. `Archive` with a refusal of opening the archive.
/// 3. At the first entry that fails a test, a leaf being walked whole before the next entry: `Archive(InvalidEntry)`
///    where its id isn't above that before it, lies outside its directory's range, or its run passes the end of its own
///    range, and for a leaf behind six others; `Archive(Reading(PastEnd))` where its bytes pass the end of the archive
///    or u64; `Archive(InvalidEntry)` for a leaf that doesn't decode; and for a tile entry `InvalidTileId` with its
///    first id above `MAX_TILE_ID`, `InvalidTileIndex` with its first tile of zoom 31, unless it is empty, and
///    `TooManyTiles` where the runs of the non-empty entries up to this one sum above the limit.
/// 4. `Store` with `IdCollision`: contents that are put have the id of others in a normalised set, with the
///    id of the first such tile.
///
/// Refused, the store holds what it held. After Ok the tables load again as the set with the tiles over its own;
/// rows of other places, metadata and descriptions stay, and rows that were put carry their digest, where the
/// layout has one. The tiles are made in memory as the archive is walked, those of a run once the limit has room
/// for all of them, and no list of entries is kept. The archive is read once to open it, and once for each leaf and
/// each tile entry. `Archive(Reading(Fault))` and `Store(StoreFault)` come only where the backend's, or the
/// store's, count of faults rose.
pub fn import<B: Backend, S: TileStore>(
    alloc: Global,
    backend: &mut B,
    store: &mut S,
    max_tiles: u64,
) -> Result<u64, ImportError>
    ensures answer { IsAnswered max_tiles (B.told backend.old) (S.tells store.old)
        (S.told store.old) result }
    ensures causes { ImportCauses max_tiles (B.faults backend.old) (B.faults backend.new)
        (S.faults store.old) (S.faults store.new) result }
    ensures imported { S.tells store.old ≡ true → IfOk result (IsImported (B.told backend.old)
        (S.told store.old) (S.told store.new)) }
    ensures refused { OnErr result (S.told store.new ≡ S.told store.old) }
    ensures backend_kept { ReadsOnly B.told B.versions B.faults B.steady backend.old backend.new }
    ensures store_kept { Keeps S.tells S.faults S.steady store.old store.new }
    ensures backend_still { OnOk result (B.faults backend.new ≡ B.faults backend.old) }
    ensures store_still { OnOk result (S.faults store.new ≡ S.faults store.old) }
    ensures reads { IfSome (B.told backend.old) (λ b. B.reads backend.new
        ≤ B.reads backend.old + reads_at_most b) }
{
    let base = match load_base(alloc, store) {
        Ok(base) => base,
        Err(error) => return Err(of_store(error)),
    };
    let (set, count) = match put_archive(alloc, backend, base, max_tiles) {
        Ok(put) => put,
        Err(error) => return Err(error),
    };
    match commit_set(alloc, store, set) {
        Ok(()) => Ok(count),
        Err(error) => Err(of_store(error)),
    }
}
