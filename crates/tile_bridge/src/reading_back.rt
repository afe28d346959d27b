// The tiles at coordinates, read from the archive that was written.
ghost use Rattle.std.specs.Prelude.{◌≡◌, ◌≤◌, ◌+◌, true, IfSome, IfOk};
ghost use Rattle.byte_media.specs.Kept.{ReadsOnly};
ghost use Rattle.tile_bridge.specs.Common.{filled, id_of, Options, WellFormed};
ghost use Rattle.pm_format.specs.Faults.{FaultsStand};
ghost use Rattle.pm_reader.specs.Answers.{LookUpCauses};
ghost use Rattle.pm_reader.specs.Archives.{UsesOneLength};
ghost use Rattle.pm_reader.specs.MapCaches.{held_in_map};
ghost use Rattle.pm_reader.specs.ReadsFrom.{ReadsFrom};
ghost use Rattle.tile_bridge.specs.ReadingBack.{GivesTile, GrewFrom, ReadBackCauses, ReadsAnswers, answered, answered_by};

use crate::Answers;
use base_values::{BlobVal, OutOfMemory};
use bytes::Bytes;
use pm_format::{Backend, PmtResult};
use pm_reader::{HashMapCache, ReaderState};
use std::alloc::Global;
use tile_ids::{TileCoord, TileId};

// The bytes that were found, or None where there is none.
fn filled_tile(alloc: Global, found: Option<Bytes>) -> Result<Option<BlobVal>, OutOfMemory>
    ensures { IfOk result (λ tile. tile ≡ filled (Ok found)) }
{
    match found {
        Some(bytes) => {
            if bytes.is_empty() {
                return Ok(None);
            }
            Ok(Some(BlobVal::new(Vec::from_slice(alloc, bytes.as_slice())?)))
        }
        None => Ok(None),
    }
}

// The tile at a coordinate in an archive that is open, or None where it has no byte there.
fn read_answer<B: Backend>(
    alloc: Global,
    state: &ReaderState,
    backend: &mut B,
    cache: &mut HashMapCache,
    coord: TileCoord,
) -> PmtResult<Option<BlobVal>>
    requires from { IfSome (B.told backend.old)
        (λ b. ReadsFrom b state.now (held_in_map cache.old) ⊥) }
    ensures from { IfSome (B.told backend.new)
        (λ b. ReadsFrom b state.now (held_in_map cache.new) ⊥) }
    ensures answer { IfSome (B.told backend.old) (λ b. UsesOneLength b
        → GivesTile b (id_of coord) result) }
    ensures causes { LookUpCauses (B.faults backend.old) (B.faults backend.new) result }
    ensures reads { IfOk result (λ tile. GrewFrom (B.reads backend.old) (B.reads backend.new)
        (answered_by tile)) }
    ensures counted { B.reads backend.old ≤ B.reads backend.new }
    ensures kept { ReadsOnly B.told B.versions B.faults B.steady backend.old backend.new }
    ensures still { FaultsStand (B.faults backend.old) (B.faults backend.new) result }
{
    let found = state.get_cached_tile(backend, cache, TileId::from(coord))?;
    Ok(filled_tile(alloc, found)?)
}

/// The tiles that the archive of a backend has at coordinates, each None where it has no byte there. Leaves are
/// held once they are read.
///
/// Over a well-formed archive that the backend tells, no refusal comes but `Reading(Fault)`, which comes only
/// where the count of faults rose, and running out of memory. The opening is one read, and so is each answer of at
/// least one byte at least.
pub fn read_answers<B: Backend>(
    alloc: Global,
    backend: &mut B,
    coords: &[TileCoord],
) -> PmtResult<Answers>
    ensures answers { IfSome (B.told backend.old) (λ b. (o : Options) → WellFormed b o true
        → ReadsAnswers b coords.now result) }
    ensures causes { ReadBackCauses (B.faults backend.old) (B.faults backend.new) result }
    ensures reads { IfOk result (λ answers. GrewFrom (B.reads backend.old) (B.reads backend.new)
        (answered answers + 1)) }
    ensures counted { B.reads backend.old ≤ B.reads backend.new }
    ensures kept { ReadsOnly B.told B.versions B.faults B.steady backend.old backend.new }
    ensures still { FaultsStand (B.faults backend.old) (B.faults backend.new) result }
{
    let state = ReaderState::open(alloc, backend)?;
    let mut cache = HashMapCache::new(alloc);
    let mut tiles = Vec::new(alloc);
    for coord in coords {
        let tile = read_answer(alloc, &state, backend, &mut cache, *coord)?;
        tiles.push(tile)?;
    }
    Ok(Answers::new(tiles))
}
