// A set that is made of an archive.
ghost use Rattle.std.specs.Prelude.{◌≡◌, ◌≤◌, ◌+◌, IfErr, IfOk, IfSome, OnOk, false, true};
ghost use Rattle.set_import.specs.Common.{Keeps, reads_at_most, ReadsOnly};
ghost use Rattle.set_import.specs.Filling.{IsAnsweredAs, IsLeft, IsMade, MadeCauses, is_unwritten};
ghost use Rattle.set_import.specs.Streaming.{IsStoppedAt, is_stopped, reads_streamed};

use crate::filling::fill;
use crate::said::said_document;
use crate::streaming::fill_streamed;
use mb_store::TileStore;
use pm_format::Backend;
use std::alloc::Global;
use tile_import::ImportError;

/// Puts an archive into a store: the archive's tiles over those of its set, and into the metadata what the archive says
/// of itself by its header and its own metadata (`set_options::document_of_archive`),
/// both in one commit. It answers how many tiles there are. Where the store describes nothing the tables of a flat set
/// are made, directly before the commit; where it describes anything none is made.
///
/// The first of these that holds is answered: `Archive` with a refusal of opening, with the refusal of the metadata's
/// range or `InvalidMetadataUtf8Encoding` where it isn't there or isn't UTF-8, or with `InvalidMetadata`
/// where it isn't an object of JSON, nested at most 127 deep; then the answers of `tile_import::import`, in its order:
/// of the set, as a store that describes nothing has an empty flat one, of the archive's directories and of contents
/// that collide. Running out of memory, and a fault of the archive or the store, may come in the place of each.
///
/// Refused, the store holds what it held. But where it described nothing, and failed or found no memory in the commit
/// itself, the tables of a flat set stand in it without a row: making them is a step of
/// its own of a store, and the last one before the commit. A store that tells nothing stands as it was where the answer
/// is neither `OutOfMemory` nor `Store(StoreFault)`. `Archive(Reading(Fault))` and `Store(StoreFault)` come only
/// where the count of faults rose. The archive is read at most twice more than `import` reads it.
pub fn import_as_said<B: Backend, S: TileStore>(
    alloc: Global,
    backend: &mut B,
    store: &mut S,
    max_tiles: u64,
) -> Result<u64, ImportError>
    ensures answer { IsAnsweredAs max_tiles (B.told backend.old) (S.tells store.old)
        (S.told store.old) result }
    ensures causes { MadeCauses max_tiles (B.faults backend.old) (B.faults backend.new)
        (S.faults store.old) (S.faults store.new) result }
    ensures made { S.tells store.old ≡ true → IfOk result (IsMade (B.told backend.old)
        (S.told store.old) (S.told store.new)) }
    ensures refused { IfErr result (λ e. is_unwritten e ≡ false
        → S.told store.new ≡ S.told store.old) }
    ensures left { S.tells store.old ≡ true → IfErr result
        (IsLeft (S.told store.old) (S.told store.new)) }
    ensures backend_kept { ReadsOnly B.told B.versions B.faults B.steady backend.old backend.new }
    ensures store_kept { Keeps S.tells S.faults S.steady store.old store.new }
    ensures backend_still { OnOk result (B.faults backend.new ≡ B.faults backend.old) }
    ensures store_still { OnOk result (S.faults store.new ≡ S.faults store.old) }
    ensures reads { IfSome (B.told backend.old) (λ b. B.reads backend.new
        ≤ B.reads backend.old + (2 + reads_at_most b)) }
{
    let document = match said_document(alloc, backend) {
        Ok(document) => document,
        Err(error) => return Err(error),
    };
    match fill(alloc, backend, store, &document, max_tiles) {
        Ok(count) => Ok(count),
        Err(error) => Err(error),
    }
}

/// Puts an archive into a store, as `import_as_said` does, but into one that describes nothing in several commits: its
/// tables, then the tiles in order of their ids, some of them in one commit, and the names last. So the tile entries of
/// the archive are in memory, and of its tiles those of one commit: 1,000 tiles, or 8 MiB of contents, or one of more
/// bytes. Into a store that describes anything all is put in one commit, by way of memory.
///
/// The answers are those of `import_as_said`, and what is made is the same. All tests are made before anything is
/// written. The contents of each tile entry are read once for them, and once more where they are put.
///
/// Refused, the store holds what it held. But where it described nothing, and memory ran out, or the archive or the
/// store failed, or contents that were read before couldn't be read again, which an archive that tells its bytes never
/// answers, the tables of a flat set may stand in it, with a front of the import: the rows of the archive's tiles whose
/// ids lie below some id, and nothing else. So a store that must not hold a part of a set has to be dropped.
pub fn import_streamed<B: Backend, S: TileStore>(
    alloc: Global,
    backend: &mut B,
    store: &mut S,
    max_tiles: u64,
) -> Result<u64, ImportError>
    ensures answer { IsAnsweredAs max_tiles (B.told backend.old) (S.tells store.old)
        (S.told store.old) result }
    ensures causes { MadeCauses max_tiles (B.faults backend.old) (B.faults backend.new)
        (S.faults store.old) (S.faults store.new) result }
    ensures made { S.tells store.old ≡ true → IfOk result (IsMade (B.told backend.old)
        (S.told store.old) (S.told store.new)) }
    ensures refused { IfErr result (λ e. is_stopped e ≡ false
        → S.told store.new ≡ S.told store.old) }
    ensures stopped { S.tells store.old ≡ true → IfErr result
        (IsStoppedAt (B.told backend.old) (S.told store.old) (S.told store.new)) }
    ensures backend_kept { ReadsOnly B.told B.versions B.faults B.steady backend.old backend.new }
    ensures store_kept { Keeps S.tells S.faults S.steady store.old store.new }
    ensures backend_still { OnOk result (B.faults backend.new ≡ B.faults backend.old) }
    ensures store_still { OnOk result (S.faults store.new ≡ S.faults store.old) }
    ensures reads { IfSome (B.told backend.old) (λ b. B.reads backend.new
        ≤ B.reads backend.old + (2 + reads_streamed b)) }
{
    let document = match said_document(alloc, backend) {
        Ok(document) => document,
        Err(error) => return Err(error),
    };
    match fill_streamed(alloc, backend, store, &document, max_tiles) {
        Ok(count) => Ok(count),
        Err(error) => Err(error),
    }
}
