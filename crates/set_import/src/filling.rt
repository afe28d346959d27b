// A store that is filled from an archive.
ghost use Rattle.std.specs.Prelude.{◌≡◌, ◌≤◌, ◌+◌, ◌↔◌, [], IfErr, IfOk, IfSome, IsTrue, OnOk, false, true};
ghost use Rattle.set_import.specs.Common.{count_in, ImportCauses, IsAnswered, IsLoadedFrom, IsPutAnswer, IsWithoutFloat, Keeps, PutCauses, reads_at_most, ReadsOnly, Tables};
ghost use Rattle.set_import.specs.Filling.{IsFilled, IsFilledSet, IsLeft, is_unwritten, started};

use crate::storing::{base_of, store_set};
use mb_loaded::Loaded;
use mb_metadata::with_document;
use mb_store::{TileStore, is_empty_database};
use pm_format::Backend;
use std::alloc::Global;
use tile_import::{ImportError, of_store, put_archive};
use tile_json::TileJson;

// A loaded set with the tiles of an archive over its own, and a document in its metadata; and how many tiles these are.
fn filled_set<B: Backend>(
    alloc: Global,
    backend: &mut B,
    base: Loaded,
    document: &TileJson,
    max_tiles: u64,
) -> Result<(Loaded, u64), ImportError>
    requires { IsWithoutFloat document.now }
    ensures answer { IsPutAnswer max_tiles (B.told backend.old) base.state (count_in result) }
    ensures causes { PutCauses max_tiles (B.faults backend.old) (B.faults backend.new)
        (count_in result) }
    ensures filled { IfOk result
        (λ r. IsFilledSet (B.told backend.old) document.now base r.0 r.1) }
    ensures loaded { (t : Tables) → IsLoadedFrom t base → IfOk result (λ r. IsLoadedFrom t r.0) }
    ensures kept { ReadsOnly B.told B.versions B.faults B.steady backend.old backend.new }
    ensures still { OnOk result (B.faults backend.new ≡ B.faults backend.old) }
    ensures reads { IfSome (B.told backend.old) (λ b. B.reads backend.new
        ≤ B.reads backend.old + reads_at_most b) }
{
    let (set, count) = match put_archive(alloc, backend, base, max_tiles) {
        Ok(put) => put,
        Err(error) => return Err(error),
    };
    match with_document(alloc, set, document) {
        Ok(set) => Ok((set, count)),
        Err(_) => Err(ImportError::OutOfMemory),
    }
}

/// Puts the tiles of an archive over those of a set, and a document into its metadata, in one commit after all tests.
/// Where the store is new, that is where nothing is described, the tables of a flat set are made before it. The
/// answers are those of `tile_import::import` into the tables as they are then.
pub(crate) fn fill_in<B: Backend, S: TileStore>(
    alloc: Global,
    backend: &mut B,
    store: &mut S,
    document: &TileJson,
    max_tiles: u64,
    is_new: bool,
) -> Result<u64, ImportError>
    requires whole { IsWithoutFloat document.now }
    requires new { S.tells store.old ≡ true
        → (IsTrue is_new ↔ ((S.told store.old).descriptions ≡ [])) }
    ensures answer { IsAnswered max_tiles (B.told backend.old) (S.tells store.old)
        (started (S.told store.old)) result }
    ensures causes { ImportCauses max_tiles (B.faults backend.old) (B.faults backend.new)
        (S.faults store.old) (S.faults store.new) result }
    ensures filled { S.tells store.old ≡ true → IfOk result (IsFilled (B.told backend.old)
        document.now (started (S.told store.old)) (S.told store.new)) }
    ensures refused { IfErr result (λ e. is_unwritten e ≡ false
        → S.told store.new ≡ S.told store.old) }
    ensures left { S.tells store.old ≡ true → IfErr result
        (IsLeft (S.told store.old) (S.told store.new)) }
    ensures backend_kept { ReadsOnly B.told B.versions B.faults B.steady backend.old backend.new }
    ensures store_kept { Keeps S.tells S.faults S.steady store.old store.new }
    ensures backend_still { OnOk result (B.faults backend.new ≡ B.faults backend.old) }
    ensures store_still { OnOk result (S.faults store.new ≡ S.faults store.old) }
    ensures reads { IfSome (B.told backend.old) (λ b. B.reads backend.new
        ≤ B.reads backend.old + reads_at_most b) }
{
    let base = match base_of(alloc, store, is_new) {
        Ok(base) => base,
        Err(error) => return Err(of_store(error)),
    };
    let (set, count) = match filled_set(alloc, backend, base, document, max_tiles) {
        Ok(filled) => filled,
        Err(error) => return Err(error),
    };
    match store_set(alloc, store, set, is_new) {
        Ok(()) => Ok(count),
        Err(error) => Err(of_store(error)),
    }
}

/// Asks the store whether it describes anything, and puts an archive into it, as `fill_in` does.
pub(crate) fn fill<B: Backend, S: TileStore>(
    alloc: Global,
    backend: &mut B,
    store: &mut S,
    document: &TileJson,
    max_tiles: u64,
) -> Result<u64, ImportError>
    requires { IsWithoutFloat document.now }
    ensures answer { IsAnswered max_tiles (B.told backend.old) (S.tells store.old)
        (started (S.told store.old)) result }
    ensures causes { ImportCauses max_tiles (B.faults backend.old) (B.faults backend.new)
        (S.faults store.old) (S.faults store.new) result }
    ensures filled { S.tells store.old ≡ true → IfOk result (IsFilled (B.told backend.old)
        document.now (started (S.told store.old)) (S.told store.new)) }
    ensures refused { IfErr result (λ e. is_unwritten e ≡ false
        → S.told store.new ≡ S.told store.old) }
    ensures left { S.tells store.old ≡ true → IfErr result
        (IsLeft (S.told store.old) (S.told store.new)) }
    ensures backend_kept { ReadsOnly B.told B.versions B.faults B.steady backend.old backend.new }
    ensures store_kept { Keeps S.tells S.faults S.steady store.old store.new }
    ensures backend_still { OnOk result (B.faults backend.new ≡ B.faults backend.old) }
    ensures store_still { OnOk result (S.faults store.new ≡ S.faults store.old) }
    ensures reads { IfSome (B.told backend.old) (λ b. B.reads backend.new
        ≤ B.reads backend.old + reads_at_most b) }
{
    let is_new = match is_empty_database(alloc, store) {
        Ok(is_new) => is_new,
        Err(error) => return Err(of_store(error)),
    };
    match fill_in(alloc, backend, store, document, max_tiles, is_new) {
        Ok(count) => Ok(count),
        Err(error) => Err(error),
    }
}
