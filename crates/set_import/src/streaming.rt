// A new store that is filled from an archive in several commits.
ghost use Rattle.std.specs.Prelude.{◌≡◌, ◌≤◌, ◌+◌, ◌↔◌, [], IfErr, IfOk, IfSome, IsTrue, None, OnOk, false, length, true};
ghost use Rattle.pm_reader.specs.Opening.{header_of};
ghost use Rattle.pm_walk.specs.Collecting.{AllShallow, AreOrdered};
ghost use Rattle.set_import.specs.Batches.{AreThere, Fills, IsPlain, StopAnswers, StopCauses};
ghost use Rattle.set_import.specs.Common.{document_edits, held_edited, ImportCauses, IsAnswered, IsWithoutFloat, Keeps, ReadsOnly};
ghost use Rattle.set_import.specs.Filling.{IsFilled, started};
ghost use Rattle.set_import.specs.Streaming.{empty_flat, IsStoppedAt, is_stopped, reads_streamed};

use crate::batch::commit_plain;
use crate::entries::{count_tiles, put_entries};
use crate::filling::fill_in;
use mb_loaded::Loaded;
use mb_metadata::with_document;
use mb_store::{MbtType, TileStore, init_mbtiles_schema, is_empty_database};
use pm_format::{Backend, DirEntry};
use pm_reader::ReaderState;
use std::alloc::Global;
use tile_hash::HashAlgorithm;
use tile_import::{ImportError, of_store, walk_archive};
use tile_json::TileJson;

// The names of a document, as a flat set without tiles.
fn names_of(alloc: Global, document: &TileJson) -> Result<Loaded, ImportError>
    requires { IsWithoutFloat document.now }
    ensures named { IfOk result
        (λ set. set ≡ held_edited empty_flat (document_edits document.now)) }
    ensures memory { IfErr result (λ e. e ≡ ImportError.OutOfMemory) }
{
    let none = Loaded::empty(alloc, MbtType::Flat, HashAlgorithm::Md5);
    match with_document(alloc, none, document) {
        Ok(set) => Ok(set),
        Err(_) => Err(ImportError::OutOfMemory),
    }
}

// Makes the tables of a flat set, puts the tiles of tile entries into them, and commits the names of a set last.
fn put_all<B: Backend, S: TileStore>(
    alloc: Global,
    reader: &ReaderState,
    backend: &mut B,
    store: &mut S,
    entries: &[DirEntry],
    names: Loaded,
) -> Result<(), ImportError>
    requires new { S.tells store.old ≡ true → (S.told store.old).descriptions ≡ [] }
    requires ordered { AreOrdered 0 entries.now None }
    requires shallow { AllShallow entries.now }
    requires there { AreThere (B.told backend.old) (header_of reader.now) entries.now }
    requires plain { IsPlain names }
    ensures fills { S.tells store.old ≡ true → Fills (B.told backend.old) (header_of reader.now)
        (S.told store.old) (S.told store.new) entries.now names result }
    ensures causes { IfErr result (StopCauses (B.faults backend.old) (B.faults backend.new)
        (S.faults store.old) (S.faults store.new)) }
    ensures told { IfErr result (StopAnswers (B.told backend.old)) }
    ensures backend_kept { ReadsOnly B.told B.versions B.faults B.steady backend.old backend.new }
    ensures store_kept { Keeps S.tells S.faults S.steady store.old store.new }
    ensures backend_still { OnOk result (B.faults backend.new ≡ B.faults backend.old) }
    ensures store_still { OnOk result (S.faults store.new ≡ S.faults store.old) }
    ensures reads { B.reads backend.new ≤ B.reads backend.old + length entries.now }
{
    match init_mbtiles_schema(alloc, store, MbtType::Flat) {
        Ok(()) => {}
        Err(error) => return Err(of_store(error)),
    }
    match put_entries(alloc, reader, backend, store, entries) {
        Ok(()) => {}
        Err(error) => return Err(error),
    }
    match commit_plain(alloc, store, names) {
        Ok(()) => Ok(()),
        Err(error) => Err(of_store(error)),
    }
}

// Puts the tiles of an archive and the names of a document into a new store, after all tests.
fn stream<B: Backend, S: TileStore>(
    alloc: Global,
    backend: &mut B,
    store: &mut S,
    document: &TileJson,
    max_tiles: u64,
) -> Result<u64, ImportError>
    requires whole { IsWithoutFloat document.now }
    requires new { S.tells store.old ≡ true → (S.told store.old).descriptions ≡ [] }
    ensures answer { IsAnswered max_tiles (B.told backend.old) (S.tells store.old)
        (started (S.told store.old)) result }
    ensures causes { ImportCauses max_tiles (B.faults backend.old) (B.faults backend.new)
        (S.faults store.old) (S.faults store.new) result }
    ensures filled { S.tells store.old ≡ true → IfOk result (IsFilled (B.told backend.old)
        document.now (started (S.told store.old)) (S.told store.new)) }
    ensures refused { IfErr result (λ e. is_stopped e ≡ false
        → S.told store.new ≡ S.told store.old) }
    ensures stopped { S.tells store.old ≡ true → IfErr result
        (IsStoppedAt (B.told backend.old) (S.told store.old) (S.told store.new)) }
    ensures backend_kept { ReadsOnly B.told B.versions B.faults B.steady backend.old backend.new }
    ensures store_kept { Keeps S.tells S.faults S.steady store.old store.new }
    ensures backend_still { OnOk result (B.faults backend.new ≡ B.faults backend.old) }
    ensures store_still { OnOk result (S.faults store.new ≡ S.faults store.old) }
    ensures reads { IfSome (B.told backend.old) (λ b. B.reads backend.new
        ≤ B.reads backend.old + reads_streamed b) }
{
    let (reader, entries) = match walk_archive(alloc, backend, max_tiles) {
        Ok(walked) => walked,
        Err(error) => return Err(error),
    };
    let names = match names_of(alloc, document) {
        Ok(names) => names,
        Err(error) => return Err(error),
    };
    let list = entries.as_slice();
    let count = count_tiles(list);
    match put_all(alloc, &reader, backend, store, list, names) {
        Ok(()) => Ok(count),
        Err(error) => Err(error),
    }
}

// The same of any store: into one that describes anything all is put in one commit.
fn stream_in<B: Backend, S: TileStore>(
    alloc: Global,
    backend: &mut B,
    store: &mut S,
    document: &TileJson,
    max_tiles: u64,
    is_new: bool,
) -> Result<u64, ImportError>
    requires whole { IsWithoutFloat document.now }
    requires new { S.tells store.old ≡ true
        → (IsTrue is_new ↔ ((S.told store.old).descriptions ≡ [])) }
    ensures answer { IsAnswered max_tiles (B.told backend.old) (S.tells store.old)
        (started (S.told store.old)) result }
    ensures causes { ImportCauses max_tiles (B.faults backend.old) (B.faults backend.new)
        (S.faults store.old) (S.faults store.new) result }
    ensures filled { S.tells store.old ≡ true → IfOk result (IsFilled (B.told backend.old)
        document.now (started (S.told store.old)) (S.told store.new)) }
    ensures refused { IfErr result (λ e. is_stopped e ≡ false
        → S.told store.new ≡ S.told store.old) }
    ensures stopped { S.tells store.old ≡ true → IfErr result
        (IsStoppedAt (B.told backend.old) (S.told store.old) (S.told store.new)) }
    ensures backend_kept { ReadsOnly B.told B.versions B.faults B.steady backend.old backend.new }
    ensures store_kept { Keeps S.tells S.faults S.steady store.old store.new }
    ensures backend_still { OnOk result (B.faults backend.new ≡ B.faults backend.old) }
    ensures store_still { OnOk result (S.faults store.new ≡ S.faults store.old) }
    ensures reads { IfSome (B.told backend.old) (λ b. B.reads backend.new
        ≤ B.reads backend.old + reads_streamed b) }
{
    if is_new {
        return stream(alloc, backend, store, document, max_tiles);
    }
    fill_in(alloc, backend, store, document, max_tiles, false)
}

/// Asks the store whether it describes anything, and puts an archive into it: in several commits where it doesn't, and
/// else in one.
pub(crate) fn fill_streamed<B: Backend, S: TileStore>(
    alloc: Global,
    backend: &mut B,
    store: &mut S,
    document: &TileJson,
    max_tiles: u64,
) -> Result<u64, ImportError>
    requires { IsWithoutFloat document.now }
    ensures answer { IsAnswered max_tiles (B.told backend.old) (S.tells store.old)
        (started (S.told store.old)) result }
    ensures causes { ImportCauses max_tiles (B.faults backend.old) (B.faults backend.new)
        (S.faults store.old) (S.faults store.new) result }
    ensures filled { S.tells store.old ≡ true → IfOk result (IsFilled (B.told backend.old)
        document.now (started (S.told store.old)) (S.told store.new)) }
    ensures refused { IfErr result (λ e. is_stopped e ≡ false
        → S.told store.new ≡ S.told store.old) }
    ensures stopped { S.tells store.old ≡ true → IfErr result
        (IsStoppedAt (B.told backend.old) (S.told store.old) (S.told store.new)) }
    ensures backend_kept { ReadsOnly B.told B.versions B.faults B.steady backend.old backend.new }
    ensures store_kept { Keeps S.tells S.faults S.steady store.old store.new }
    ensures backend_still { OnOk result (B.faults backend.new ≡ B.faults backend.old) }
    ensures store_still { OnOk result (S.faults store.new ≡ S.faults store.old) }
    ensures reads { IfSome (B.told backend.old) (λ b. B.reads backend.new
        ≤ B.reads backend.old + reads_streamed b) }
{
    let is_new = match is_empty_database(alloc, store) {
        Ok(is_new) => is_new,
        Err(error) => return Err(of_store(error)),
    };
    match stream_in(alloc, backend, store, document, max_tiles, is_new) {
        Ok(count) => Ok(count),
        Err(error) => Err(error),
    }
}
