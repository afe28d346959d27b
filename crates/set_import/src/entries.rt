// The tile entries of an archive, put into a store.
ghost use Rattle.std.specs.Prelude.{◌≡◌, ◌≤◌, ◌+◌, ℕ, IfErr, None, OnOk, length, true};
ghost use Rattle.mb_tables.specs.Tiles.{TileSet};
ghost use Rattle.pm_reader.specs.Opening.{header_of};
ghost use Rattle.pm_walk.specs.Collecting.{AllShallow, AreOrdered, IsShallow};
ghost use Rattle.pm_walk.specs.Parts.{tile_count};
ghost use Rattle.set_import.specs.Batches.{AreFlat, AreThere, IsPlain, IsStream, IsThere, PutsEntries, PutsEntry, StopAnswers, StopCauses};
ghost use Rattle.set_import.specs.Common.{Keeps, ReadsOnly, Tables};

use crate::batch::{Batch, commit_batch, no_batch};
use crate::runs::put_run;
use mb_store::TileStore;
use pm_format::{Backend, DirEntry};
use pm_reader::ReaderState;
use std::alloc::Global;
use tile_import::{ImportError, of_reader, of_store};

/// How many tiles entries have.
pub(crate) fn count_tiles(entries: &[DirEntry]) -> u64
    requires { tile_count entries.now ≤ 18446744073709551615 }
    ensures { result ≡ tile_count entries.now }
{
    let mut count = 0;
    let mut rest = entries;
    while let Some((entry, others)) = rest.split_first() {
        count += u64::from(entry.run_length());
        rest = others;
    }
    count
}

// Reads the contents of a tile entry, and puts them at each of its ids.
fn put_entry<B: Backend, S: TileStore>(
    alloc: Global,
    reader: &ReaderState,
    backend: &mut B,
    store: &mut S,
    batch: &mut Batch,
    entry: DirEntry,
) -> Result<(), ImportError>
    requires shallow { IsShallow entry }
    requires there { IsThere (B.told backend.old) (header_of reader.now) entry }
    requires plain { IsPlain batch.old.tiles }
    requires flat { S.tells store.old ≡ true → AreFlat (S.told store.old).descriptions }
    ensures puts { (made : Tables) (all : TileSet)
        → IsStream (S.tells store.old) made (S.told store.old) batch.old.tiles all entry.tile_id
        → PutsEntry (B.told backend.old) (header_of reader.now) (S.tells store.old) made
        (S.told store.new) batch.new.tiles all entry result }
    ensures plain { IsPlain batch.new.tiles }
    ensures described { S.tells store.old ≡ true
        → (S.told store.new).descriptions ≡ (S.told store.old).descriptions }
    ensures causes { IfErr result (StopCauses (B.faults backend.old) (B.faults backend.new)
        (S.faults store.old) (S.faults store.new)) }
    ensures told { IfErr result (StopAnswers (B.told backend.old)) }
    ensures backend_kept { ReadsOnly B.told B.versions B.faults B.steady backend.old backend.new }
    ensures store_kept { Keeps S.tells S.faults S.steady store.old store.new }
    ensures backend_still { OnOk result (B.faults backend.new ≡ B.faults backend.old) }
    ensures store_still { OnOk result (S.faults store.new ≡ S.faults store.old) }
    ensures reads { B.reads backend.new ≤ B.reads backend.old + 1 }
{
    let bytes = match reader.read_contents(backend, entry.offset(), entry.length()) {
        Ok(bytes) => bytes,
        Err(error) => return Err(of_reader(error)),
    };
    match put_run(alloc, store, batch, entry, bytes.as_slice()) {
        Ok(()) => Ok(()),
        Err(error) => Err(of_store(error)),
    }
}

/// Puts the tiles of tile entries into a store that has the tables of an empty flat set, in order of their ids and in
/// several commits. The contents of each entry are read once.
pub(crate) fn put_entries<B: Backend, S: TileStore>(
    alloc: Global,
    reader: &ReaderState,
    backend: &mut B,
    store: &mut S,
    entries: &[DirEntry],
) -> Result<(), ImportError>
    requires ordered { AreOrdered 0 entries.now None }
    requires shallow { AllShallow entries.now }
    requires there { AreThere (B.told backend.old) (header_of reader.now) entries.now }
    requires flat { S.tells store.old ≡ true → AreFlat (S.told store.old).descriptions }
    ensures puts { PutsEntries (B.told backend.old) (header_of reader.now) (S.tells store.old)
        (S.told store.old) (S.told store.new) entries.now result }
    ensures described { S.tells store.old ≡ true
        → (S.told store.new).descriptions ≡ (S.told store.old).descriptions }
    ensures causes { IfErr result (StopCauses (B.faults backend.old) (B.faults backend.new)
        (S.faults store.old) (S.faults store.new)) }
    ensures told { IfErr result (StopAnswers (B.told backend.old)) }
    ensures backend_kept { ReadsOnly B.told B.versions B.faults B.steady backend.old backend.new }
    ensures store_kept { Keeps S.tells S.faults S.steady store.old store.new }
    ensures backend_still { OnOk result (B.faults backend.new ≡ B.faults backend.old) }
    ensures store_still { OnOk result (S.faults store.new ≡ S.faults store.old) }
    ensures reads { B.reads backend.new ≤ B.reads backend.old + length entries.now }
{
    let mut batch = no_batch(alloc);
    let mut rest = entries;
    while let Some((entry, others)) = rest.split_first() {
        match put_entry(alloc, reader, backend, store, &mut batch, *entry) {
            Ok(()) => {}
            Err(error) => return Err(error),
        }
        rest = others;
    }
    match commit_batch(alloc, store, batch) {
        Ok(()) => Ok(()),
        Err(error) => Err(of_store(error)),
    }
}
