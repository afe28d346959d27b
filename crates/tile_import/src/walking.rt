// The tile entries of an archive, without their contents.
ghost use Rattle.std.specs.Prelude.{◌≡◌, ◌≤◌, ◌+◌, [], Err, IfErr, IfOk, IfSome, OnOk};
ghost use Rattle.tile_import.specs.Common.{IsOpen, ReadsOnly};
ghost use Rattle.tile_import.specs.Import.{ReadCauses, reads_at_most};
ghost use Rattle.tile_import.specs.Refusals.{Reads};
ghost use Rattle.tile_import.specs.Walked.{IsWalked};

use crate::ImportError;
use crate::reading::{of_reader, take_opened};
use base_values::OutOfMemory;
use bytes::Bytes;
use pm_format::{Backend, DirEntry};
use pm_reader::ReaderState;
use pm_walk::TakesEntries;
use std::alloc::Global;

// Tile entries, as a list.
#[derive(Drop)]
struct EntryList {
    entries: Vec<DirEntry>,
}

impl TakesEntries for EntryList {
    ghost use Rattle.std.specs.Prelude.{◌≡◌};

    ghost holds = { λ t es cs. t.entries.items ≡ es };

    fn take_entry(&mut self, entry: DirEntry, contents: Bytes) -> Result<(), OutOfMemory> {
        let _ = contents;
        self.entries.push(entry)?;
        Ok(())
    }
}

// No entry yet.
fn no_entries(alloc: Global) -> EntryList
    ensures { result.entries.items ≡ [] }
{
    EntryList {
        entries: Vec::new(alloc),
    }
}

/// Opens an archive and walks all of it, as `import` does, and gives what reads it with its tile entries of at least
/// one byte, in order of their ids: offsets count from the data part, lengths are bytes. All tests of an import into an
/// empty flat set are made; the contents of each entry are read, which is the test of their range, and let go.
///
/// The refusals of the archive are those of `import`, in its order. The archive is read once to open it, and once for
/// each leaf and each tile entry. `Archive(Reading(Fault))` comes only where the backend's count of faults rose, and
/// `Store` never.
pub fn walk_archive<B: Backend>(
    alloc: Global,
    backend: &mut B,
    max_tiles: u64,
) -> Result<(ReaderState, Vec<DirEntry>), ImportError>
    ensures open { IfOk result (λ w. IsOpen (B.told backend.old) w.0) }
    ensures walked { IfOk result (λ w. IsWalked (B.told backend.old) max_tiles w.0 w.1.items) }
    ensures refused { IfSome (B.told backend.old)
        (λ b. IfErr result (λ e. Reads max_tiles b (Err e))) }
    ensures causes { IfErr result (ReadCauses max_tiles (B.faults backend.old)
        (B.faults backend.new)) }
    ensures kept { ReadsOnly B.told B.versions B.faults B.steady backend.old backend.new }
    ensures still { OnOk result (B.faults backend.new ≡ B.faults backend.old) }
    ensures reads { IfSome (B.told backend.old) (λ b. B.reads backend.new
        ≤ B.reads backend.old + reads_at_most b) }
{
    let reader = match ReaderState::open(alloc, backend) {
        Ok(reader) => reader,
        Err(error) => return Err(of_reader(error)),
    };
    match take_opened(&reader, backend, no_entries(alloc), max_tiles) {
        Ok(list) => Ok((reader, list.entries)),
        Err(error) => Err(error),
    }
}
