// The end of an archive: its directories and its header.
ghost use Rattle.std.specs.Prelude.{◌≡◌, ◌<◌, ◌^◌, ℕ, List, sum_by, IfSome, IfOk, OnOk};
ghost use Rattle.pm_writer.specs.Common.{KeepsMedium, Options, FaultsStand};
ghost use Rattle.pm_writer.specs.Adding.{WhereWrites, WritesSome};
ghost use Rattle.pm_writer.specs.Archive.{archive};
ghost use Rattle.pm_writer.specs.Causes.{AssembleCauses, FinishCauses};
ghost use Rattle.pm_writer.specs.Finishing.{IsAssembled};
ghost use Rattle.pm_writer.specs.Pieces.{IsHiddenOr};
ghost use Rattle.pm_writer.specs.Places.{places_of};
ghost use Rattle.pm_writer.specs.Writing.{IsStateOf, has_failed};

use crate::cutting::Directories;
use crate::pieces::write_parts;
use crate::state::ROOT_END;
use crate::{ArchivePlaces, WriterState};
use pm_format::{DirEntry, Header, Medium, PmtError, PmtResult};

/// What is written behind the contents and in front of them, the places of all parts, and where the contents end.
#[derive(Drop)]
pub(crate) struct Assembled {
    pub(crate) directories: Directories,
    pub(crate) header: Header,
    pub(crate) places: ArchivePlaces,
    pub(crate) end: u64,
}

// How many ids the runs have together.
fn addressed_tiles(entries: &[DirEntry]) -> u64
    requires { sum_by (λ e. e.run_length) entries.now < 2 ^ 64 }
    ensures { result ≡ sum_by (λ e. e.run_length) entries.now }
{
    let mut count = 0;
    for entry in entries {
        count += u64::from(entry.run_length());
    }
    count
}

impl WriterState {
    // The parts of the archive of the adds. The first of these that holds is answered: `OverlappingEntries` with the
    // least id that has two adds, exactly where there is one; `IndexEntryOverflow` exactly where a directory has 2^32
    // bytes or more, or the archive would end past u64; `OutOfMemory`.
    fn assemble(self) -> PmtResult<Assembled>
        requires { (o : Options) × (adds : List (ℕ × List ℕ)) × IsStateOf o self adds }
        ensures is { (o : Options) (adds : List (ℕ × List ℕ)) → IsStateOf o self adds
            → IfOk result (λ a. IsAssembled o adds a) }
        ensures causes { (o : Options) (adds : List (ℕ × List ℕ)) → IsStateOf o self adds
            → AssembleCauses o adds result }
    {
        let data_length = self.adds.total();
        let contents = self.adds.count();
        let clustered = self.adds.rises();
        let WriterState {
            alloc,
            settings,
            data_offset,
            adds,
            failed: _,
        } = self;
        let entries = match adds.into_entries() {
            Ok(entries) => entries,
            Err(id) => return Err(PmtError::OverlappingEntries(id)),
        };
        let addressed = addressed_tiles(&entries);
        let count = entries.len() as u64;
        let directories = match Directories::build(alloc, entries, settings.max_leaf_entries) {
            Ok(directories) => directories,
            Err(error) => return Err(error),
        };
        let end = data_offset + data_length;
        if u64::MAX - end < directories.below.len() as u64 {
            return Err(PmtError::IndexEntryOverflow);
        }
        let places = ArchivePlaces::of(
            &directories,
            data_offset,
            data_length,
            addressed,
            count,
            contents,
        );
        let header = places.header(settings, data_offset - ROOT_END, clustered);
        Ok(Assembled {
            directories,
            header,
            places,
            end,
        })
    }

    /// Finishes the archive: the leaves behind the contents, the upper directories behind these, the root at 127, the
    /// header at 0 with its label of directories left out, and last this label. The medium then holds the one archive
    /// of the adds, and the places are its own.
    ///
    /// The first of these that holds is answered: `Failed` exactly after an earlier fault of the medium in this writer;
    /// `OverlappingEntries` with the least id that has two non-empty adds, exactly where there is one;
    /// `IndexEntryOverflow` exactly where a directory has 2^32 bytes or more, or the archive would end past u64;
    /// `Reading(Fault)` only where the medium's count of faults rose; `OutOfMemory`. After each of them byte 97 of the
    /// medium, the label of directories, is 0, or the whole archive stands.
    pub fn finalize<M: Medium>(self, medium: &mut M) -> PmtResult<ArchivePlaces>
        requires writes { WritesSome (M.told medium.old) self }
        ensures bytes { WhereWrites (M.told medium.old) self
            (λ o adds. OnOk result (IfSome (M.told medium.new) (λ b. b ≡ archive o adds))) }
        ensures places { WhereWrites (M.told medium.old) self
            (λ o adds. IfOk result (λ p. p ≡ places_of o adds)) }
        ensures shown { WhereWrites (M.told medium.old) self
            (λ o adds. IfSome (M.told medium.new) (IsHiddenOr (archive o adds))) }
        ensures causes { WhereWrites (M.told medium.old) self (λ o adds. FinishCauses o adds
            (has_failed self) (M.faults medium.old) (M.faults medium.new) result) }
        ensures still { FaultsStand (M.faults medium.old) (M.faults medium.new) result }
        ensures reads { M.reads medium.new ≡ M.reads medium.old }
        ensures kept { KeepsMedium M.told M.versions M.reads M.faults M.steady
            medium.old medium.new }
    {
        if self.failed {
            return Err(PmtError::Failed);
        }
        let parts = match self.assemble() {
            Ok(parts) => parts,
            Err(error) => return Err(error),
        };
        let header = parts.header.write_bytes();
        let directories = &parts.directories;
        match write_parts(
            medium,
            parts.end,
            &directories.below,
            &directories.root,
            &header,
        ) {
            Ok(()) => Ok(parts.places),
            Err(error) => Err(error),
        }
    }
}
