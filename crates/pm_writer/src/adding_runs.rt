// Adds a run of equal tiles to an archive that is begun.
ghost use Rattle.std.specs.Prelude.{◌≡◌, ◌≤◌, ◌<◌, ◌+◌, ◌^◌, ℕ, List, [], ◌∷◌, ◌++◌, false, length, None, Err, IfOk, IfErr, OnOk, IsTrue, IsFalse};
ghost use Rattle.pm_writer.specs.Common.{FoundAs, IsSought, KeepsMedium, MAX_TILE_ID, Options, piece_sought, place_sought, ReadsOnly, xxh3_64, FaultsStand};
ghost use Rattle.pm_writer.specs.Adding.{IsQuiet, IsRunAdded, IsRunCaused, IsUnadded, TakenFor, WhereWrites, WritesSome};
ghost use Rattle.pm_format.specs.declared.compression.Compression.TheVariants as compression;
ghost use Rattle.pm_writer.specs.Causes.{AddCauses, failed_after};
ghost use Rattle.pm_writer.specs.Adds.{contents_from};
ghost use Rattle.pm_writer.specs.Growing.{with_run};
ghost use Rattle.pm_writer.specs.Pieces.{PutCauses};
ghost use Rattle.pm_writer.specs.Took.{Took};
ghost use Rattle.pm_writer.specs.Writing.{FilledFits, Writes, has_failed, run_size};

use crate::WriterState;
use pm_contents::Sought;
use pm_format::{Medium, PmtError, PmtResult, ReadCause, WriteFault};

impl WriterState {
    // Whether sought bytes can be added: known ones, and new ones that don't end past u64.
    fn fits(&self, size: u32, sought: &Sought) -> bool
        requires { self.now.data_offset + self.now.adds.contents.total < 2 ^ 64 }
        ensures yes { IsTrue result → (x : List ℕ) → length x ≡ size
            → self.now.data_offset + self.now.adds.contents.total
            + length (piece_sought sought.now x) < 2 ^ 64 }
        ensures no { IsFalse result
            → (place_sought sought.now ≡ None)
            × (2 ^ 64 ≤ self.now.data_offset + self.now.adds.contents.total + size) }
    {
        let end = self.data_offset + self.adds.total();
        !sought.is_new() || u64::from(size) <= u64::MAX - end
    }

    // What bytes of this digest are found as. After a fault the writer has failed.
    fn seek<M: Medium>(&mut self, medium: &mut M, digest: u64, bytes: &[u8]) -> PmtResult<Sought>
        requires digest { digest ≡ xxh3_64 bytes.now }
        requires alive { has_failed self.old ≡ false }
        requires some { 0 < length bytes.now }
        requires writes { WritesSome (M.told medium.old) self.old }
        ensures found { WhereWrites (M.told medium.old) self.old (λ o adds. IfOk result
            (λ s. TakenFor M.told M.reads medium.old medium.new bytes.now
            (FoundAs xxh3_64 self.new.adds.contents (contents_from [] adds) bytes.now s))) }
        ensures sought { IfOk result (IsSought xxh3_64 self.new.adds.contents bytes.now) }
        ensures quiet { IsQuiet M.told M.reads medium.old medium.new self.old bytes.now }
        ensures same { WhereWrites (M.told medium.old) self.old
            (λ o adds. Writes o (M.told medium.new) self.new adds) }
        ensures causes { IfErr result
            (λ e. PutCauses (M.faults medium.old) (M.faults medium.new) (Err e)) }
        ensures still { FaultsStand (M.faults medium.old) (M.faults medium.new) result }
        ensures alive { OnOk result (has_failed self.new ≡ false) }
        ensures failed { IfErr result (λ e. has_failed self.new ≡ failed_after false (Err e)) }
        ensures counted { M.reads medium.old ≤ M.reads medium.new }
        ensures reads { M.reads medium.new ≤ M.reads medium.old + 1 }
        ensures kept { ReadsOnly M.told M.versions M.faults M.steady medium.old medium.new }
    {
        match self
            .adds
            .seek(self.alloc, medium, self.data_offset, digest, bytes)
        {
            Ok(sought) => Ok(sought),
            Err(WriteFault::OutOfMemory) => Err(PmtError::OutOfMemory),
            Err(WriteFault::Fault) => {
                self.failed = true;
                Err(PmtError::Reading(ReadCause::Fault))
            }
        }
    }

    // Adds bytes that were sought at each id of a run. After a fault the writer has failed.
    fn add_sought<M: Medium>(
        &mut self,
        medium: &mut M,
        id: u64,
        count: u32,
        bytes: &[u8],
        size: u32,
        sought: Sought,
    ) -> PmtResult<()>
        requires alive { has_failed self.old ≡ false }
        requires counted { 0 < count }
        requires id { id + count ≤ MAX_TILE_ID + 1 }
        requires some { 0 < length bytes.now }
        requires size { size ≡ length bytes.now }
        requires sought { IsSought xxh3_64 self.old.adds.contents bytes.now sought }
        requires fits { self.old.data_offset + self.old.adds.contents.total
            + length (piece_sought sought bytes.now) < 2 ^ 64 }
        requires writes { WritesSome (M.told medium.old) self.old }
        ensures added { (o : Options) (adds : List (ℕ × List ℕ)) (taken : List ℕ)
            → Writes o (M.told medium.old) self.old adds → Took (M.told medium.old) bytes.now taken
            → FoundAs xxh3_64 self.old.adds.contents (contents_from [] adds) bytes.now sought taken
            → OnOk result
            (FilledFits o adds id taken
            × Writes o (M.told medium.new) self.new (with_run adds id count taken)) }
        ensures refused { IsUnadded M.told medium.old medium.new self.old self.new result }
        ensures causes { PutCauses (M.faults medium.old) (M.faults medium.new) result }
        ensures still { FaultsStand (M.faults medium.old) (M.faults medium.new) result }
        ensures failed { has_failed self.new ≡ failed_after false result }
        ensures reads { M.reads medium.new ≡ M.reads medium.old }
        ensures kept { KeepsMedium M.told M.versions M.reads M.faults M.steady
            medium.old medium.new }
    {
        match self
            .adds
            .add(medium, self.data_offset, id, count, bytes, size, sought)
        {
            Ok(()) => Ok(()),
            Err(WriteFault::OutOfMemory) => Err(PmtError::OutOfMemory),
            Err(WriteFault::Fault) => {
                self.failed = true;
                Err(PmtError::Reading(ReadCause::Fault))
            }
        }
    }

    // Adds bytes of this digest, of which there is at least one, at each id of a run of at least one.
    fn add_filled<M: Medium>(
        &mut self,
        medium: &mut M,
        id: u64,
        count: u32,
        digest: u64,
        bytes: &[u8],
    ) -> PmtResult<()>
        requires digest { digest ≡ xxh3_64 bytes.now }
        requires alive { has_failed self.old ≡ false }
        requires counted { 0 < count }
        requires id { id + count ≤ MAX_TILE_ID + 1 }
        requires some { 0 < length bytes.now }
        requires writes { WritesSome (M.told medium.old) self.old }
        ensures added { WhereWrites (M.told medium.old) self.old (λ o adds. OnOk result
            (TakenFor M.told M.reads medium.old medium.new bytes.now
            (λ taken. Writes o (M.told medium.new) self.new (with_run adds id count taken)))) }
        ensures refused { IsUnadded M.told medium.old medium.new self.old self.new result }
        ensures causes { WhereWrites (M.told medium.old) self.old (λ o adds.
            TakenFor M.told M.reads medium.old medium.new bytes.now
            (λ taken. AddCauses compression.None false (length bytes.now)
            (FilledFits o adds id taken) (M.faults medium.old) (M.faults medium.new) result)) }
        ensures still { FaultsStand (M.faults medium.old) (M.faults medium.new) result }
        ensures failed { has_failed self.new ≡ failed_after false result }
        ensures reads { M.reads medium.new ≤ M.reads medium.old + 1 }
        ensures quiet { IsQuiet M.told M.reads medium.old medium.new self.old bytes.now }
        ensures kept { KeepsMedium M.told M.versions M.reads M.faults M.steady
            medium.old medium.new }
    {
        let Ok(size) = u32::try_from(bytes.len()) else {
            return Err(PmtError::IndexEntryOverflow);
        };
        let sought = self.seek(medium, digest, bytes)?;
        if !self.fits(size, &sought) {
            return Err(PmtError::IndexEntryOverflow);
        }
        self.add_sought(medium, id, count, bytes, size, sought)
    }

    /// Adds the bytes of `count` equal tiles with ids in a row as they are, for a caller that has their XXH3 digest:
    /// after Ok the writer means what it would mean after an `add_raw_tile_with_digest` of each id in turn, all of them
    /// with what the data is taken for. `first` is the least id, and the last one is the id of a tile. The data is
    /// compared once, by at most one read, and stored once where it is new, and at most one entry is added, whatever
    /// `count` is. Where it is 0, or the data is empty, nothing changes.
    ///
    /// The answers are those of one add, and come as `add_raw_tile_by_id` says: a run fits where its first id does. An
    /// error adds none of the ids.
    pub fn add_raw_run_with_digest<M: Medium>(
        &mut self,
        medium: &mut M,
        first: u64,
        count: u32,
        digest: u64,
        bytes: &[u8],
    ) -> PmtResult<()>
        requires within { first + count ≤ MAX_TILE_ID + 1 }
        requires digest { digest ≡ xxh3_64 bytes.now }
        requires writes { WritesSome (M.told medium.old) self.old }
        ensures writes { WritesSome (M.told medium.new) self.new }
        ensures added { IsRunAdded M.told M.reads medium.old medium.new self.old self.new
            first count bytes.now result }
        ensures refused { IsUnadded M.told medium.old medium.new self.old self.new result }
        ensures causes { IsRunCaused M.told M.reads M.faults medium.old medium.new self.old
            first count bytes.now result }
        ensures still { FaultsStand (M.faults medium.old) (M.faults medium.new) result }
        ensures empty { run_size count (length bytes.now) ≡ 0
            → (self.new ≡ self.old) × (medium.new ≡ medium.old) }
        ensures failed { has_failed self.new ≡ failed_after (has_failed self.old) result }
        ensures reads { M.reads medium.new ≤ M.reads medium.old + 1 }
        ensures quiet { IsQuiet M.told M.reads medium.old medium.new self.old bytes.now }
        ensures kept { KeepsMedium M.told M.versions M.reads M.faults M.steady
            medium.old medium.new }
    {
        if self.failed {
            return Err(PmtError::Failed);
        }
        if count == 0 || bytes.is_empty() {
            return Ok(());
        }
        self.add_filled(medium, first, count, digest, bytes)
    }
}
