// A database file or its log as `sqlite` calls it: a file that is only read, or another disk.
ghost use Rattle.std.specs.Prelude.{false};
ghost use Rattle.mb_reading.specs.DiskFile.{fair_when_clean, faults_of, is_clean_of, is_fair_of, is_usable_of, key_of, may_leave_of, seen_of, seen_stays, tally_of};

use crate::read_only::ReadOnly;
use sqlite_disk::{Disk, Tally};
use std::io::{self, ErrorKind};

/// Where the bytes are.
#[derive(Drop)]
pub enum DiskFile<D: Disk> {
    /// In a file, which no call writes.
    OnDisk(ReadOnly),
    /// On another disk, where they can be written.
    InMemory(D),
}

#[tactic(auto, using(crate::proofs::DiskLemmas::torn_nothing, crate::proofs::DiskLemmas::torn_follows, crate::proofs::DiskLemmas::cut_nothing, crate::proofs::DiskLemmas::cut_follows))]
impl<D: Disk> Disk for DiskFile<D> {
    ghost seen = { seen_of D.Disk.seen };

    ghost may_leave = { may_leave_of D.Disk.may_leave };

    ghost is_usable = { is_usable_of D.Disk.is_usable };

    ghost faults = { faults_of D.Disk.faults };

    ghost tally_of = { tally_of D.Disk.tally_of };

    ghost is_clean = { is_clean_of D.Disk.is_clean };

    ghost key_of = { key_of D.Disk.key_of };

    ghost is_fair = { is_fair_of D.Disk.is_fair };

    ghost fair_if_clean = { fair_when_clean D.Disk.is_clean D.Disk.is_fair D.Disk.fair_if_clean };

    ghost seen_may_stay = { seen_stays D.Disk.seen D.Disk.may_leave D.Disk.seen_may_stay };

    fn mixes(&self) -> bool {
        false
    }

    fn key(&self) -> u64 {
        match self {
            DiskFile::OnDisk(file) => file.key(),
            DiskFile::InMemory(disk) => disk.key(),
        }
    }

    fn tally(&self) -> Tally {
        match self {
            DiskFile::OnDisk(file) => Tally {
                caught: file.caught(),
                refused: 0,
            },
            DiskFile::InMemory(disk) => disk.tally(),
        }
    }

    fn may_be_used(&self) -> bool {
        match self {
            DiskFile::OnDisk(_) => true,
            DiskFile::InMemory(disk) => disk.may_be_used(),
        }
    }

    fn len(&mut self) -> io::Result<usize> {
        match self {
            DiskFile::OnDisk(file) => file.len(),
            DiskFile::InMemory(disk) => disk.len(),
        }
    }

    fn read_at(&mut self, at: usize, buf: &mut [u8]) -> io::Result<()> {
        match self {
            DiskFile::OnDisk(file) => file.read_at(at, buf),
            DiskFile::InMemory(disk) => disk.read_at(at, buf),
        }
    }

    fn read_checked(&mut self, key: u64, want: u64, at: usize, buf: &mut [u8]) -> io::Result<()> {
        match self {
            DiskFile::OnDisk(file) => file.read_checked(key, want, at, buf),
            DiskFile::InMemory(disk) => disk.read_checked(key, want, at, buf),
        }
    }

    fn write_at(&mut self, at: usize, bytes: &[u8]) -> io::Result<()> {
        match self {
            DiskFile::OnDisk(file) => {
                file.fail();
                Err(ErrorKind::ReadOnlyFilesystem.into())
            }
            DiskFile::InMemory(disk) => disk.write_at(at, bytes),
        }
    }

    fn set_len(&mut self, len: usize) -> io::Result<()> {
        match self {
            DiskFile::OnDisk(file) => {
                file.fail();
                Err(ErrorKind::ReadOnlyFilesystem.into())
            }
            DiskFile::InMemory(disk) => disk.set_len(len),
        }
    }

    // Nothing that was written to a file waits, since none is.
    fn sync(&mut self) -> io::Result<()> {
        match self {
            DiskFile::OnDisk(_) => Ok(()),
            DiskFile::InMemory(disk) => disk.sync(),
        }
    }
}
