// A file that is opened for reading alone, and never written.
ghost use Rattle.std.specs.Prelude.{◌≡◌, ◌≤◌, length, IfOk, OnOk};
ghost use Rattle.sqlite_disk.specs.Digest.{digest};
ghost use Rattle.sqlite_disk.specs.Disk.{CountsFault, MoreFaults};
ghost use Rattle.sqlite_disk.specs.Tally.{CountsCatch};
ghost use Rattle.mb_reading.specs.ReadOnly.{counted};

use sqlite_disk::digest_of;
use std::fs::File;
use std::io::{self, ErrorKind};
use std::os::unix::fs::FileExt;

/// A file that is read, with the key under which digests of its pages are taken, how many calls failed, and how many of
/// them found other bytes than before.
#[derive(Drop)]
pub struct ReadOnly {
    file: File,
    key: u64,
    faults: u64,
    caught: u64,
}

// Reads on from a place until the buffer is full or the file at its end, and says how many bytes came.
fn fill(file: &File, at: usize, buffer: &mut [u8]) -> io::Result<usize>
    ensures { IfOk result (λ count. count ≤ length buffer.new) }
{
    let mut got = 0;
    for _ in 0..u64::MAX {
        if got == buffer.len() {
            break;
        }
        match file.read_at(&mut buffer[got..], at.saturating_add(got) as u64) {
            Ok(0) => break,
            Ok(count) => got += count,
            Err(error) => {
                if error.kind() != ErrorKind::Interrupted {
                    return Err(error);
                }
            }
        }
    }
    Ok(got)
}

// Fills a buffer with what lies at a place.
fn fill_whole(file: &File, at: usize, buffer: &mut [u8]) -> io::Result<()> {
    let count = fill(file, at, buffer)?;
    if count == buffer.len() {
        Ok(())
    } else {
        Err(ErrorKind::UnexpectedEof.into())
    }
}

impl ReadOnly {
    // A file of which no call failed.
    pub(crate) fn new(file: File, key: u64) -> ReadOnly {
        ReadOnly {
            file,
            key,
            faults: 0,
            caught: 0,
        }
    }

    pub(crate) fn key(&self) -> u64
        ensures { result ≡ self.now.key }
    {
        self.key
    }

    pub(crate) fn caught(&self) -> u64
        ensures { result ≡ self.now.caught }
    {
        self.caught
    }

    // Counts a call that failed.
    pub(crate) fn fail(&mut self)
        ensures faults { MoreFaults self.old.faults self.new.faults }
        ensures later { self.old.faults ≤ self.new.faults }
        ensures caught { self.new.caught ≡ self.old.caught }
        ensures key { self.new.key ≡ self.old.key }
    {
        self.faults = self.faults.saturating_add(1);
    }

    // How many bytes the file has.
    pub(crate) fn len(&mut self) -> io::Result<usize>
        ensures faults { CountsFault result self.old.faults self.new.faults }
        ensures caught { self.new.caught ≡ self.old.caught }
        ensures key { self.new.key ≡ self.old.key }
    {
        match self.file.metadata() {
            Ok(found) => Ok(found.len() as usize),
            Err(error) => {
                self.fail();
                Err(error)
            }
        }
    }

    // Fills a buffer with what lies at a place.
    pub(crate) fn read_at(&mut self, at: usize, buffer: &mut [u8]) -> io::Result<()>
        ensures faults { CountsFault result self.old.faults self.new.faults }
        ensures caught { self.new.caught ≡ self.old.caught }
        ensures key { self.new.key ≡ self.old.key }
    {
        match fill_whole(&self.file, at, buffer) {
            Ok(()) => Ok(()),
            Err(error) => {
                self.fail();
                Err(error)
            }
        }
    }

    // Fills a buffer with what lies at a place, where that has a digest; bytes of another one are a fault.
    pub(crate) fn read_checked(
        &mut self,
        key: u64,
        want: u64,
        at: usize,
        buffer: &mut [u8],
    ) -> io::Result<()>
        ensures tested { OnOk result (digest key buffer.new ≡ want) }
        ensures faults { CountsFault result self.old.faults self.new.faults }
        ensures caught { CountsCatch result (counted self.old) (counted self.new) }
        ensures key { self.new.key ≡ self.old.key }
    {
        self.read_at(at, buffer)?;
        if digest_of(key, buffer) == want {
            return Ok(());
        }
        self.fail();
        self.caught = self.caught.saturating_add(1);
        Err(ErrorKind::InvalidData.into())
    }
}
