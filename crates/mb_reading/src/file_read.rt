// A file that is opened for reading alone. The database is read where it lies; the log beside it is copied into memory,
// since opening a database may write the log.
use crate::read_only::ReadOnly;
use crate::stamps::{Paths, Stamp, Stamps, stamps_of, test_journal, test_still};
use crate::{BesideFile, DiskFile, ReadError};
use sqlite::Files;
use sqlite_disk::{Disk, Memory};
use std::alloc::Global;
use std::fs::File;
use std::hash::{BuildHasher, RandomState};
use std::io::{ErrorKind, Read};
use std::os::unix::fs::FileExt;

// A shorter file is copied into memory: opening an empty file, or one that SQLite has just begun, writes it.
const LEAST_ON_DISK: u64 = 65_536;

// The first bytes of a database.
const HEAD: &[u8; 16] = b"SQLite format 3\0";

// How many bytes of pages that were read are kept in memory.
const CACHE: usize = 8_388_608;

/// A file as `sqlite` reads it, and its log.
pub type FilesToRead = Files<DiskFile<Memory>>;

// Puts bytes into a file in memory.
fn put(memory: &mut Memory, at: usize, piece: &[u8]) -> Result<(), ReadError> {
    if !memory.may_be_used() {
        return Err(ReadError::OutOfMemory);
    }
    match memory.write_at(at, piece) {
        Ok(()) => Ok(()),
        Err(_) => Err(ReadError::OutOfMemory),
    }
}

// The bytes of a file as a disk in memory.
fn copy(alloc: Global, file: &mut File, length: u64) -> Result<DiskFile<Memory>, ReadError> {
    let mut held = Vec::with_capacity(alloc, length as usize)?;
    match file.read_to_end(&mut held) {
        Ok(_) => {}
        Err(error) if error.kind() == ErrorKind::OutOfMemory => return Err(ReadError::OutOfMemory),
        Err(_) => return Err(ReadError::Unread),
    }
    let mut memory = Memory::new(alloc);
    put(&mut memory, 0, held.as_slice())?;
    Ok(DiskFile::InMemory(memory))
}

// The test that a file that was opened is the one that was found by its path.
fn test_opened(file: &File, stamp: Stamp) -> Result<(), ReadError> {
    match file.metadata() {
        Ok(found) if Stamp::of(&found).is_of_file(stamp) => Ok(()),
        Ok(_) => Err(ReadError::Changed),
        Err(_) => Err(ReadError::Unread),
    }
}

// The test that a file is empty or begins as each database of SQLite.
fn test_head(file: &File, stamp: Stamp) -> Result<(), ReadError> {
    if stamp.length == 0 {
        return Ok(());
    }
    let mut head = [0u8; 16];
    match file.read_at(&mut head, 0) {
        Ok(16) if head == *HEAD => Ok(()),
        Ok(_) => Err(ReadError::NotADatabase),
        Err(_) => Err(ReadError::Unread),
    }
}

// A file to read, whose digests are taken under a key, and how many pages are to be kept of it. A short
// one is copied into memory.
fn db_of(
    rt: &HostRuntime,
    path: &str,
    stamp: Stamp,
    key: u64,
) -> Result<(DiskFile<Memory>, usize), ReadError> {
    let Ok(mut file) = File::open(rt, path) else {
        return Err(ReadError::Unread);
    };
    test_opened(&file, stamp)?;
    test_head(&file, stamp)?;
    let pages = cache_pages(&file);
    if stamp.length >= LEAST_ON_DISK {
        return Ok((DiskFile::OnDisk(ReadOnly::new(file, key)), pages));
    }
    Ok((copy(rt.alloc(), &mut file, stamp.length)?, pages))
}

// The log, without bytes where there is none.
fn log_of(
    rt: &HostRuntime,
    path: &str,
    stamp: Option<Stamp>,
) -> Result<DiskFile<Memory>, ReadError> {
    let Some(stamp) = stamp else {
        return Ok(DiskFile::InMemory(Memory::new(rt.alloc())));
    };
    let file = BesideFile::Log;
    let Ok(mut log) = File::open(rt, path) else {
        return Err(ReadError::Beside { file });
    };
    match copy(rt.alloc(), &mut log, stamp.length) {
        Err(ReadError::Unread) => Err(ReadError::Beside { file }),
        copied => copied,
    }
}

// How many pages the cache has room for, by the page size that a file's header names, where 1 is 65,536.
fn cache_pages(file: &File) -> usize {
    let mut field = [0u8; 2];
    let named = match file.read_at(&mut field, 16) {
        Ok(2) => u16::from_be_bytes(field) as usize,
        _ => 1,
    };
    if named < 512 {
        CACHE / 65_536
    } else {
        CACHE / named
    }
}

// A file and its log, under a key of digests that is drawn at random, and how many pages are to be kept of it.
fn files_to_read(
    rt: &HostRuntime,
    paths: &Paths,
    before: Stamps,
) -> Result<(FilesToRead, usize), ReadError> {
    let Ok(random) = RandomState::new(rt) else {
        return Err(ReadError::Unread);
    };
    let (db, pages) = db_of(rt, paths.file.as_str(), before.file, random.hash_one(&0u8))?;
    test_journal(rt, paths)?;
    let log = log_of(rt, paths.log.as_str(), before.log)?;
    Ok((Files { log, db }, pages))
}

/// A file that is opened for reading alone, and how it stood when it was opened.
#[derive(Drop)]
pub struct FileRead {
    paths: Paths,
    before: Stamps,
}

impl FileRead {
    /// Opens a file for reading alone: the file and its log, and how many of its pages are to be kept in memory. Its
    /// links are followed first, as SQLite follows them, and the log and the rollback journal are those beside the
    /// file that the path leads to. Nothing is written to it or beside it, and no lock is taken; a short file, and the
    /// log, are copied into memory.
    ///
    /// `Missing` where there is no such file; `NotRegular` where it isn't a regular one, which isn't opened;
    /// `Unnamed` where its links lead to no name of it; `Unread` where it can't be read; `NotADatabase` where it
    /// isn't empty and doesn't begin as a database of SQLite; `Beside` where a log or a rollback journal is there and
    /// can't be read; `Unfinished` where a rollback journal stands beside it; `Changed` where the file that is opened
    /// is another one than the path led to.
    pub fn open(rt: &HostRuntime, path: &str) -> Result<(FileRead, FilesToRead, usize), ReadError> {
        let paths = Paths::new(rt, path)?;
        let before = stamps_of(rt, &paths)?;
        let (files, pages) = files_to_read(rt, &paths, before)?;
        Ok((FileRead { paths, before }, files, pages))
    }

    /// The test that neither the file nor its log changed since, and that no rollback journal stands beside it:
    /// `Changed`, `Unfinished`, or the refusal of what can't be read now.
    pub fn test_still(&self, rt: &HostRuntime) -> Result<(), ReadError> {
        test_still(rt, &self.paths, self.before)
    }
}
