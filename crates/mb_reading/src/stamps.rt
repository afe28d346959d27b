// Whether a file and what SQLite writes beside it stand as they stood.
use crate::{BesideFile, ReadError};
use std::alloc::Global;
use std::fs::{File, Metadata};
use std::io::{ErrorKind, Read};
use std::os::unix::fs::MetadataExt;
use std::{fs, io};

// The paths of a file, and of the log and the rollback journal beside it. SQLite follows links first and makes these
// names of the path that it comes to.
#[derive(Drop)]
pub(crate) struct Paths {
    pub(crate) file: String,
    pub(crate) log: String,
    pub(crate) journal: String,
}

// A path with letters behind it.
fn beside(alloc: Global, path: &str, letters: &str) -> Result<String, ReadError> {
    let mut name = String::from_str(alloc, path)?;
    name.push_str(letters)?;
    Ok(name)
}

// The path that a path comes to by its links. One that is there, and comes to none, leads to a file without a name.
fn resolved(rt: &HostRuntime, path: &str) -> Result<String, ReadError> {
    match fs::canonicalize(rt, path) {
        Ok(found) => Ok(found.into_string()),
        Err(error) if error.kind() == ErrorKind::OutOfMemory => Err(ReadError::OutOfMemory),
        Err(_) => Err(ReadError::Unnamed),
    }
}

// What tells two states of a file apart: which file it is, its length, and when it was last changed.
#[derive(Clone, Copy, Debug, PartialEq, Eq)]
pub(crate) struct Stamp {
    device: u64,
    node: u64,
    pub(crate) length: u64,
    seconds: i64,
    nanoseconds: i64,
}

impl Stamp {
    pub(crate) fn of(found: &Metadata) -> Stamp {
        Stamp {
            device: found.dev(),
            node: found.ino(),
            length: found.len(),
            seconds: found.mtime(),
            nanoseconds: found.mtime_nsec(),
        }
    }

    // Whether it is of the file that another one is of.
    pub(crate) fn is_of_file(self, other: Stamp) -> bool {
        self.device == other.device && self.node == other.node
    }
}

// What is at a path: a regular file, nothing, something else, or it can't be told.
enum At {
    File(Stamp),
    Nothing,
    Other,
    Untold,
}

fn at_path(found: io::Result<Metadata>) -> Result<At, ReadError> {
    match found {
        Ok(found) if found.is_file() => Ok(At::File(Stamp::of(&found))),
        Ok(_) => Ok(At::Other),
        Err(error) => match error.kind() {
            ErrorKind::NotFound => Ok(At::Nothing),
            ErrorKind::OutOfMemory => Err(ReadError::OutOfMemory),
            _ => Ok(At::Untold),
        },
    }
}

// The state of a regular file.
fn stamp_of(rt: &HostRuntime, path: &str) -> Result<Stamp, ReadError> {
    match at_path(fs::metadata(rt, path))? {
        At::File(stamp) => Ok(stamp),
        At::Nothing => Err(ReadError::Missing),
        At::Other => Err(ReadError::NotRegular),
        At::Untold => Err(ReadError::Unread),
    }
}

// The state of a file beside another one, None where there is nothing.
fn stamp_beside(
    rt: &HostRuntime,
    path: &str,
    file: BesideFile,
) -> Result<Option<Stamp>, ReadError> {
    match at_path(fs::metadata(rt, path))? {
        At::File(stamp) => Ok(Some(stamp)),
        At::Nothing => Ok(None),
        At::Other | At::Untold => Err(ReadError::Beside { file }),
    }
}

impl Paths {
    // The paths of the file that a path leads to. What isn't a regular file isn't opened, and the path that the links
    // come to has to lead to the same file.
    pub(crate) fn new(rt: &HostRuntime, path: &str) -> Result<Paths, ReadError> {
        let given = stamp_of(rt, path)?;
        let name = resolved(rt, path)?;
        match stamp_of(rt, name.as_str()) {
            Ok(named) if named.is_of_file(given) => {}
            Err(ReadError::OutOfMemory) => return Err(ReadError::OutOfMemory),
            _ => return Err(ReadError::Unnamed),
        }
        Ok(Paths {
            file: beside(rt.alloc(), name.as_str(), "")?,
            log: beside(rt.alloc(), name.as_str(), "-wal")?,
            journal: beside(rt.alloc(), name.as_str(), "-journal")?,
        })
    }
}

// The states of a file and its log.
#[derive(Clone, Copy, Debug, PartialEq, Eq)]
pub(crate) struct Stamps {
    pub(crate) file: Stamp,
    pub(crate) log: Option<Stamp>,
}

pub(crate) fn stamps_of(rt: &HostRuntime, paths: &Paths) -> Result<Stamps, ReadError> {
    Ok(Stamps {
        file: stamp_of(rt, paths.file.as_str())?,
        log: stamp_beside(rt, paths.log.as_str(), BesideFile::Log)?,
    })
}

// The first byte of a journal, None where it is empty.
fn first_byte(rt: &HostRuntime, path: &str) -> io::Result<Option<u8>> {
    let mut journal = File::open(rt, path)?;
    let mut first = [0u8; 1];
    match journal.read(&mut first)? {
        1 => Ok(Some(first[0])),
        _ => Ok(None),
    }
}

// The test that no rollback journal stands beside a file: one that is empty or begins with a zero
// has nothing to play back.
pub(crate) fn test_journal(rt: &HostRuntime, paths: &Paths) -> Result<(), ReadError> {
    let file = BesideFile::Journal;
    if stamp_beside(rt, paths.journal.as_str(), file)?.is_none() {
        return Ok(());
    }
    match first_byte(rt, paths.journal.as_str()) {
        Ok(Some(first)) if first != 0 => Err(ReadError::Unfinished),
        Ok(_) => Ok(()),
        Err(error) if error.kind() == ErrorKind::NotFound => Ok(()),
        Err(error) if error.kind() == ErrorKind::OutOfMemory => Err(ReadError::OutOfMemory),
        Err(_) => Err(ReadError::Beside { file }),
    }
}

// The test that neither a file nor its log changed since, and that no rollback journal stands beside it.
pub(crate) fn test_still(rt: &HostRuntime, paths: &Paths, before: Stamps) -> Result<(), ReadError> {
    match stamps_of(rt, paths) {
        Ok(after) if after == before => test_journal(rt, paths),
        Ok(_) | Err(ReadError::Missing | ReadError::NotRegular) => Err(ReadError::Changed),
        Err(error) => Err(error),
    }
}
