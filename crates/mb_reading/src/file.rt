// The set of a file that is opened for reading alone.
ghost use Rattle.std.specs.Prelude.{IfOk};
ghost use Rattle.mb_reading.specs.Filling.{IsSet, NeverFails, read_of};

use crate::file_read::FilesToRead;
use crate::{DiskFile, FileRead, ReadError, SetRead, read_set};
use sqlite::{Connection, Error, ErrorCode, FileStore, Options};
use sqlite_disk::{Disk, Memory};
use std::alloc::Global;

// A connection over a file and its log.
fn open(
    alloc: Global,
    files: FilesToRead,
    cache_pages: usize,
) -> Result<Connection<FileStore<DiskFile<Memory>>>, ReadError> {
    if !files.log.may_be_used() || !files.db.may_be_used() {
        return Err(ReadError::OutOfMemory);
    }
    let options = Options {
        cache_pages,
        ..Options::new(0)
    };
    match Connection::open_files(alloc, files, options) {
        Ok(connection) => Ok(connection),
        Err((Error::SqliteFailure(ErrorCode::OutOfMemory), _)) => Err(ReadError::OutOfMemory),
        Err((error, _)) => Err(ReadError::Unopened(error)),
    }
}

// Reads the set of a file and its log, whether or not they change meanwhile.
fn read_files(alloc: Global, files: FilesToRead, cache_pages: usize) -> Result<SetRead, ReadError>
    ensures told { IfOk result (λ set. IsSet (read_of set)) }
    ensures unfailing { IfOk result (λ set. NeverFails set.store) }
{
    let mut connection = open(alloc, files, cache_pages)?;
    read_set(alloc, &mut connection)
}

/// Reads the set of a file into a store in memory. The file is opened for reading alone, and nothing is
/// written to it or beside it: the database is read where it lies, without a lock, and the log of SQLite
/// beside it is copied into memory.
///
/// Links are followed first, as SQLite follows them, and the log and the rollback journal are those beside the
/// file that the path leads to.
///
/// `Missing` where there is no such file; `NotRegular` where it isn't a regular one, which isn't opened; `Unnamed`
/// where its links lead to no name of it; `Unread` where it can't be read; `NotADatabase` where it isn't empty and
/// doesn't begin as a database of SQLite; `Beside` where a log or a rollback journal is there and can't be read;
/// `Unfinished` where a rollback journal stands beside it before or after; `Changed` where the file or its log is
/// another one after the reading than before; `Unopened` with the cause where it is no database that is understood; and
/// the refusals of `read_set`. A file that changed is told as `Changed`, whatever else was met.
pub fn read_file(rt: &HostRuntime, path: &str) -> Result<SetRead, ReadError>
    ensures told { IfOk result (λ set. IsSet (read_of set)) }
    ensures unfailing { IfOk result (λ set. NeverFails set.store) }
{
    let (file, files, pages) = FileRead::open(rt, path)?;
    let answer = read_files(rt.alloc(), files, pages);
    file.test_still(rt)?;
    answer
}
