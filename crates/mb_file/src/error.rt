// Why a set isn't opened.
ghost use Rattle.std.specs.Prelude.{◌≡◌};

use base_values::OutOfMemory;
use mb_reading::ReadError;
use mb_tables::TableName;
use std::alloc::{AllocError, AllocFailed};
use thiserror::Error;

/// Why the set of a file isn't opened. The words don't name the file, which the caller knows.
#[derive(Debug, Drop, Error)]
pub enum FileError {
    /// The file can't be opened, or isn't a database.
    #[error("{0}")]
    File(ReadError),
    /// There is no table or view of the name `tiles`, and no tables of a layout.
    #[error("it has no table or view named tiles, and no tables of a tile set; give the file of a tile set")]
    NotASet,
    /// Its texts are in UTF-16.
    #[error("its texts are in UTF-16; copy it by sqlite3 into a database in UTF-8, as by .dump")]
    Encoding,
    /// Its header names a version of the format that isn't known here, or sizes that no page has.
    #[error("its header is that of no database that is read here; copy it by sqlite3, as by .dump")]
    Header,
    /// `tiles` is a view that isn't one of the known forms over the tables of a layout.
    #[error("its view tiles is of no known form; copy the view by sqlite3 into a plain table")]
    View,
    /// The table is a view, or the statement that makes it isn't understood, as with WITHOUT ROWID and a key that isn't
    /// the place, the id or the name.
    #[error("the table {table} is of a form that isn't read here; copy it by sqlite3 into a plain table")]
    Table {
        /// The table.
        table: TableName,
    },
    /// The table lacks a column of its set.
    #[error("the table {table} lacks a column that a tile set has there; add it, or copy the set by sqlite3 into a plain table")]
    Column {
        /// The table.
        table: TableName,
    },
    /// The pages aren't those of a sound database.
    #[error("it is damaged; recover it by sqlite3, as by .recover")]
    Damaged,
    /// A read of the file failed, or a page that was read again had changed.
    #[error("it can't be read, or changed while it was read; try again once no program writes it")]
    Unread,
    /// Memory ran out.
    #[error("out of memory")]
    OutOfMemory,
}

impl From<ReadError> for FileError {
    ghost use Rattle.mb_file.specs.Errors.{of_read};

    ghost from_gives = { λ error e. e ≡ of_read error };

    fn from(error: ReadError) -> Self {
        match error {
            ReadError::OutOfMemory => FileError::OutOfMemory,
            error => FileError::File(error),
        }
    }
}

impl From<sqlite_pages::Error> for FileError {
    ghost use Rattle.mb_file.specs.Errors.{of_pages};

    ghost from_gives = { λ error e. e ≡ of_pages error };

    fn from(error: sqlite_pages::Error) -> Self {
        match error {
            sqlite_pages::Error::OutOfMemory => FileError::OutOfMemory,
            sqlite_pages::Error::Io => FileError::Unread,
            sqlite_pages::Error::Corrupt | sqlite_pages::Error::Full => FileError::Damaged,
        }
    }
}

impl From<OutOfMemory> for FileError {
    ghost use Rattle.mb_file.specs.declared.error.FileError.TheVariants as errors;

    ghost from_gives = { λ _ e. e ≡ errors.OutOfMemory };

    fn from(_: OutOfMemory) -> Self {
        FileError::OutOfMemory
    }
}

impl From<AllocError> for FileError {
    ghost use Rattle.mb_file.specs.declared.error.FileError.TheVariants as errors;

    ghost from_gives = { λ _ e. e ≡ errors.OutOfMemory };

    fn from(_: AllocError) -> Self {
        FileError::OutOfMemory
    }
}

impl<T: Drop> From<AllocFailed<T>> for FileError {
    ghost use Rattle.mb_file.specs.declared.error.FileError.TheVariants as errors;

    ghost from_gives = { λ _ e. e ≡ errors.OutOfMemory };

    fn from(_: AllocFailed<T>) -> Self {
        FileError::OutOfMemory
    }
}
