// Why a set isn't read.
ghost use Rattle.std.specs.Prelude.{◌≡◌};

use crate::ValueKind;
use base_values::OutOfMemory;
use mb_tables::TableName;
use std::alloc::{AllocError, AllocFailed};
use std::fmt;
use thiserror::Error;

/// A file that SQLite writes beside a database.
#[derive(Clone, Copy, Debug, PartialEq, Eq)]
pub enum BesideFile {
    /// The rollback journal, `PATH-journal`.
    Journal,
    /// The log of pages that were written, `PATH-wal`.
    Log,
}

impl fmt::Display for BesideFile {
    fn fmt<W: fmt::Write>(&self, f: &mut fmt::Formatter<W>) -> fmt::Result {
        f.write_str(match self {
            BesideFile::Journal => "rollback journal (-journal)",
            BesideFile::Log => "log (-wal)",
        })
    }
}

/// Why a set isn't read. The words don't name the file, which the caller knows.
#[derive(Debug, Drop, Error)]
pub enum ReadError {
    /// There is no table or view of the name `tiles`, and no tables of a layout.
    #[error("it has no table or view named tiles, and no tables of a tile set; give the file of a tile set")]
    NotASet,
    /// There is no such file.
    #[error("there is no such file")]
    Missing,
    /// It is a folder, a pipe, a device or the like.
    #[error("it is no regular file; copy what it has into a file first")]
    NotRegular,
    /// Its links lead to no name of the file, beside which a log or a journal would stand.
    #[error("its links don't lead to the name of the file; give the file by its own name")]
    Unnamed,
    /// The file can't be opened or read.
    #[error("it can't be read; see whether you may read it")]
    Unread,
    /// The file isn't empty, and doesn't begin as a database of SQLite.
    #[error("it is no SQLite database")]
    NotADatabase,
    /// A file that SQLite writes beside it is there, and can't be read.
    #[error("the {file} beside it is there and can't be read; make it readable, or close the database by SQLite, which removes it")]
    Beside {
        /// Which of them.
        file: BesideFile,
    },
    /// Another program writes the file, or was cut off while it wrote it: a rollback journal stands beside it.
    #[error("a rollback journal stands beside it: a program writes it or was cut off; end that program, or open the file once by sqlite3, which plays the journal back")]
    Unfinished,
    /// The file is another one now than when its first byte was read.
    #[error("it changed while it was read; try again once no program writes it")]
    Changed,
    /// The file is a database of a form that isn't read here, or is damaged or encrypted.
    #[error("it is a database of a form that isn't read here, or damaged or encrypted: {0}; copy it by sqlite3, as by .dump")]
    Unopened(sqlite::Error),
    /// The database refuses a statement on the table.
    #[error("the table {table} can't be read: {cause}; copy the set by sqlite3 into a plain table")]
    Fault {
        /// The table that was asked for.
        table: TableName,
        /// What the database answered.
        cause: sqlite::Error,
    },
    /// The table has a cell of a kind that no set has in its column.
    #[error("the table {table} has {kind} in a column where a set has none; put bytes there, or remove the row")]
    Cell {
        /// The table.
        table: TableName,
        /// The kind of the cell.
        kind: ValueKind,
    },
    /// The table of tiles has rows, none of them in the grid of zooms 0 to 30.
    #[error("none of its rows of tiles lies in the grid of zooms 0 to 30; see how its rows and columns are counted")]
    OutsideGrid,
    /// Two rows of the table have one key and different contents.
    #[error("the table {table} has two rows of one key, with different contents; remove one of them")]
    Twice {
        /// The table.
        table: TableName,
    },
    /// Memory ran out.
    #[error("out of memory")]
    OutOfMemory,
}

impl From<OutOfMemory> for ReadError {
    ghost use Rattle.std.specs.Prelude.{◌≡◌};
    ghost use Rattle.mb_reading.specs.declared.error.ReadError.TheVariants as errors;

    ghost from_gives = { λ _ e. e ≡ errors.OutOfMemory };

    fn from(_: OutOfMemory) -> Self {
        ReadError::OutOfMemory
    }
}

impl From<AllocError> for ReadError {
    ghost use Rattle.std.specs.Prelude.{◌≡◌};
    ghost use Rattle.mb_reading.specs.declared.error.ReadError.TheVariants as errors;

    ghost from_gives = { λ _ e. e ≡ errors.OutOfMemory };

    fn from(_: AllocError) -> Self {
        ReadError::OutOfMemory
    }
}

impl<T: Drop> From<AllocFailed<T>> for ReadError {
    ghost use Rattle.std.specs.Prelude.{◌≡◌};
    ghost use Rattle.mb_reading.specs.declared.error.ReadError.TheVariants as errors;

    ghost from_gives = { λ _ e. e ≡ errors.OutOfMemory };

    fn from(_: AllocFailed<T>) -> Self {
        ReadError::OutOfMemory
    }
}
