// Why a call of an opened set is refused.
ghost use Rattle.std.specs.Prelude.{◌≡◌, ◌≤◌, IsErrOf, OnOk};
ghost use Rattle.base_values.specs.Counts.{Rose};
ghost use Rattle.mb_file.specs.Faults.{IsCounted};

use base_values::OutOfMemory;
use mb_reading::ValueKind;
use mb_store::StoreError;
use mb_tables::TableName;
use std::alloc::{AllocError, AllocFailed};
use thiserror::Error;

/// Why a call of an opened set is refused.
#[derive(Clone, Copy, Debug, PartialEq, Eq, Error)]
pub enum FileFault {
    /// The pages aren't those of a sound database.
    #[error("it is damaged; recover it by sqlite3, as by .recover")]
    Damaged,
    /// A read of the file failed, or a page that was read again had changed.
    #[error("it can't be read, or changed while it was read; try again once no program writes it")]
    Unread,
    /// The table has a value of a kind that no set has in its column.
    #[error("the table {table} has {kind} in a column where a set has none; put bytes there, or remove the row")]
    Cell {
        /// The table.
        table: TableName,
        /// The kind of the value behind the place, null where the row has no place.
        kind: ValueKind,
    },
    /// The table has rows, and no row of it has a place of zoom 0 to 30.
    #[error("no row of the table {table} has a place of zoom 0 to 30; give another file")]
    Outside {
        /// The table.
        table: TableName,
    },
    /// The set is only read.
    #[error("it is only read; write into a copy")]
    ReadOnly,
    /// Memory ran out.
    #[error("out of memory")]
    OutOfMemory,
}

impl From<sqlite_pages::Error> for FileFault {
    ghost use Rattle.mb_file.specs.Errors.{fault_of_pages};

    ghost from_gives = { λ error e. e ≡ fault_of_pages error };

    fn from(error: sqlite_pages::Error) -> Self {
        match error {
            sqlite_pages::Error::OutOfMemory => FileFault::OutOfMemory,
            sqlite_pages::Error::Io => FileFault::Unread,
            sqlite_pages::Error::Corrupt | sqlite_pages::Error::Full => FileFault::Damaged,
        }
    }
}

impl From<StoreError> for FileFault {
    ghost use Rattle.mb_file.specs.Errors.{fault_of_store};

    ghost from_gives = { λ error e. e ≡ fault_of_store error };

    fn from(error: StoreError) -> Self {
        match error {
            StoreError::Fault => FileFault::Damaged,
            StoreError::OutOfMemory => FileFault::OutOfMemory,
        }
    }
}

impl From<OutOfMemory> for FileFault {
    ghost use Rattle.mb_file.specs.declared.fault.FileFault.TheVariants as faults;

    ghost from_gives = { λ _ e. e ≡ faults.OutOfMemory };

    fn from(_: OutOfMemory) -> Self {
        FileFault::OutOfMemory
    }
}

impl From<AllocError> for FileFault {
    ghost use Rattle.mb_file.specs.declared.fault.FileFault.TheVariants as faults;

    ghost from_gives = { λ _ e. e ≡ faults.OutOfMemory };

    fn from(_: AllocError) -> Self {
        FileFault::OutOfMemory
    }
}

impl<T: Drop> From<AllocFailed<T>> for FileFault {
    ghost use Rattle.mb_file.specs.declared.fault.FileFault.TheVariants as faults;

    ghost from_gives = { λ _ e. e ≡ faults.OutOfMemory };

    fn from(_: AllocFailed<T>) -> Self {
        FileFault::OutOfMemory
    }
}

// The faults of a set: how many there were, and why the last one.
#[derive(Clone, Copy, Debug)]
pub(crate) struct Faults {
    pub(crate) count: u64,
    pub(crate) last: Option<FileFault>,
}

impl Faults {
    pub(crate) const NONE: Faults = Faults {
        count: 0,
        last: None,
    };

    // The answer of a call, of which a fault is counted and kept.
    pub(crate) fn counted<T: Drop>(&mut self, answer: Result<T, FileFault>) -> Result<T, StoreError>
        ensures counted { IsCounted answer self.old self.new result }
        ensures later { self.old.count ≤ self.new.count }
        ensures fault { IsErrOf result StoreError.Fault → Rose self.old.count self.new.count }
        ensures still { OnOk result (self.new.count ≡ self.old.count) }
    {
        match answer {
            Ok(value) => Ok(value),
            Err(FileFault::OutOfMemory) => Err(StoreError::OutOfMemory),
            Err(fault) => {
                self.count = self.count.saturating_add(1);
                self.last = Some(fault);
                Err(StoreError::Fault)
            }
        }
    }
}
