// Stores of tables.
ghost use Rattle.mb_store.specs.Kept.{FaultsCounted, Keeps, ReadsOnly};
ghost use Rattle.std.specs.Prelude.{◌≡◌, ℕ, ◌≤◌, Bool, true, All, IfOk, IfSome, OnErr, OnOk, drop, find, length, take};
ghost use Rattle.mb_store.specs.Committing.{AreOfTables, Commits};
ghost use Rattle.mb_store.specs.Common.{has_key, Tables, width};
ghost use Rattle.mb_store.specs.Sizes.{live_size_of};
ghost use Rattle.mb_store.specs.Store.{IsSound, created};

use crate::{Changes, MbtError, Row, RowKey, TableDesc, TableName};
use base_values::OutOfMemory;
use std::alloc::{AllocError, AllocFailed, Global};
use thiserror::Error;

/// Why a call of a store is refused.
#[derive(Clone, Copy, Debug, PartialEq, Eq, Error)]
pub enum StoreError {
    /// The store failed, and its count of faults rose.
    #[error("store fault")]
    Fault,
    /// The call found no memory.
    #[error("out of memory")]
    OutOfMemory,
}

impl From<OutOfMemory> for StoreError {
    ghost use Rattle.mb_store.specs.declared.store.StoreError.TheVariants.{OutOfMemory};

    ghost from_gives = { λ _ e. e ≡ OutOfMemory };

    fn from(_: OutOfMemory) -> Self {
        StoreError::OutOfMemory
    }
}

impl From<AllocError> for StoreError {
    ghost use Rattle.mb_store.specs.declared.store.StoreError.TheVariants.{OutOfMemory};

    ghost from_gives = { λ _ e. e ≡ OutOfMemory };

    fn from(_: AllocError) -> Self {
        StoreError::OutOfMemory
    }
}

impl<T: Drop> From<AllocFailed<T>> for StoreError {
    ghost use Rattle.mb_store.specs.declared.store.StoreError.TheVariants.{OutOfMemory};

    ghost from_gives = { λ _ e. e ≡ OutOfMemory };

    fn from(_: AllocFailed<T>) -> Self {
        StoreError::OutOfMemory
    }
}

impl From<StoreError> for MbtError {
    ghost use Rattle.mb_store.specs.Errors.{of_store};

    ghost from_gives = { λ s e. e ≡ of_store s };

    fn from(error: StoreError) -> Self {
        match error {
            StoreError::Fault => MbtError::StoreFault,
            StoreError::OutOfMemory => MbtError::OutOfMemory,
        }
    }
}

/// A store of tables, as a database or tables in memory.
///
/// A store may tell contracts what it holds. Whether it tells never changes. It counts its faults,
/// and the count never falls.
pub trait TileStore {
    /// Whether the store tells what it holds.
    ghost tells: { Self → Bool };

    /// What it holds, where it tells that.
    ghost told: { Self → Tables };

    /// How often it failed.
    ghost faults: { Self → ℕ };

    /// No call from here on fails.
    ghost steady: { Self → Type 0 };

    /// The descriptions of all tables and views.
    fn describe(&mut self, alloc: Global) -> Result<Vec<TableDesc>, StoreError>
        ensures answer { tells self.old ≡ true → IfOk result
            (λ tables. tables.items ≡ (told self.old).descriptions) }
        ensures kept { ReadsOnly told tells faults steady self.old self.new }
        ensures fault { FaultsCounted faults self.old self.new result StoreError.Fault };

    /// How many rows a table has.
    fn count_rows(&mut self, table: TableName) -> Result<u64, StoreError>
        ensures answer { tells self.old ≡ true → IfOk result
            (λ count. count ≡ length ((told self.old).rows table)) }
        ensures kept { ReadsOnly told tells faults steady self.old self.new }
        ensures fault { FaultsCounted faults self.old self.new result StoreError.Fault };

    /// The rows of a table from a place on, as many as there are, up to a limit. An undescribed
    /// table and a view have none.
    fn rows(
        &mut self,
        alloc: Global,
        table: TableName,
        from: u64,
        limit: u64,
    ) -> Result<Vec<Row>, StoreError>
        ensures answer { tells self.old ≡ true → IfOk result
            (λ rows. rows.items ≡ take limit (drop from ((told self.old).rows table))) }
        ensures widths { IfOk result (λ rows. All (λ row. length row ≡ width table) rows.items) }
        ensures limit { IfOk result (λ rows. length rows.items ≤ limit) }
        ensures kept { ReadsOnly told tells faults steady self.old self.new }
        ensures fault { FaultsCounted faults self.old self.new result StoreError.Fault };

    /// The first row of a table with a key, None where there is none.
    fn find(
        &mut self,
        alloc: Global,
        table: TableName,
        key: &RowKey,
    ) -> Result<Option<Row>, StoreError>
        ensures answer { tells self.old ≡ true → IfOk result
            (λ row. row ≡ find (has_key table key.now) ((told self.old).rows table)) }
        ensures widths { IfOk result (λ row. IfSome row (λ row. length row ≡ width table)) }
        ensures kept { ReadsOnly told tells faults steady self.old self.new }
        ensures fault { FaultsCounted faults self.old self.new result StoreError.Fault };

    /// Adds each table whose name isn't described yet. Refused, the store stands as it was.
    fn create(&mut self, alloc: Global, tables: &[TableDesc]) -> Result<(), StoreError>
        ensures ok { tells self.old ≡ true
            → OnOk result (told self.new ≡ created (told self.old) tables.now) }
        ensures err { OnErr result (told self.new ≡ told self.old) }
        ensures kept { Keeps tells faults steady self.old self.new }
        ensures fault { FaultsCounted faults self.old self.new result StoreError.Fault };

    /// Makes all changes at once: the rows of each key are removed, and the row that is put takes their place. The
    /// changed tables are described as tables, not views. Refused, the store stands as it was.
    fn commit(&mut self, alloc: Global, changes: &Changes) -> Result<(), StoreError>
        requires { tells self.old ≡ true → AreOfTables (told self.old).descriptions changes.now }
        ensures ok { tells self.old ≡ true
            → OnOk result (Commits changes.now (told self.old) (told self.new)) }
        ensures err { OnErr result (told self.new ≡ told self.old) }
        ensures kept { Keeps tells faults steady self.old self.new }
        ensures fault { FaultsCounted faults self.old self.new result StoreError.Fault };

    /// The bytes of all texts and blobs, and 8 for each other cell, over all rows; at most the greatest `u64`.
    fn live_size(&mut self) -> Result<u64, StoreError>
        ensures answer { tells self.old ≡ true → IfOk result
            (λ size. size ≡ live_size_of (told self.old)) }
        ensures kept { ReadsOnly told tells faults steady self.old self.new }
        ensures fault { FaultsCounted faults self.old self.new result StoreError.Fault };

    /// What is told has distinct names, rows of the tables' widths that meet the unique indexes of the
    /// keys, and none in a view.
    ghost sound: { (s : Self) → tells s ≡ true → IsSound (told s) };
}
