// A store over a database.
ghost use Rattle.std.specs.Prelude.{◌≡◌, ◌≤◌, false, true, [], All, IfOk, IfSome, IsErrOf, OnErr, OnOk, length};
ghost use Rattle.mb_sqlite.specs.Common.{FaultsCounted, set_tables, width};
ghost use Rattle.mb_sqlite.specs.Calls.{ChangesOnce, CommitsChanges, HasTable, IsInside, IsPrepared, ReadsStore, RefusesStore, Saw};
ghost use Rattle.mb_sqlite.specs.Committing.{KeepsCommitted};
ghost use Rattle.mb_sqlite.specs.Creation.{are_named};
ghost use Rattle.mb_sqlite.specs.Cursor.{MovesPast};
ghost use Rattle.mb_sqlite.specs.Reading.{IsCounted, IsFound};
ghost use Rattle.mb_sqlite.specs.Sizing.{IsLiveSize};

use crate::cursor::Cursor;
use crate::failure::{Failure, counted};
use crate::layout::{are_named, has_table};
use crate::{making, reading, writing};
use mb_store::{Changes, StoreError, TileStore};
use mb_tables::{MbtType, Row, RowKey, TableDesc, TableName, set_tables};
use sqlite::{Alter, Connection};
use std::alloc::Global;

/// A tile set in a database, as an MBTiles file (MBTiles 1.3). It tells no tables.
///
/// Its tables are those of a layout and its metadata. The first call makes those that aren't there. Each call but
/// `commit` only reads, in a transaction that is rolled back; `commit` is one transaction. A connection that a call
/// finds inside a transaction is a fault of that call.
///
/// Numbers, texts, blobs and NULL are cells as they are. A real, and a text that isn't UTF-8, is `Cell::Other`.
pub struct SqliteStore<S: Alter> {
    alloc: Global,
    connection: Connection<S>,
    layout: MbtType,
    is_made: bool,
    cursor: Option<Cursor>,
    faults: u64,
}

impl<S: Alter + Drop> Drop for SqliteStore<S> {
    fn drop(self) {
        let SqliteStore {
            alloc: _,
            connection: _,
            layout: _,
            is_made: _,
            cursor: _,
            faults: _,
        } = self;
    }
}

impl<S: Alter> SqliteStore<S> {
    /// The store over a connection, with the tables of the layout and its metadata. It runs no statement and takes no
    /// memory: the first call of the store makes the tables that aren't there.
    pub fn adopt(alloc: Global, connection: Connection<S>, layout: MbtType) -> SqliteStore<S>
        ensures connection { result.connection ≡ connection }
        ensures layout { result.layout ≡ layout }
        ensures unmade { result.is_made ≡ false }
        ensures cursor { result.cursor ≡ None }
        ensures faults { result.faults ≡ 0 }
    {
        SqliteStore {
            alloc,
            connection,
            layout,
            is_made: false,
            cursor: None,
            faults: 0,
        }
    }

    // Makes the tables that aren't there, at the first call. A connection in a transaction is a fault.
    fn begin(&mut self) -> Result<(), StoreError>
        ensures same { self.old.is_made ≡ true → self.new.connection ≡ self.old.connection }
        ensures ready { OnOk result (IsPrepared S.Store self.old self.new) }
        ensures outside { OnOk result (self.old.connection.in_transaction ≡ false) }
        ensures ended { OnOk result (self.new.connection.in_transaction ≡ false) }
        ensures alone { IsInside self.old → self.new.connection ≡ self.old.connection }
        ensures cursor { self.new.cursor ≡ self.old.cursor }
        ensures kept { ReadsStore S.Store self.old self.new result }
    {
        if !self.connection.is_autocommit() {
            return counted(&mut self.faults, Err(Failure::Fault));
        }
        if !self.is_made {
            match making::make(&mut self.connection, self.layout) {
                Ok(()) => self.is_made = true,
                Err(failure) => return counted(&mut self.faults, Err(failure)),
            }
        }
        Ok(())
    }

    /// The connection again, to close it. A file that isn't closed keeps its log beside it.
    pub fn into_connection(self) -> Connection<S>
        ensures { result ≡ self.connection }
    {
        let SqliteStore {
            alloc: _,
            connection,
            layout: _,
            is_made: _,
            cursor: _,
            faults: _,
        } = self;
        connection
    }
}

impl<S: Alter> TileStore for SqliteStore<S> {
    ghost use Rattle.std.proofs.lemmas.Bool.{false≢true};
    ghost use Rattle.mb_store.specs.Store.{no_rows};

    ghost tells = { λ _. false };

    ghost told = { λ _. no_rows [] };

    ghost faults = { λ s. s.faults };

    ghost steady = { λ _. ⊥ };

    /// The descriptions of the layout's tables and views and of its metadata, whatever the database has.
    fn describe(&mut self, alloc: Global) -> Result<Vec<TableDesc>, StoreError>
        ensures described { IfOk result (λ tables. tables.items ≡ set_tables self.old.layout) }
        ensures ready { OnOk result (IsPrepared S.Store self.old self.new) }
        ensures cursor { self.new.cursor ≡ self.old.cursor }
        ensures kept { ReadsStore S.Store self.old self.new result }
    {
        self.begin()?;
        Ok(set_tables(alloc, self.layout)?)
    }

    fn count_rows(&mut self, table: TableName) -> Result<u64, StoreError>
        ensures undescribed { HasTable self.old table false → IfOk result (λ count. count ≡ 0) }
        ensures counted { HasTable self.old table true → IfOk result
            (λ count. Saw S.Store self.old self.new
            (λ old seen. IsCounted S.Store table old seen count)) }
        ensures cursor { self.new.cursor ≡ self.old.cursor }
        ensures kept { ReadsStore S.Store self.old self.new result }
    {
        self.begin()?;
        if !has_table(self.layout, table) {
            return Ok(0);
        }
        let answer = reading::count(&mut self.connection, table);
        counted(&mut self.faults, answer)
    }

    /// The rows in the order of their `rowid`. Pages in order take time in their own rows; another page passes
    /// over all rows before it.
    fn rows(
        &mut self,
        alloc: Global,
        table: TableName,
        from: u64,
        limit: u64,
    ) -> Result<Vec<Row>, StoreError>
        ensures widths { IfOk result (λ rows. All (λ row. length row ≡ width table) rows.items) }
        ensures limit { IfOk result (λ rows. length rows.items ≤ limit) }
        ensures undescribed { HasTable self.old table false → IfOk result
            (λ rows. rows.items ≡ []) }
        ensures passed { HasTable self.old table false → self.new.cursor ≡ self.old.cursor }
        ensures cursor { OnErr result (self.new.cursor ≡ self.old.cursor) }
        ensures paged { HasTable self.old table true → IfOk result
            (λ rows. Saw S.Store self.old self.new
            (λ old seen. MovesPast S.Store table old seen from limit self.old.cursor self.new.cursor
            rows.items)) }
        ensures kept { ReadsStore S.Store self.old self.new result }
    {
        self.begin()?;
        if !has_table(self.layout, table) {
            return Ok(Vec::new(alloc));
        }
        let (connection, cursor) = (&mut self.connection, &mut self.cursor);
        let answer = reading::page(alloc, connection, cursor, table, from, limit);
        counted(&mut self.faults, answer)
    }

    /// The first row of a table with a key. A key of another kind than the table's finds none.
    fn find(
        &mut self,
        alloc: Global,
        table: TableName,
        key: &RowKey,
    ) -> Result<Option<Row>, StoreError>
        ensures widths { IfOk result (λ row. IfSome row (λ row. length row ≡ width table)) }
        ensures undescribed { HasTable self.old table false → IfOk result (λ row. row ≡ None) }
        ensures found { HasTable self.old table true → IfOk result
            (λ row. Saw S.Store self.old self.new
            (λ old seen. IsFound S.Store table old seen key.now row)) }
        ensures cursor { self.new.cursor ≡ self.old.cursor }
        ensures kept { ReadsStore S.Store self.old self.new result }
    {
        self.begin()?;
        if !has_table(self.layout, table) {
            return Ok(None);
        }
        let answer = reading::find(alloc, &mut self.connection, table, key);
        counted(&mut self.faults, answer)
    }

    /// Makes the tables of the layout that aren't there, whichever of them are asked for. A name that the layout
    /// doesn't have is a fault.
    fn create(&mut self, alloc: Global, tables: &[TableDesc]) -> Result<(), StoreError>
        ensures named { OnOk result (are_named (set_tables self.old.layout) tables.now ≡ true) }
        ensures ready { OnOk result (IsPrepared S.Store self.old self.new) }
        ensures cursor { self.new.cursor ≡ self.old.cursor }
        ensures kept { ReadsStore S.Store self.old self.new result }
    {
        self.begin()?;
        let own = set_tables(alloc, self.layout)?;
        if !are_named(own.as_slice(), tables) {
            return counted(&mut self.faults, Err(Failure::Fault));
        }
        Ok(())
    }

    /// Makes all changes in one transaction. A change of a table that the layout doesn't have, and a row with a
    /// `Cell::Other`, is a fault.
    fn commit(&mut self, alloc: Global, changes: &Changes) -> Result<(), StoreError>
        ensures once { ChangesOnce S.Store self.old self.new changes.now }
        ensures changed { OnOk result (CommitsChanges S.Store self.old self.new changes.now) }
        ensures unchanged { OnErr result (RefusesStore S.Store self.old self.new changes.now) }
        ensures refused { self.old.is_made ≡ true
            → OnErr result (KeepsCommitted S.Store self.old.connection self.new.connection) }
        ensures cursor { OnOk result (self.new.cursor ≡ None) }
        ensures inside { IsInside self.old → IsErrOf result StoreError.Fault }
        ensures alone { IsInside self.old → self.new.connection ≡ self.old.connection }
        ensures layout { self.new.layout ≡ self.old.layout }
        ensures made { OnOk result (self.new.is_made ≡ true) }
        ensures faults { self.old.faults ≤ self.new.faults }
        ensures fault { FaultsCounted (λ s. s.faults) self.old self.new result StoreError.Fault }
    {
        self.begin()?;
        self.cursor = None;
        match writing::commit(alloc, &mut self.connection, self.layout, changes) {
            Ok(()) => Ok(()),
            Err(failure) => counted(&mut self.faults, Err(failure)),
        }
    }

    /// The bytes of all texts and blobs, and 8 for each other cell, over all rows of the layout's tables; at
    /// most the greatest `u64`.
    fn live_size(&mut self) -> Result<u64, StoreError>
        ensures sized { IfOk result
            (λ size. Saw S.Store self.old self.new
            (λ old seen. IsLiveSize S.Store self.old.layout old seen size)) }
        ensures cursor { self.new.cursor ≡ self.old.cursor }
        ensures kept { ReadsStore S.Store self.old self.new result }
    {
        self.begin()?;
        let answer = reading::size(&mut self.connection, self.layout);
        counted(&mut self.faults, answer)
    }

    ghost sound = { λ _ tells. absurd (false≢true tells) };
}
