// A store of tables in memory.
ghost use Rattle.std.proofs.Props.{props};
ghost use Rattle.std.specs.Prelude.{◌≡◌, ◌↔◌, ◌≤◌, false, true, [], All, drop, find, length, take, IfErr, IfOk, IfSome, IsOkUnless, OnErr, OnOk};
ghost use Rattle.mb_store.specs.Bookmark.{IsMarked};
ghost use Rattle.mb_store.specs.Common.{called, has_key, is_table, IsInOrder, names_apart, set_tables, width};
ghost use Rattle.mb_store.specs.Committing.{AreOfTables, Commits};
ghost use Rattle.mb_store.specs.Gathered.{IsHeld};
ghost use Rattle.mb_store.specs.MemTables.{AreKeyed};
ghost use Rattle.mb_store.specs.Sizes.{live_size_of};
ghost use Rattle.mb_store.specs.Store.{created, is_duplicate, no_rows, with_row, without_rows};
ghost use Rattle.mb_store.specs.Errors.{IsRowError, RefusesTwice};
ghost use Rattle.mb_store.specs.Kept.{FaultsCounted, Keeps, ReadsOnly};

use crate::bookmark::Bookmark;
use crate::by_table::ByTable;
use crate::gathered::Gathered;
use crate::mem_tables::MemTables;
use crate::{
    Changes, MbtError, MbtResult, MbtType, Row, RowKey, StoreError, TableDesc, TableName,
    TileStore, bookmark, committing, describing, gathering, mem_tables, table_rows, taking,
};
use base_values::{FailingCalls, OutOfMemory};
use std::alloc::Global;

/// A store of tables in memory. The rows of a table stand in the order of their keys, rows of equal keys in order of
/// arrival. A row is found, and goes to its place, by a number of comparisons that grows as the logarithm of the number
/// of rows; so does each change of a commit. Rows of places that are pushed into an empty table are sorted once.
#[derive(Debug, Drop)]
pub struct MemStore {
    descriptions: Vec<TableDesc>,
    keyed: ByTable<bool>,
    tables: MemTables,
    gathered: Gathered,
    bookmark: Bookmark,
    failing: FailingCalls,
    ghost keys: { AreKeyed descriptions.items keyed },
    ghost kept: { IsHeld descriptions.items tables gathered },
    ghost marked: { IsMarked tables bookmark } by { Prim.hlevel props },
}

#[tactic(auto, unfolding(crate::specs::MemStore::told_of, crate::specs::MemStore::failing_of, crate::specs::MemStore::faults_of, crate::specs::MemStore::IsSteady))]
impl MemStore {
    ghost use Rattle.mb_store.specs.MemStore.{told_of, failing_of, faults_of, IsPlain, IsSteady};

    /// A store without tables. No call of it fails.
    pub fn new(alloc: Global) -> MemStore
        ensures told { told_of result ≡ no_rows [] }
        ensures faults { faults_of result ≡ 0 }
        ensures calls { (failing_of result).calls ≡ 0 }
        ensures steady { IsSteady result }
    {
        MemStore::of_tables(alloc, Vec::new(alloc))
    }

    /// A store with the empty tables of a layout and its metadata. No call of it fails.
    pub fn with_layout(alloc: Global, layout: MbtType) -> MbtResult<MemStore>
        ensures memory { IsOkUnless result MbtError.OutOfMemory }
        ensures told { IfOk result (λ store. told_of store ≡ no_rows (set_tables layout)) }
        ensures faults { IfOk result (λ store. faults_of store ≡ 0) }
        ensures calls { IfOk result (λ store. (failing_of store).calls ≡ 0) }
        ensures steady { IfOk result IsSteady }
    {
        Ok(MemStore::of_tables(alloc, mb_tables::set_tables(alloc, layout)?))
    }

    // A store with these tables, whose names are different.
    fn of_tables(alloc: Global, descriptions: Vec<TableDesc>) -> MemStore
        requires { names_apart descriptions.items ≡ true }
        ensures told { told_of result ≡ no_rows descriptions.items }
        ensures faults { faults_of result ≡ 0 }
        ensures calls { (failing_of result).calls ≡ 0 }
        ensures steady { IsSteady result }
    {
        MemStore {
            keyed: mem_tables::keyed_tables(descriptions.as_slice()),
            descriptions,
            tables: mem_tables::no_rows(alloc),
            gathered: Gathered::none(alloc),
            bookmark: Bookmark::none(),
            failing: FailingCalls::none(alloc),
        }
    }

    /// Adds a row to a table, before the first row of a greater key. `DuplicateRow` comes exactly where a unique index
    /// of exactly the table's key columns is described, no cell of the row's key is null, and the table has a row of
    /// this key. Refused, the store stands as it was.
    pub fn push_row(&mut self, table: TableName, row: Row) -> MbtResult<()>
        requires described { is_table (told_of self.old).descriptions table ≡ true }
        requires wide { length row ≡ width table }
        ensures duplicate { RefusesTwice table (is_duplicate (told_of self.old) table row) result }
        ensures errors { IfErr result (IsRowError table) }
        ensures ok { OnOk result (told_of self.new ≡ with_row (told_of self.old) table row) }
        ensures err { OnErr result (told_of self.new ≡ told_of self.old) }
        ensures faults { faults_of self.new ≡ faults_of self.old }
        ensures failing { failing_of self.new ≡ failing_of self.old }
        ensures steady { IsSteady self.new ↔ IsSteady self.old }
    {
        let keyed = *self.keyed.of(table);
        self.bookmark = Bookmark::none();
        gathering::push(&mut self.tables, &mut self.gathered, table, keyed, row)
    }

    // Moves the rows that are gathered into the ordered sets. Refused, all is told as before.
    fn settle(&mut self) -> Result<(), OutOfMemory>
        ensures told { told_of self.new ≡ told_of self.old }
        ensures plain { OnOk result (IsPlain self.new) }
        ensures none { OnOk result (self.new.gathered.rows.items ≡ []) }
        ensures closed { self.new.gathered.is_open ≡ false }
        ensures failing { self.new.failing ≡ self.old.failing }
    {
        let stay = self.gathered.rows.is_empty();
        self.bookmark.keep_if(stay);
        gathering::settle(&mut self.tables, &mut self.gathered)
    }

    /// The descriptions of all tables and views.
    pub fn descriptions(&self) -> &[TableDesc]
        ensures { result.now ≡ (told_of self.now).descriptions }
    {
        self.descriptions.as_slice()
    }

    /// Takes the rows of a table, in the order of their keys: their texts and bytes are moved. The table has no rows
    /// then, also when there is no memory for the list of the rows. It is none of the calls that can fail.
    pub fn take_rows(&mut self, alloc: Global, table: TableName) -> Result<Vec<Row>, OutOfMemory>
        ensures rows { IfOk result (λ rows. rows.items ≡ (told_of self.old).rows table) }
        ensures widths { IfOk result (λ rows. All (λ row. length row ≡ width table) rows.items) }
        ensures told { told_of self.new ≡ without_rows (told_of self.old) table }
        ensures faults { faults_of self.new ≡ faults_of self.old }
        ensures failing { failing_of self.new ≡ failing_of self.old }
        ensures steady { IsSteady self.new ↔ IsSteady self.old }
    {
        self.bookmark = Bookmark::none();
        taking::take(alloc, &mut self.tables, &mut self.gathered, table)
    }

    /// The rows of a table stand in the order of their keys, whatever was pushed and committed.
    pub fn rows_in_order(&self, table: TableName)
        ensures { IsInOrder table ((told_of self.now).rows table) }
    {
        taking::in_order(&self.tables, &self.gathered, table);
    }

    /// From here on the calls of a store with these numbers fail, counted from 1 over all calls that
    /// this store has been asked.
    pub fn fail_at(&mut self, calls: Vec<u64>)
        ensures told { told_of self.new ≡ told_of self.old }
        ensures faults { faults_of self.new ≡ faults_of self.old }
        ensures failing { failing_of self.new ≡ record (failing_of self.old) { listed = calls } }
        ensures steady { IsSteady self.new ↔ (calls.items ≡ []) }
    {
        self.failing.fail_at(calls);
    }
}

#[tactic(auto, unfolding(crate::specs::MemStore::told_of, crate::specs::MemStore::failing_of, crate::specs::MemStore::faults_of, crate::specs::MemStore::IsSteady))]
impl TileStore for MemStore {
    ghost use Rattle.std.specs.Prelude.{true};
    ghost use Rattle.mb_store.specs.MemStore.{told_of, failing_of, faults_of, FailsAsListed, IsSteady, told_sound};

    ghost tells = { λ _. true };

    ghost told = { told_of };

    ghost faults = { faults_of };

    ghost steady = { IsSteady };

    fn describe(&mut self, alloc: Global) -> Result<Vec<TableDesc>, StoreError>
        ensures answer { IfOk result (λ tables. tables.items ≡ (told_of self.old).descriptions) }
        ensures fails { FailsAsListed self.old result StoreError.Fault }
        ensures after { failing_of self.new ≡ called (failing_of self.old) }
        ensures kept { ReadsOnly told_of (λ _. true) faults_of IsSteady self.old self.new }
        ensures fault { FaultsCounted faults_of self.old self.new result StoreError.Fault }
    {
        if self.failing.fails() {
            return Err(StoreError::Fault);
        }
        Ok(describing::clone_all(alloc, self.descriptions.as_slice())?)
    }

    fn count_rows(&mut self, table: TableName) -> Result<u64, StoreError>
        ensures answer { IfOk result (λ count. count ≡ length ((told_of self.old).rows table)) }
        ensures fails { FailsAsListed self.old result StoreError.Fault }
        ensures after { failing_of self.new ≡ called (failing_of self.old) }
        ensures kept { ReadsOnly told_of (λ _. true) faults_of IsSteady self.old self.new }
        ensures fault { FaultsCounted faults_of self.old self.new result StoreError.Fault }
    {
        if self.failing.fails() {
            return Err(StoreError::Fault);
        }
        self.settle()?;
        Ok(self.tables.of(table).len())
    }

    fn rows(
        &mut self,
        alloc: Global,
        table: TableName,
        from: u64,
        limit: u64,
    ) -> Result<Vec<Row>, StoreError>
        ensures answer { IfOk result
            (λ rows. rows.items ≡ take limit (drop from ((told_of self.old).rows table))) }
        ensures widths { IfOk result (λ rows. All (λ row. length row ≡ width table) rows.items) }
        ensures limit { IfOk result (λ rows. length rows.items ≤ limit) }
        ensures fails { FailsAsListed self.old result StoreError.Fault }
        ensures after { failing_of self.new ≡ called (failing_of self.old) }
        ensures kept { ReadsOnly told_of (λ _. true) faults_of IsSteady self.old self.new }
        ensures fault { FaultsCounted faults_of self.old self.new result StoreError.Fault }
    {
        if self.failing.fails() {
            return Err(StoreError::Fault);
        }
        self.settle()?;
        let (tables, bookmark) = (&self.tables, &mut self.bookmark);
        Ok(bookmark::page(alloc, tables, bookmark, table, from, limit)?)
    }

    fn find(
        &mut self,
        alloc: Global,
        table: TableName,
        key: &RowKey,
    ) -> Result<Option<Row>, StoreError>
        ensures answer { IfOk result
            (λ row. row ≡ find (has_key table key.now) ((told_of self.old).rows table)) }
        ensures widths { IfOk result (λ row. IfSome row (λ row. length row ≡ width table)) }
        ensures fails { FailsAsListed self.old result StoreError.Fault }
        ensures after { failing_of self.new ≡ called (failing_of self.old) }
        ensures kept { ReadsOnly told_of (λ _. true) faults_of IsSteady self.old self.new }
        ensures fault { FaultsCounted faults_of self.old self.new result StoreError.Fault }
    {
        if self.failing.fails() {
            return Err(StoreError::Fault);
        }
        self.settle()?;
        Ok(table_rows::find_in(alloc, table, key, self.tables.of(table))?)
    }

    fn create(&mut self, alloc: Global, tables: &[TableDesc]) -> Result<(), StoreError>
        ensures ok { OnOk result (told_of self.new ≡ created (told_of self.old) tables.now) }
        ensures err { OnErr result (told_of self.new ≡ told_of self.old) }
        ensures fails { FailsAsListed self.old result StoreError.Fault }
        ensures after { failing_of self.new ≡ called (failing_of self.old) }
        ensures kept { Keeps (λ _. true) faults_of IsSteady self.old self.new }
        ensures fault { FaultsCounted faults_of self.old self.new result StoreError.Fault }
    {
        if self.failing.fails() {
            return Err(StoreError::Fault);
        }
        let descriptions = describing::with_tables(alloc, self.descriptions.as_slice(), tables)?;
        self.keyed = mem_tables::keyed_tables(descriptions.as_slice());
        self.descriptions = descriptions;
        Ok(())
    }

    fn commit(&mut self, alloc: Global, changes: &Changes) -> Result<(), StoreError>
        requires { AreOfTables (told_of self.old).descriptions changes.now }
        ensures ok { OnOk result (Commits changes.now (told_of self.old) (told_of self.new)) }
        ensures err { OnErr result (told_of self.new ≡ told_of self.old) }
        ensures fails { FailsAsListed self.old result StoreError.Fault }
        ensures after { failing_of self.new ≡ called (failing_of self.old) }
        ensures kept { Keeps (λ _. true) faults_of IsSteady self.old self.new }
        ensures fault { FaultsCounted faults_of self.old self.new result StoreError.Fault }
    {
        if self.failing.fails() {
            return Err(StoreError::Fault);
        }
        self.settle()?;
        self.bookmark = Bookmark::none();
        committing::commit_all(alloc, changes.as_slice(), &mut self.tables)?;
        Ok(())
    }

    fn live_size(&mut self) -> Result<u64, StoreError>
        ensures answer { IfOk result (λ size. size ≡ live_size_of (told_of self.old)) }
        ensures fails { FailsAsListed self.old result StoreError.Fault }
        ensures after { failing_of self.new ≡ called (failing_of self.old) }
        ensures kept { ReadsOnly told_of (λ _. true) faults_of IsSteady self.old self.new }
        ensures fault { FaultsCounted faults_of self.old self.new result StoreError.Fault }
    {
        if self.failing.fails() {
            return Err(StoreError::Fault);
        }
        self.settle()?;
        Ok(mem_tables::live_size(&self.tables))
    }

    ghost sound = { told_sound };
}
