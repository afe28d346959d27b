// Rows that are pushed into one table, gathered in a list beside the table's ordered set. The list is sorted once,
// when the rows are taken.
ghost use Rattle.std.specs.Prelude.{◌≡◌, ◌<◌, ◌++◌, ◌↔◌, [], ◌∷◌, false, true, length, vec_capacity, vec_len, IfErr, OnErr, OnOk};
ghost use Rattle.mb_store.specs.Common.{width};
ghost use Rattle.mb_store.specs.Errors.{IsRowError, RefusesTwice};
ghost use Rattle.mb_store.specs.Gathered.{AreSeen, Sees};
ghost use Rattle.mb_store.specs.GatheredRows.{AreFirst, has_own};
ghost use Rattle.mb_store.specs.StoredRow.{numbers_cells, own_key};

use crate::spread::Spread;
use crate::stored_row::StoredRow;
use crate::{MbtError, MbtResult, Row, TableName};
use std::alloc::Global;
use std::collections::HashSet;

// Rows of one table that were pushed and aren't in its ordered set yet, and the numbers of their keys.
#[derive(Debug)]
pub(crate) struct Gathered {
    pub table: TableName,
    pub rows: Vec<StoredRow>,
    pub seen: HashSet<(u32, u32, u32)>,
    pub spread: Spread,
    pub is_open: bool,
}

// By hand, so that a store that is let go has one step for it.
impl Drop for Gathered {
    fn drop(self) {
        let Gathered {
            table: _,
            rows: _,
            seen: _,
            spread: _,
            is_open: _,
        } = self;
    }
}

impl Gathered {
    // Nothing is gathered.
    pub fn none(alloc: Global) -> Gathered
        ensures rows { result.rows.items ≡ [] }
        ensures closed { result.is_open ≡ false }
    {
        Gathered {
            table: TableName::Tiles,
            rows: Vec::new(alloc),
            seen: HashSet::new(alloc),
            spread: Spread::none(alloc),
            is_open: false,
        }
    }

    // The rows alone.
    pub fn into_list(self) -> Vec<StoredRow>
        ensures { result.items ≡ self.rows.items }
    {
        let Gathered {
            table: _,
            rows,
            seen: _,
            spread: _,
            is_open: _,
        } = self;
        rows
    }

    // Begins to gather the rows of a table.
    pub fn begin(&mut self, table: TableName)
        requires none { self.old.rows.items ≡ [] }
        ensures table { self.new.table ≡ table }
        ensures rows { self.new.rows.items ≡ [] }
        ensures open { self.new.is_open ≡ true }
        ensures seen { AreSeen self.new }
    {
        self.table = table;
        self.seen.clear();
        self.spread = Spread::none(*self.rows.allocator());
        self.is_open = true;
    }

    // Ends the gathering for now: the numbers are forgotten, and the rows stay.
    pub fn close(&mut self)
        ensures table { self.new.table ≡ self.old.table }
        ensures rows { self.new.rows ≡ self.old.rows }
        ensures closed { self.new.is_open ≡ false }
    {
        self.is_open = false;
        self.seen = HashSet::new(*self.rows.allocator());
        self.spread = Spread::none(*self.rows.allocator());
    }

    // Lets go of the room of the list, which has no rows any more.
    pub fn free(&mut self)
        requires none { self.old.rows.items ≡ [] }
        ensures table { self.new.table ≡ self.old.table }
        ensures rows { self.new.rows.items ≡ [] }
        ensures open { self.new.is_open ≡ self.old.is_open }
    {
        self.rows = Vec::new(*self.rows.allocator());
    }

    // Refuses a row for which there is no room: as one that stands already, where one has its numbers.
    fn refuse(&self, numbers: (u32, u32, u32)) -> MbtError
        requires seen { AreSeen self.now }
        ensures duplicate { (result ≡ MbtError.DuplicateRow self.now.table)
            ↔ (has_own (numbers_cells numbers) self.now.rows.items ≡ true) }
        ensures errors { IsRowError self.now.table result }
    {
        if self.seen.contains(&numbers) {
            return MbtError::DuplicateRow(self.table);
        }
        MbtError::OutOfMemory
    }

    // Makes room for a row of these numbers, or refuses them where one has them. Refused, all stays.
    fn see(&mut self, numbers: (u32, u32, u32)) -> MbtResult<()>
        requires seen { AreSeen self.old }
        ensures duplicate { RefusesTwice self.old.table
            (has_own (numbers_cells numbers) self.old.rows.items) result }
        ensures errors { IfErr result (IsRowError self.old.table) }
        ensures rows { self.new.rows.items ≡ self.old.rows.items }
        ensures table { self.new.table ≡ self.old.table }
        ensures open { self.new.is_open ≡ self.old.is_open }
        ensures room { OnOk result (vec_len self.new.rows < vec_capacity self.new.rows) }
        ensures ok { OnOk result (Sees numbers self.old.seen.keys self.new.seen.keys) }
        ensures err { OnErr result (AreSeen self.new) }
    {
        let Ok(()) = self.rows.reserve(1) else {
            return Err(self.refuse(numbers));
        };
        let Ok(added) = self.seen.insert(numbers) else {
            return Err(MbtError::OutOfMemory);
        };
        if !added {
            return Err(MbtError::DuplicateRow(self.table));
        }
        Ok(())
    }

    // Adds a row, or refuses it where one has its key. Refused, the rows stay.
    pub fn add(&mut self, numbers: (u32, u32, u32), row: Row) -> MbtResult<()>
        requires wide { length row ≡ width self.old.table }
        requires numbers { own_key row ≡ numbers_cells numbers }
        requires first { AreFirst self.old.table self.old.rows.items }
        requires seen { AreSeen self.old }
        ensures duplicate { RefusesTwice self.old.table
            (has_own (own_key row) self.old.rows.items) result }
        ensures errors { IfErr result (IsRowError self.old.table) }
        ensures ok { OnOk result (self.new.rows.items ≡ self.old.rows.items ++ (row, 0) ∷ []) }
        ensures err { OnErr result (self.new.rows.items ≡ self.old.rows.items) }
        ensures table { self.new.table ≡ self.old.table }
        ensures open { self.new.is_open ≡ self.old.is_open }
        ensures first { AreFirst self.new.table self.new.rows.items }
        ensures seen { AreSeen self.new }
    {
        match self.see(numbers) {
            Ok(()) => {
                self.rows.push_reserved(StoredRow::new(row, 0));
                Ok(())
            }
            Err(error) => Err(error),
        }
    }
}
