// Pages of the rows of a table, and a reading of all that weren't read yet.
ghost use Rattle.std.specs.Prelude.{◌≡◌, ℕ, ◌≤◌, All, IfOk, None, OnOk, drop, length, take};
ghost use Rattle.mb_tables.specs.Table.{width};
ghost use Rattle.sqlite_btree.specs.Chain.{Layout};
ghost use Rattle.sqlite_btree.specs.Stored.{IsTable};
ghost use Rattle.sqlite_pages.specs.PageMap.{PageMap};
ghost use Rattle.mb_file.specs.Course.{has_key};
ghost use Rattle.mb_file.specs.FilePages.{GoesOn, pages_of};
ghost use Rattle.mb_file.specs.Noted.{IsNotedAs, KeepsNotes};
ghost use Rattle.mb_file.specs.Scan.{IsScan, Reaches, Scans};

use crate::FileFault;
use crate::scan::Scan;
use crate::set_table::SetTable;
use crate::source::Source;
use mb_tables::{Row, TableName};
use sqlite_disk::Disk;
use std::alloc::Global;

impl Scan {
    // Goes before the first row again, where it is behind a place.
    fn go_back(&mut self, alloc: Global, to: u64)
        ensures stands { (layout : Layout) (usable root : ℕ) (pages : PageMap) (table : _)
            (columns : _) (rows : _) → IsTable usable layout root rows
            → IsScan layout usable pages table columns rows self.old
            → IsScan layout usable pages table columns rows self.new }
        ensures place { self.new.position ≤ to }
        ensures same { IsNotedAs self.old self.new }
        ensures kind { has_key self.new.course ≡ has_key self.old.course }
    {
        if to < self.position {
            self.restart(alloc);
        }
    }

    // Passes over rows up to a place, and says whether there are so many.
    fn pass<D: Disk>(
        &mut self,
        alloc: Global,
        source: &mut Source<D>,
        table: TableName,
        of: &SetTable,
        to: u64,
    ) -> Result<bool, FileFault>
        ensures stands { Scans source.old.pages source.new.pages of.now.root table of.now.columns
            self.old
            (λ Stands all. IfOk result (λ found. Stands self.new
            × Reaches all to self.new.position found)) }
        ensures still { self.old.unseen ≡ None → IsNotedAs self.old self.new }
        ensures notes { KeepsNotes source.old.pages source.new.pages of.now.root source.old.secret
            table of.now.columns self.old self.new }
        ensures secret { source.new.secret ≡ source.old.secret }
        ensures kind { has_key self.new.course ≡ has_key self.old.course }
        ensures kept { GoesOn source.old.pages source.new.pages }
        ensures pages { pages_of source.new.pages ≡ pages_of source.old.pages }
    {
        self.go_back(alloc, to);
        for _ in self.position..to {
            if self.next_row(alloc, source, table, of)?.is_none() {
                return Ok(false);
            }
        }
        Ok(true)
    }

    // The next rows, at most so many.
    fn gather<D: Disk>(
        &mut self,
        alloc: Global,
        source: &mut Source<D>,
        table: TableName,
        of: &SetTable,
        limit: u64,
    ) -> Result<Vec<Row>, FileFault>
        ensures stands { Scans source.old.pages source.new.pages of.now.root table of.now.columns
            self.old
            (λ Stands all. IfOk result (λ rows. Stands self.new
            × (rows.items ≡ take limit (drop self.old.position all)))) }
        ensures widths { IfOk result (λ rows. All (λ row. length row ≡ width table) rows.items) }
        ensures limit { IfOk result (λ rows. length rows.items ≤ limit) }
        ensures still { self.old.unseen ≡ None → IsNotedAs self.old self.new }
        ensures notes { KeepsNotes source.old.pages source.new.pages of.now.root source.old.secret
            table of.now.columns self.old self.new }
        ensures secret { source.new.secret ≡ source.old.secret }
        ensures kind { has_key self.new.course ≡ has_key self.old.course }
        ensures kept { GoesOn source.old.pages source.new.pages }
        ensures pages { pages_of source.new.pages ≡ pages_of source.old.pages }
    {
        let mut rows = Vec::new(alloc);
        'rows: for _ in 0..u64::MAX {
            if rows.len() as u64 >= limit {
                return Ok(rows);
            }
            let Some(row) = self.next_row(alloc, source, table, of)? else {
                return Ok(rows);
            };
            rows.push(row)?;
        }
        Ok(rows)
    }

    // The rows from a place on, at most so many.
    fn rows<D: Disk>(
        &mut self,
        alloc: Global,
        source: &mut Source<D>,
        table: TableName,
        of: &SetTable,
        from: u64,
        limit: u64,
    ) -> Result<Vec<Row>, FileFault>
        ensures stands { Scans source.old.pages source.new.pages of.now.root table of.now.columns
            self.old
            (λ Stands all. IfOk result (λ rows. Stands self.new
            × (rows.items ≡ take limit (drop from all)))) }
        ensures widths { IfOk result (λ rows. All (λ row. length row ≡ width table) rows.items) }
        ensures limit { IfOk result (λ rows. length rows.items ≤ limit) }
        ensures still { self.old.unseen ≡ None → IsNotedAs self.old self.new }
        ensures notes { KeepsNotes source.old.pages source.new.pages of.now.root source.old.secret
            table of.now.columns self.old self.new }
        ensures secret { source.new.secret ≡ source.old.secret }
        ensures kind { has_key self.new.course ≡ has_key self.old.course }
        ensures kept { GoesOn source.old.pages source.new.pages }
        ensures pages { pages_of source.new.pages ≡ pages_of source.old.pages }
    {
        if !self.pass(alloc, source, table, of, from)? {
            return Ok(Vec::new(alloc));
        }
        self.gather(alloc, source, table, of, limit)
    }

    // The same. After a fault the next call begins at the first row.
    pub(crate) fn page<D: Disk>(
        &mut self,
        alloc: Global,
        source: &mut Source<D>,
        table: TableName,
        of: &SetTable,
        from: u64,
        limit: u64,
    ) -> Result<Vec<Row>, FileFault>
        ensures stands { Scans source.old.pages source.new.pages of.now.root table of.now.columns
            self.old
            (λ Stands all. Stands self.new
            × IfOk result (λ rows. rows.items ≡ take limit (drop from all))) }
        ensures widths { IfOk result (λ rows. All (λ row. length row ≡ width table) rows.items) }
        ensures limit { IfOk result (λ rows. length rows.items ≤ limit) }
        ensures still { self.old.unseen ≡ None → IsNotedAs self.old self.new }
        ensures notes { KeepsNotes source.old.pages source.new.pages of.now.root source.old.secret
            table of.now.columns self.old self.new }
        ensures secret { source.new.secret ≡ source.old.secret }
        ensures kind { has_key self.new.course ≡ has_key self.old.course }
        ensures kept { GoesOn source.old.pages source.new.pages }
        ensures pages { pages_of source.new.pages ≡ pages_of source.old.pages }
    {
        let answer = self.rows(alloc, source, table, of, from, limit);
        if answer.is_err() {
            self.restart(alloc);
        }
        answer
    }

    // Reads on to the last row, so that each was noted.
    fn read_on<D: Disk>(
        &mut self,
        alloc: Global,
        source: &mut Source<D>,
        table: TableName,
        of: &SetTable,
    ) -> Result<(), FileFault>
        ensures stands { Scans source.old.pages source.new.pages of.now.root table of.now.columns
            self.old
            (λ Stands all. OnOk result (Stands self.new)) }
        ensures whole { OnOk result (self.new.unseen ≡ None) }
        ensures still { self.old.unseen ≡ None → IsNotedAs self.old self.new }
        ensures notes { KeepsNotes source.old.pages source.new.pages of.now.root source.old.secret
            table of.now.columns self.old self.new }
        ensures secret { source.new.secret ≡ source.old.secret }
        ensures kind { has_key self.new.course ≡ has_key self.old.course }
        ensures kept { GoesOn source.old.pages source.new.pages }
        ensures pages { pages_of source.new.pages ≡ pages_of source.old.pages }
    {
        'rows: for _ in 0..u64::MAX {
            if self.unseen.is_none() {
                return Ok(());
            }
            if self.next_row(alloc, source, table, of)?.is_none() {
                return Ok(());
            }
        }
        Err(FileFault::Damaged)
    }

    // Notes all rows that weren't read yet.
    pub(crate) fn complete<D: Disk>(
        &mut self,
        alloc: Global,
        source: &mut Source<D>,
        table: TableName,
        of: &SetTable,
    ) -> Result<(), FileFault>
        ensures stands { Scans source.old.pages source.new.pages of.now.root table of.now.columns
            self.old
            (λ Stands all. Stands self.new) }
        ensures whole { OnOk result (self.new.unseen ≡ None) }
        ensures still { self.old.unseen ≡ None → IsNotedAs self.old self.new }
        ensures notes { KeepsNotes source.old.pages source.new.pages of.now.root source.old.secret
            table of.now.columns self.old self.new }
        ensures secret { source.new.secret ≡ source.old.secret }
        ensures kind { has_key self.new.course ≡ has_key self.old.course }
        ensures kept { GoesOn source.old.pages source.new.pages }
        ensures pages { pages_of source.new.pages ≡ pages_of source.old.pages }
    {
        let answer = self.read_on(alloc, source, table, of);
        if answer.is_err() {
            self.restart(alloc);
        }
        answer
    }
}
