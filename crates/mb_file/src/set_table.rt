// A table of a set in its database: where it is, and where its records have the columns of the set.
ghost use Rattle.std.specs.Prelude.{◌≡◌, IfOk, None, Some, is_some, length};
ghost use Rattle.mb_reading.specs.Answer.{answer_row};
ghost use Rattle.mb_reading.specs.Rows.{row_in};
ghost use Rattle.mb_tables.specs.Table.{width};
ghost use Rattle.sqlite_pages.specs.Calls.{Continues};
ghost use Rattle.mb_file.specs.FilePages.{pages_of};
ghost use Rattle.mb_file.specs.Record.{values_in};
ghost use Rattle.mb_file.specs.RowAt.{GivesRowAt, ReadsRecord};
ghost use Rattle.mb_file.specs.SetTable.{if_placed, step_of};

use crate::FileFault;
use crate::columns::Columns;
use crate::index_cell::record_at;
use crate::pages::FilePages;
use crate::record::answer_of;
use crate::source::Source;
use mb_reading::{Answer, Step, is_placed, kind_of, misplaced, row_of};
use mb_tables::{Row, TableName};
use sqlite_btree::table;
use sqlite_disk::Disk;
use sqlite_pages::Pages;
use std::alloc::Global;

#[derive(Drop)]
pub(crate) struct SetTable {
    // The page with the root of its tree.
    pub(crate) root: u32,
    pub(crate) columns: Columns,
}

// A row of a set, and what becomes of it.
pub(crate) fn taken(
    alloc: Global,
    table: TableName,
    answer: Answer<'_>,
) -> Result<(Row, Step), FileFault>
    ensures row { IfOk result (λ taken. row_in table (answer_row answer.entry) ≡ Some taken.0) }
    ensures step { IfOk result (λ taken. taken.1 ≡ step_of table taken.0) }
    ensures wide { IfOk result (λ taken. length taken.0 ≡ width table) }
{
    let Some(row) = row_of(alloc, table, answer)? else {
        return Err(FileFault::Cell {
            table,
            kind: kind_of(answer.fourth),
        });
    };
    let step = if is_placed(table, &row) {
        Step::Added
    } else {
        misplaced(&row)
    };
    Ok((row, step))
}

// A row that is one of the set, None of another one.
pub(crate) fn if_added(row: Row, step: Step) -> Option<Row>
    ensures { (table : _) → step ≡ step_of table row → result ≡ if_placed table (Some row) }
{
    if step == Step::Added { Some(row) } else { None }
}

impl SetTable {
    // Whether it is WITHOUT ROWID.
    pub(crate) fn is_keyed(&self) -> bool
        ensures { result ≡ is_some self.now.columns.key }
    {
        self.columns.key.is_some()
    }

    // The values of a record in the columns of the set.
    pub(crate) fn answer<'a>(&'a self, rowid: i64, record: &'a [u8]) -> Answer<'a>
        ensures { answer_row result ≡ values_in self.now.columns rowid record.now }
    {
        answer_of(&self.columns, rowid, record)
    }

    // Reads the record of a row by its rowid.
    fn record_by_rowid<D: Disk>(&self, source: &mut Source<D>, rowid: i64) -> Result<(), FileFault>
        ensures read { ReadsRecord ⟦<FilePages<D> as Pages>⟧ source.old.pages source.new.pages
            self.now.root rowid source.new.record.items result }
        ensures kept { Continues ⟦<FilePages<D> as Pages>⟧ source.old.pages source.new.pages }
        ensures secret { source.new.secret ≡ source.old.secret }
        ensures pages { pages_of source.new.pages ≡ pages_of source.old.pages }
    {
        let is_there = table::get(
            &mut source.pages,
            &mut source.scratch,
            self.root,
            rowid,
            &mut source.record,
        )?;
        if is_there {
            Ok(())
        } else {
            Err(FileFault::Damaged)
        }
    }

    // Reads the record of a row by its place.
    fn read_record<D: Disk>(&self, source: &mut Source<D>, place: i64) -> Result<(), FileFault>
        ensures read { self.now.columns.key ≡ None
            → ReadsRecord ⟦<FilePages<D> as Pages>⟧ source.old.pages source.new.pages
            self.now.root place source.new.record.items result }
        ensures kept { Continues ⟦<FilePages<D> as Pages>⟧ source.old.pages source.new.pages }
        ensures secret { source.new.secret ≡ source.old.secret }
        ensures pages { pages_of source.new.pages ≡ pages_of source.old.pages }
    {
        if self.is_keyed() {
            record_at(&mut source.pages, place, &mut source.record)?;
            return Ok(());
        }
        self.record_by_rowid(source, place)
    }

    // The row at a place: with a rowid, or in a cell.
    pub(crate) fn row_at<D: Disk>(
        &self,
        alloc: Global,
        source: &mut Source<D>,
        table: TableName,
        place: i64,
    ) -> Result<Row, FileFault>
        ensures row { self.now.columns.key ≡ None
            → GivesRowAt ⟦<FilePages<D> as Pages>⟧ source.old.pages source.new.pages
            self.now.root table self.now.columns place result }
        ensures wide { IfOk result (λ row. length row ≡ width table) }
        ensures kept { Continues ⟦<FilePages<D> as Pages>⟧ source.old.pages source.new.pages }
        ensures secret { source.new.secret ≡ source.old.secret }
        ensures pages { pages_of source.new.pages ≡ pages_of source.old.pages }
    {
        self.read_record(source, place)?;
        let answer = answer_of(&self.columns, place, source.record.as_slice());
        let (row, _) = taken(alloc, table, answer)?;
        Ok(row)
    }
}
