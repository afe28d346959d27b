// The rows of a table in the order of its tree, numbered on the way.
ghost use Rattle.std.specs.Prelude.{◌≡◌, ℕ, ◌^◌, ◌<◌, ◌++◌, [], false, true, IfNone, IfOk, IfSome, OnErr, OnOk, None, length};
ghost use Rattle.std.specs.List.{cons_option};
ghost use Rattle.mb_tables.specs.Table.{width};
ghost use Rattle.sqlite_btree.specs.Chain.{Layout};
ghost use Rattle.sqlite_btree.specs.Stored.{IsTable};
ghost use Rattle.sqlite_pages.specs.PageMap.{PageMap};
ghost use Rattle.mb_file.specs.Course.{has_key, row_in};
ghost use Rattle.mb_file.specs.FilePages.{GoesOn, pages_of};
ghost use Rattle.mb_file.specs.Noted.{IsNoted, IsNotedAs, KeepsNotes, Notes, with_place};
ghost use Rattle.mb_file.specs.Numbers.{number_of_row};
ghost use Rattle.mb_file.specs.Scan.{Goes, IsScan, Scans, UnseenAfter, behind, is_unseen};
ghost use Rattle.mb_file.specs.SetTable.{set_row, set_rows};

use crate::FileFault;
use crate::course::Course;
use crate::numbers::{Numbered, number_of_row};
use crate::set_table::{SetTable, if_added, taken};
use crate::source::Source;
use mb_reading::{Answer, LeftOut, Step};
use mb_store::size_with_cells;
use mb_tables::{Row, TableName};
use sqlite_disk::Disk;
use std::alloc::Global;

#[derive(Drop)]
pub(crate) struct Scan {
    pub(crate) course: Course,
    // How many rows of the set lie before it.
    pub(crate) position: u64,
    // The least number that no row had so far, None once all rows were read.
    pub(crate) unseen: Option<i64>,
    // Whether a row was read, of the set or not.
    any: bool,
    // How many rows of the set were read so far, and the bytes of their cells.
    pub(crate) count: u64,
    pub(crate) size: u64,
    // These rows by their keys, in the order of the table.
    pub(crate) numbered: Vec<Numbered>,
}

// What is left out, with a row that was never read before.
fn counted_if(
    is_new: bool,
    left_out: LeftOut,
    table: TableName,
    answer: Answer<'_>,
    step: Step,
) -> LeftOut {
    if is_new {
        left_out.counted(table, answer, step)
    } else {
        left_out
    }
}

// The place in the rows of the set behind one of them, if there is one.
fn place_behind(place: u64, row: &Option<Row>) -> u64
    ensures { result ≡ behind place row.now }
{
    match row {
        Some(_) => place.saturating_add(1),
        None => place,
    }
}

impl Scan {
    pub(crate) fn new(alloc: Global, is_keyed: bool) -> Scan
        ensures kind { has_key result.course ≡ is_keyed }
        ensures stands { is_keyed ≡ false → (layout : Layout) (usable root : ℕ) (pages : PageMap)
            (table : _) (columns : _) (rows : _) → IsTable usable layout root rows
            → length (set_rows table columns rows) < 2 ^ 64
            → IsScan layout usable pages table columns rows result }
        ensures noted { (layout : Layout) (usable root secret : ℕ) (table : _) (columns : _)
            (rows : _) → IsTable usable layout root rows
            → IsNoted secret table columns rows result }
    {
        Scan {
            course: Course::new(alloc, is_keyed),
            position: 0,
            unseen: Some(i64::MIN),
            any: false,
            count: 0,
            size: 0,
            numbered: Vec::new(alloc),
        }
    }

    // Goes before the first row again.
    pub(crate) fn restart(&mut self, alloc: Global)
        ensures kind { has_key self.new.course ≡ has_key self.old.course }
        ensures stands { has_key self.old.course ≡ false → (layout : Layout) (usable root : ℕ) (pages : PageMap)
            (table : _) (columns : _) (rows : _) → IsTable usable layout root rows
            → length (set_rows table columns rows) < 2 ^ 64
            → IsScan layout usable pages table columns rows self.new }
        ensures place { self.new.position ≡ 0 }
        ensures same { self.new ≡ record self.old { course = self.new.course; position = 0 } }
    {
        let course = self.course.anew(alloc);
        self.course = course;
        self.position = 0;
    }

    // Notes the number of a row's key, and where the row is read again.
    fn push_number(&mut self, secret: u64, row: &Row) -> Result<(), FileFault>
        ensures numbers { has_key self.old.course ≡ false
            → OnOk result (self.new.numbered.items ≡ self.old.numbered.items
            ++ cons_option (with_place (row_in self.old.course).0 (number_of_row secret row.now))
            []) }
        ensures failed { OnErr result (self.new.numbered.items ≡ self.old.numbered.items) }
        ensures same { self.new ≡ record self.old { numbered = self.new.numbered } }
    {
        if let Some(number) = number_of_row(secret, row) {
            let place = self.course.place();
            self.numbered.push(Numbered { number, place })?;
        }
        Ok(())
    }

    // Notes a row of the set that was never read before, if there is one.
    fn note(&mut self, secret: u64, row: &Option<Row>) -> Result<(), FileFault>
        ensures notes { has_key self.old.course ≡ false → OnOk result
            (Notes secret (row_in self.old.course).0 row.now self.old self.new) }
        ensures failed { OnErr result (IsNotedAs self.old self.new) }
        ensures unseen { self.new.unseen ≡ self.old.unseen }
        ensures course { self.new.course ≡ self.old.course }
        ensures place { self.new.position ≡ self.old.position }
    {
        let Some(row) = row else {
            return Ok(());
        };
        self.push_number(secret, row)?;
        self.count = self.count.saturating_add(1);
        self.size = size_with_cells(self.size, row.cells());
        Ok(())
    }

    // Whether a row was never read before.
    fn is_new(&self, number: i64) -> bool
        ensures { result ≡ is_unseen self.now.unseen number }
    {
        match self.unseen {
            Some(unseen) => number >= unseen,
            None => false,
        }
    }

    // Notes the row with a number where it was never read before.
    fn see(
        &mut self,
        secret: u64,
        is_new: bool,
        number: i64,
        row: &Option<Row>,
    ) -> Result<(), FileFault>
        ensures notes { is_new ≡ true → has_key self.old.course ≡ false → OnOk result
            (Notes secret (row_in self.old.course).0 row.now self.old self.new) }
        ensures unseen { OnOk result
            (UnseenAfter is_new self.old.unseen number self.new.unseen) }
        ensures same { is_new ≡ false → IsNotedAs self.old self.new }
        ensures failed { OnErr result (IsNotedAs self.old self.new) }
        ensures course { self.new.course ≡ self.old.course }
        ensures place { self.new.position ≡ self.old.position }
    {
        if !is_new {
            return Ok(());
        }
        self.note(secret, row)?;
        self.unseen = number.checked_add(1);
        Ok(())
    }

    // Takes the row that was read last. None where the set has no such row.
    fn take<D: Disk>(
        &mut self,
        alloc: Global,
        source: &mut Source<D>,
        table: TableName,
        of: &SetTable,
    ) -> Result<Option<Row>, FileFault>
        ensures row { IfOk result
            (λ row. row ≡ set_row table of.now.columns (row_in self.old.course)) }
        ensures place { IfOk result (λ row. self.new.position ≡ behind self.old.position row) }
        ensures course { self.new.course ≡ self.old.course }
        ensures wide { IfOk result (λ row. IfSome row (λ row. length row ≡ width table)) }
        ensures notes { is_unseen self.old.unseen (row_in self.old.course).0 ≡ true
            → has_key self.old.course ≡ false → OnOk result
            (Notes source.old.secret (row_in self.old.course).0
            (set_row table of.now.columns (row_in self.old.course)) self.old self.new) }
        ensures unseen { OnOk result
            (UnseenAfter (is_unseen self.old.unseen (row_in self.old.course).0) self.old.unseen
            (row_in self.old.course).0 self.new.unseen) }
        ensures same { is_unseen self.old.unseen (row_in self.old.course).0 ≡ false
            → IsNotedAs self.old self.new }
        ensures failed { OnErr result (IsNotedAs self.old self.new) }
        ensures pages { source.new.pages ≡ source.old.pages }
        ensures secret { source.new.secret ≡ source.old.secret }
    {
        self.any = true;
        let number = self.course.number();
        let is_new = self.is_new(number);
        let answer = of.answer(number, self.course.record());
        let (row, step) = taken(alloc, table, answer)?;
        let left_out = counted_if(is_new, source.left_out, table, answer, step);
        let row = if_added(row, step);
        self.see(source.secret, is_new, number, &row)?;
        source.left_out = left_out;
        self.position = place_behind(self.position, &row);
        Ok(row)
    }

    // The end of the table, where some of its rows is one of the set, or it has none.
    fn end(&mut self, table: TableName) -> Result<(), FileFault>
        ensures ended { OnOk result (self.new ≡ record self.old { unseen = None }) }
        ensures failed { OnErr result (self.new ≡ self.old) }
    {
        if self.any && self.count == 0 {
            return Err(FileFault::Outside { table });
        }
        self.unseen = None;
        Ok(())
    }

    // The next row, None past the last one.
    pub(crate) fn next_row<D: Disk>(
        &mut self,
        alloc: Global,
        source: &mut Source<D>,
        table: TableName,
        of: &SetTable,
    ) -> Result<Option<Row>, FileFault>
        ensures stands { Scans source.old.pages source.new.pages of.now.root table of.now.columns
            self.old
            (λ Stands all. IfOk result (λ row. Stands self.new
            × Goes all self.old.position self.new.position row)) }
        ensures notes { KeepsNotes source.old.pages source.new.pages of.now.root source.old.secret
            table of.now.columns self.old self.new }
        ensures still { self.old.unseen ≡ None → IsNotedAs self.old self.new }
        ensures whole { IfOk result (λ row. IfNone row (self.new.unseen ≡ None)) }
        ensures wide { IfOk result (λ row. IfSome row (λ row. length row ≡ width table)) }
        ensures secret { source.new.secret ≡ source.old.secret }
        ensures kind { has_key self.new.course ≡ has_key self.old.course }
        ensures kept { GoesOn source.old.pages source.new.pages }
        ensures pages { pages_of source.new.pages ≡ pages_of source.old.pages }
    {
        'rows: for _ in 0..u64::MAX {
            if !self
                .course
                .advance(&mut source.pages, &mut source.scratch, of.root)?
            {
                self.end(table)?;
                return Ok(None);
            }
            if let Some(row) = self.take(alloc, source, table, of)? {
                return Ok(Some(row));
            }
        }
        Err(FileFault::Damaged)
    }
}
