// A table of a set: its rows in the order of its tree, and by their keys.
ghost use Rattle.std.specs.Prelude.{◌≡◌, ℕ, ◌-◌, ◌^◌, ◌<◌, ◌≤◌, None, true, All, IfOk, IfSome, drop, find, length, min, sum_by, take};
ghost use Rattle.mb_tables.specs.Key.{has_key};
ghost use Rattle.mb_tables.specs.Table.{table_eq, width};
ghost use Rattle.mb_file.specs.FilePages.{GoesOn, pages_of};
ghost use Rattle.mb_file.specs.Listing.{AreApart, IsListed, Lists};
ghost use Rattle.mb_file.specs.SetTable.{set_rows};
ghost use Rattle.sqlite_btree.specs.Chain.{Layout};
ghost use Rattle.sqlite_btree.specs.Stored.{IsTable};
ghost use Rattle.sqlite_pages.specs.PageMap.{PageMap};
ghost use Rattle.mb_store.specs.Sizes.{row_size};

use crate::FileFault;
use crate::numbers::number_of_key;
use crate::scan::Scan;
use crate::set_table::SetTable;
use crate::source::Source;
use mb_tables::{Row, RowKey, TableName};
use sqlite_disk::Disk;
use std::alloc::Global;

#[derive(Drop)]
pub(crate) struct Listing {
    table: TableName,
    of: SetTable,
    scan: Scan,
    // Whether the numbers of its rows are in order.
    is_sorted: bool,
}

impl Listing {
    pub(crate) fn new(alloc: Global, table: TableName, of: SetTable) -> Listing
        ensures listed { of.columns.key ≡ None → (layout : Layout) (usable secret : ℕ)
            (pages : PageMap) (rows : _) → IsTable usable layout of.root rows
            → length (set_rows table of.columns rows) < 2 ^ 64
            → IsListed layout usable pages secret table rows result }
        ensures table { result.table ≡ table }
        ensures of { result.of ≡ of }
    {
        Listing {
            table,
            scan: Scan::new(alloc, of.is_keyed()),
            of,
            is_sorted: false,
        }
    }

    pub(crate) fn is_of(&self, table: TableName) -> bool
        ensures same { result ≡ table_eq self.now.table table }
        ensures is { result ≡ true → self.now.table ≡ table }
    {
        self.table == table
    }

    // The rows from a place on, at most so many.
    pub(crate) fn page<D: Disk>(
        &mut self,
        alloc: Global,
        source: &mut Source<D>,
        table: TableName,
        from: u64,
        limit: u64,
    ) -> Result<Vec<Row>, FileFault>
        ensures widths { IfOk result (λ rows. All (λ row. length row ≡ width table) rows.items) }
        ensures lists { Lists source.old.pages source.new.pages source.old.secret table self.old
            (λ Listed all. Listed self.new
            × IfOk result (λ rows. rows.items ≡ take limit (drop from all))) }
        ensures limit { IfOk result (λ rows. length rows.items ≤ limit) }
        ensures same { self.new ≡ record self.old { scan = self.new.scan } }
        ensures secret { source.new.secret ≡ source.old.secret }
        ensures kept { GoesOn source.old.pages source.new.pages }
        ensures pages { pages_of source.new.pages ≡ pages_of source.old.pages }
    {
        self.scan.page(alloc, source, table, &self.of, from, limit)
    }

    // How many rows it has.
    pub(crate) fn count<D: Disk>(
        &mut self,
        alloc: Global,
        source: &mut Source<D>,
    ) -> Result<u64, FileFault>
        ensures lists { Lists source.old.pages source.new.pages source.old.secret
            self.old.table self.old
            (λ Listed all. Listed self.new
            × IfOk result (λ count. count ≡ length all)) }
        ensures same { self.new ≡ record self.old { scan = self.new.scan } }
        ensures secret { source.new.secret ≡ source.old.secret }
        ensures kept { GoesOn source.old.pages source.new.pages }
        ensures pages { pages_of source.new.pages ≡ pages_of source.old.pages }
    {
        self.scan.complete(alloc, source, self.table, &self.of)?;
        Ok(self.scan.count)
    }

    // The bytes of their cells.
    pub(crate) fn size<D: Disk>(
        &mut self,
        alloc: Global,
        source: &mut Source<D>,
    ) -> Result<u64, FileFault>
        ensures lists { Lists source.old.pages source.new.pages source.old.secret
            self.old.table self.old
            (λ Listed all. Listed self.new
            × IfOk result (λ size. size ≡ min (sum_by row_size all) (2 ^ 64 - 1))) }
        ensures same { self.new ≡ record self.old { scan = self.new.scan } }
        ensures secret { source.new.secret ≡ source.old.secret }
        ensures kept { GoesOn source.old.pages source.new.pages }
        ensures pages { pages_of source.new.pages ≡ pages_of source.old.pages }
    {
        self.scan.complete(alloc, source, self.table, &self.of)?;
        Ok(self.scan.size)
    }

    // Puts the numbers of its rows in order, once all rows were read.
    fn put_in_order(&mut self)
        ensures listed { (layout : Layout) (usable secret : ℕ) (pages : PageMap) (table : _)
            (rows : _) → self.old.scan.unseen ≡ None
            → IsListed layout usable pages secret table rows self.old
            → IsListed layout usable pages secret table rows self.new }
        ensures sorted { self.new.is_sorted ≡ true }
        ensures of { self.new.of ≡ self.old.of }
        ensures table { self.new.table ≡ self.old.table }
    {
        if !self.is_sorted {
            self.scan.numbered.sort_unstable();
            self.is_sorted = true;
        }
    }

    // The first row with a key among those of its number.
    fn look_up<D: Disk>(
        &self,
        alloc: Global,
        source: &mut Source<D>,
        table: TableName,
        key: &RowKey,
    ) -> Result<Option<Row>, FileFault>
        ensures finds { Lists source.old.pages source.new.pages source.old.secret table self.now
            (λ Listed all. self.now.is_sorted ≡ true → AreApart table all
            → IfOk result (λ row. row ≡ find (has_key table key.now) all)) }
        ensures wide { IfOk result (λ row. IfSome row (λ row. length row ≡ width table)) }
        ensures keyed { IfOk result
            (λ row. IfSome row (λ row. has_key table key.now row ≡ true)) }
        ensures kept { GoesOn source.old.pages source.new.pages }
        ensures pages { pages_of source.new.pages ≡ pages_of source.old.pages }
        ensures secret { source.new.secret ≡ source.old.secret }
    {
        let Some(number) = number_of_key(source.secret, key) else {
            return Ok(None);
        };
        let numbered = self.scan.numbered.as_slice();
        let first = numbered.partition_point(|item| item.number < number);
        for at in first..numbered.len() {
            let item = numbered[at];
            if item.number != number {
                return Ok(None);
            }
            let row = self.of.row_at(alloc, source, table, item.place)?;
            if key.is_of(table, row.cells()) {
                return Ok(Some(row));
            }
        }
        Ok(None)
    }

    // The first row with a key.
    pub(crate) fn find<D: Disk>(
        &mut self,
        alloc: Global,
        source: &mut Source<D>,
        table: TableName,
        key: &RowKey,
    ) -> Result<Option<Row>, FileFault>
        ensures lists { Lists source.old.pages source.new.pages source.old.secret table self.old
            (λ Listed all. Listed self.new × (AreApart table all
            → IfOk result (λ row. row ≡ find (has_key table key.now) all))) }
        ensures wide { IfOk result (λ row. IfSome row (λ row. length row ≡ width table)) }
        ensures keyed { IfOk result
            (λ row. IfSome row (λ row. has_key table key.now row ≡ true)) }
        ensures of { self.new.of ≡ self.old.of }
        ensures table { self.new.table ≡ self.old.table }
        ensures kept { GoesOn source.old.pages source.new.pages }
        ensures pages { pages_of source.new.pages ≡ pages_of source.old.pages }
        ensures secret { source.new.secret ≡ source.old.secret }
    {
        self.scan.complete(alloc, source, table, &self.of)?;
        self.put_in_order();
        self.look_up(alloc, source, table, key)
    }
}
