// A set of a file as a store.
ghost use Rattle.std.specs.Prelude.{◌≡◌, ◌≤◌, true, All, Err, IfOk, IfSome, IsErrOf, drop, find, length, take};
ghost use Rattle.mb_store.specs.Kept.{FaultsCounted, Keeps, ReadsOnly};
ghost use Rattle.mb_tables.specs.Key.{has_key};
ghost use Rattle.mb_tables.specs.Schema.{set_tables};
ghost use Rattle.mb_tables.specs.Table.{width};
ghost use Rattle.sqlite_wal.specs.Recovery.{Image};
ghost use Rattle.mb_file.specs.FilePages.{IsTrusted, pages_of};
ghost use Rattle.mb_file.specs.Held.{HoldsTables};
ghost use Rattle.mb_file.specs.Listing.{AreApart};
ghost use Rattle.mb_file.specs.Opened.{AreOf};
ghost use Rattle.mb_file.specs.Parts.{HoldsParts};
ghost use Rattle.mb_file.specs.Recovered.{image_of};
ghost use Rattle.mb_file.specs.Standing.{AllStand, AreOfLayout, HoldsNames, IsShown, rows_told};

use crate::fault::Faults;
use crate::listing::Listing;
use crate::opening::{Parts, open_parts};
use crate::source::Source;
use crate::{FileError, FileFault, TrueDisk};
use mb_reading::LeftOut;
use mb_store::{Changes, MemStore, StoreError, TileStore};
use mb_tables::{MbtType, Row, RowKey, TableDesc, TableName, set_tables};
use sqlite_disk::{Disk, Files};
use std::alloc::Global;

/// A tile set that is read from the pages of a database and its log. Over a disk whose answers are true it tells the
/// tables of its layout, with the rows that its pages show.
///
/// Its rows are those of the tables of its layout, in the order of their rowids, or of their key where a table is
/// WITHOUT ROWID; those of tiles that have no place of zoom 0 to 30 are left out and counted. Of its tables nothing is
/// held in memory but 16 bytes a row, once it was read: the number of its key, and its rowid or the place of its cell.
/// The metadata is held.
#[derive(Drop)]
pub struct FileSet<D: Disk> {
    alloc: Global,
    pub(crate) source: Source<D>,
    layout: MbtType,
    pub(crate) names: MemStore,
    pub(crate) tiles: Listing,
    pub(crate) contents: Option<Listing>,
    faults: Faults,
    ghost stands: { ∥ AllStand source tiles contents ∥₁ },
    ghost placed: { AreOfLayout layout tiles contents },
    ghost named: { HoldsNames names },
}

impl<D: Disk + Drop> FileSet<D> {
    ghost use Rattle.mb_file.specs.Told.{may_be_told, told_by_set};

    /// Opens the set of a file and its log, of whose pages so many are kept in memory. Nothing but the log is
    /// written. It reads the header, the catalog and the metadata, and tests that each table of the set is a sound
    /// tree, by a pass over its pages.
    ///
    /// `NotASet` where nothing is named `tiles`, and no tables of a layout are there; `View` where `tiles` is a view
    /// of no known form; `Table` where a table is a view, or of a form that isn't read; `Column` where it lacks a
    /// column; `Encoding` where texts are in UTF-16; `Header` and `Damaged` where it isn't a sound database; `Unread`
    /// where the file can't be read.
    pub fn open(alloc: Global, files: Files<D>, cache_pages: usize) -> Result<FileSet<D>, FileError>
        ensures found { IfOk result (λ set. IsTrusted set.source.pages → AreOf
            (image_of D.Disk files) set.source.pages.usable (pages_of set.source.pages)) }
        ensures holds { IfOk result (λ set. IsTrusted set.source.pages → may_be_told set ≡ true
            → HoldsTables (image_of D.Disk files) (told_by_set set)) }
        ensures unfailed { IfOk result (λ set. set.faults.count ≡ 0) }
    {
        let (source, parts) = open_parts(alloc, files, cache_pages)?;
        Ok(FileSet::of_parts(alloc, source, parts))
    }
}

impl<D: Disk> FileSet<D> {
    ghost use Rattle.mb_file.specs.Told.{IsSameSet, may_be_told, told_by_set};

    // The set of its parts.
    fn of_parts(alloc: Global, source: Source<D>, parts: Parts) -> FileSet<D>
        requires stand { AllStand source parts.tiles parts.contents }
        requires placed { AreOfLayout parts.layout parts.tiles parts.contents }
        requires metadata { HoldsNames parts.names }
        ensures source { result.source ≡ source }
        ensures holds { (bytes : Image) → IsTrusted source.pages
            → AreOf bytes source.pages.usable (pages_of source.pages)
            → HoldsParts source.pages.usable (pages_of source.pages) parts
            → may_be_told result ≡ true → HoldsTables bytes (told_by_set result) }
        ensures unfailed { result.faults.count ≡ 0 }
    {
        let Parts {
            layout,
            tiles,
            contents,
            names,
        } = parts;
        FileSet {
            alloc,
            source,
            layout,
            names,
            tiles,
            contents,
            faults: Faults::NONE,
        }
    }

    /// The layout of its tables.
    pub fn layout(&self) -> MbtType
        ensures { result ≡ self.now.layout }
    {
        self.layout
    }

    /// The rows that were left out of those that were read so far: of all rows once each table was read to its end.
    pub fn left_out(&self) -> LeftOut
        ensures { result ≡ self.now.source.left_out }
    {
        self.source.left_out
    }

    /// Why the last fault came, None before the first one.
    pub fn last_fault(&self) -> Option<FileFault>
        ensures { result ≡ self.now.faults.last }
    {
        self.faults.last
    }

    // The rows of a table from a place on, at most so many.
    fn page(
        &mut self,
        alloc: Global,
        table: TableName,
        from: u64,
        limit: u64,
    ) -> Result<Vec<Row>, FileFault>
        ensures shown { IsTrusted self.new.source.pages → IsShown self.old.source self.old.tiles
            → IfSome self.old.contents (IsShown self.old.source)
            → IfOk result (λ rows. rows.items ≡ take limit (drop from (rows_told self.old.source
            self.old.names self.old.tiles self.old.contents table))) }
        ensures widths { IfOk result (λ rows. All (λ row. length row ≡ width table) rows.items) }
        ensures limit { IfOk result (λ rows. length rows.items ≤ limit) }
        ensures same { IsSameSet self.old self.new }
        ensures faults { self.new.faults ≡ self.old.faults }
    {
        if table == TableName::Metadata {
            return Ok(self.names.rows(alloc, table, from, limit)?);
        }
        if self.tiles.is_of(table) {
            return self.tiles.page(alloc, &mut self.source, table, from, limit);
        }
        match &mut self.contents {
            Some(contents) => {
                if contents.is_of(table) {
                    return contents.page(alloc, &mut self.source, table, from, limit);
                }
                Ok(Vec::new(alloc))
            }
            None => Ok(Vec::new(alloc)),
        }
    }

    // The first row of a table with a key.
    fn found(
        &mut self,
        alloc: Global,
        table: TableName,
        key: &RowKey,
    ) -> Result<Option<Row>, FileFault>
        ensures shown { IsTrusted self.new.source.pages → IsShown self.old.source self.old.tiles
            → IfSome self.old.contents (IsShown self.old.source)
            → AreApart table (rows_told self.old.source self.old.names self.old.tiles
            self.old.contents table)
            → IfOk result (λ row. row ≡ find (has_key table key.now) (rows_told self.old.source
            self.old.names self.old.tiles self.old.contents table)) }
        ensures widths { IfOk result (λ row. IfSome row (λ row. length row ≡ width table)) }
        ensures keyed { IfOk result
            (λ row. IfSome row (λ row. has_key table key.now row ≡ true)) }
        ensures same { IsSameSet self.old self.new }
        ensures faults { self.new.faults ≡ self.old.faults }
    {
        if table == TableName::Metadata {
            return Ok(self.names.find(alloc, table, key)?);
        }
        if self.tiles.is_of(table) {
            return self.tiles.find(alloc, &mut self.source, table, key);
        }
        match &mut self.contents {
            Some(contents) => {
                if contents.is_of(table) {
                    return contents.find(alloc, &mut self.source, table, key);
                }
                Ok(None)
            }
            None => Ok(None),
        }
    }
}

impl<D: TrueDisk> TileStore for FileSet<D> {
    ghost use Rattle.mb_file.specs.Told.{sound_by_set, tells_by_set, told_by_set};

    ghost tells = { tells_by_set D.TrueDisk.is_true };

    ghost told = { told_by_set };

    ghost faults = { λ s. s.faults.count };

    ghost steady = { λ _. ⊥ };

    /// The descriptions of the layout's tables and views and of its metadata.
    fn describe(&mut self, alloc: Global) -> Result<Vec<TableDesc>, StoreError>
        ensures described { IfOk result
            (λ tables. tables.items ≡ set_tables self.old.layout) }
        ensures answer { IfOk result
            (λ tables. tables.items ≡ (told_by_set self.old).descriptions) }
        ensures kept { ReadsOnly told_by_set (tells_by_set D.TrueDisk.is_true)
            (λ s. s.faults.count) (λ _. ⊥) self.old self.new }
        ensures fault { FaultsCounted (λ s. s.faults.count) self.old self.new result
            StoreError.Fault }
    {
        Ok(set_tables(alloc, self.layout)?)
    }

    /// How many rows a table has. It reads each row that wasn't read yet.
    fn count_rows(&mut self, table: TableName) -> Result<u64, StoreError> {
        let answer = self.counted(self.alloc, table);
        self.faults.counted(answer)
    }

    /// The rows in the order of their table's tree. Pages in order take time in their own rows; another page passes
    /// over all rows before it.
    fn rows(
        &mut self,
        alloc: Global,
        table: TableName,
        from: u64,
        limit: u64,
    ) -> Result<Vec<Row>, StoreError> {
        let answer = self.page(alloc, table, from, limit);
        self.faults.counted(answer)
    }

    /// The first row of a table with a key, in the order of rowids, or of the file where it is WITHOUT ROWID. The first
    /// call reads each row that wasn't read yet; each further one reads one row.
    fn find(
        &mut self,
        alloc: Global,
        table: TableName,
        key: &RowKey,
    ) -> Result<Option<Row>, StoreError>
        ensures answer { tells_by_set D.TrueDisk.is_true self.old ≡ true → IfOk result
            (λ row. row ≡ find (has_key table key.now) ((told_by_set self.old).rows table)) }
        ensures widths { IfOk result (λ row. IfSome row (λ row. length row ≡ width table)) }
        ensures keyed { IfOk result
            (λ row. IfSome row (λ row. has_key table key.now row ≡ true)) }
        ensures kept { ReadsOnly told_by_set (tells_by_set D.TrueDisk.is_true)
            (λ s. s.faults.count) (λ _. ⊥) self.old self.new }
        ensures fault { FaultsCounted (λ s. s.faults.count) self.old self.new result
            StoreError.Fault }
    {
        let answer = self.found(alloc, table, key);
        self.faults.counted(answer)
    }

    /// A fault: the set is only read.
    fn create(&mut self, _alloc: Global, _tables: &[TableDesc]) -> Result<(), StoreError>
        ensures refused { result ≡ Err StoreError.Fault }
        ensures told { told_by_set self.new ≡ told_by_set self.old }
        ensures kept { Keeps (tells_by_set D.TrueDisk.is_true) (λ s. s.faults.count)
            (λ _. ⊥) self.old self.new }
        ensures fault { FaultsCounted (λ s. s.faults.count) self.old self.new result
            StoreError.Fault }
    {
        self.faults.counted(Err(FileFault::ReadOnly))
    }

    /// A fault: the set is only read.
    fn commit(&mut self, _alloc: Global, _changes: &Changes) -> Result<(), StoreError>
        ensures refused { result ≡ Err StoreError.Fault }
        ensures told { told_by_set self.new ≡ told_by_set self.old }
        ensures kept { Keeps (tells_by_set D.TrueDisk.is_true) (λ s. s.faults.count)
            (λ _. ⊥) self.old self.new }
        ensures fault { FaultsCounted (λ s. s.faults.count) self.old self.new result
            StoreError.Fault }
    {
        self.faults.counted(Err(FileFault::ReadOnly))
    }

    /// The bytes of all texts and blobs, and 8 for each other cell, over all rows. It reads each
    /// row that wasn't read yet.
    fn live_size(&mut self) -> Result<u64, StoreError> {
        let answer = self.sized(self.alloc);
        self.faults.counted(answer)
    }

    ghost sound = { λ set tells. sound_by_set set _ tells };
}
